//! Tests of lists.

ghost use Rattle.std.specs.Prelude.{◌≡◌, map, IfOk};
ghost use Rattle.std.specs.List.{list_all};
ghost use Rattle.reply_read.specs.Values.{ascend, is_call, is_left};

use flr_base::{FailedCall, Left, NoMemory};
use std::alloc::Global;

/// Whether each number is above the one before.
#[tactic(auto, using(crate::proofs::Ascending::ascending))]
pub(crate) fn ascend(numbers: &[u32]) -> bool
    ensures { result ≡ ascend 0 numbers.now }
{
    let mut least: u64 = 0;
    for number in numbers {
        let number = u64::from(*number);
        if number < least {
            return false;
        }
        least = number + 1;
    }
    true
}

/// The components that were left.
pub(crate) fn components(alloc: Global, lefts: &[Left]) -> Result<Vec<u32>, NoMemory>
    ensures { IfOk result (λ found. found.items ≡ map (λ left. left.component) lefts.now) }
{
    let mut found = Vec::new(alloc);
    for left in lefts {
        found.push(left.component)?;
    }
    Ok(found)
}

fn is_call(call: FailedCall) -> bool
    ensures { result ≡ is_call call }
{
    call.target < 64
}

/// Whether each is a call of one of 64 targets.
pub(crate) fn are_calls(calls: &[FailedCall]) -> bool
    ensures { result ≡ list_all is_call calls.now }
{
    for call in calls {
        if !is_call(*call) {
            return false;
        }
    }
    true
}

fn is_left(left: Left) -> bool
    ensures { result ≡ is_left left }
{
    is_call(left.call)
}

/// Whether each was left for a call of one of 64 targets.
pub(crate) fn are_left(lefts: &[Left]) -> bool
    ensures { result ≡ list_all is_left lefts.now }
{
    for left in lefts {
        if !is_left(*left) {
            return false;
        }
    }
    true
}
