//! The calls of a report.

ghost use Rattle.std.specs.Prelude.{◌≡◌, ◌↔◌, IfOk, IsTrue, MatchResult, Some, true};
ghost use Rattle.call_read.specs.declared.head.Head.{Head};
ghost use Rattle.whole_report.specs.Coming.{CallsCome};
ghost use Rattle.whole_report.specs.Fronts.{CallFault, CallStands, CallsStand, MayCome, SaysHead, begins};
ghost use Rattle.whole_report.specs.Reports.{FaultsAt};

use crate::lines::{begins, further};
use call_read::{Head, Places, read_following, read_head};
use flr_base::{Entry, NoMemory};
use layout_text::TextError;
use report_text::{Call, CallList};
use std::alloc::Global;
use text_words::next_line;

/// Whether a call with these places may come after this place: its point is after it, and its first
/// step, its point and its last step are in order.
fn may_come(after: u32, places: Places) -> bool
    ensures { IsTrue result ↔ MayCome after places }
{
    after < places.at && places.first <= places.at && places.at <= places.last
}

/// What the line of a call says that may come after this place. There is none where the line isn't one
/// of such a call.
fn next_head(alloc: Global, after: u32, line: &[u8]) -> Result<Option<Head>, NoMemory>
    ensures { IfOk result (λ found. (head : Head) → ((found ≡ Some head) ↔ SaysHead after line.now head)) }
{
    let Some(head) = read_head(alloc, line)? else {
        return Ok(None);
    };
    if may_come(after, head.places) {
        Ok(Some(head))
    } else {
        Ok(None)
    }
}

/// The call that stands first, its point after this place, and what stands behind it. The text begins
/// with `c`.
fn next_call(alloc: Global, after: u32, text: &[u8]) -> Result<(Call, &[u8]), TextError>
    requires { begins 99 text.now ≡ true }
    ensures { MatchResult result (λ found. CallStands after text.now found.0 found.1.now) (CallFault after text.now) }
{
    let Some((line, rest)) = next_line(text) else {
        return Err(TextError::Bad { line: 1 });
    };
    let Some(head) = next_head(alloc, after, line)? else {
        return Err(TextError::Bad { line: 1 });
    };
    let Head {
        places,
        command,
        answer,
    } = head;
    match read_following(alloc, answer, rest) {
        Ok(told) => {
            let ((reply, takes), behind) = told;
            let entry = Entry {
                client: places.client,
                number: places.number,
                first: places.first,
                at: places.at,
                last: places.last,
                reply,
                takes,
            };
            Ok((Call { entry, command }, behind))
        }
        Err(error) => Err(further(text, rest, error)),
    }
}

/// The calls that stand first, as many as there are, the greatest of their places, and what stands
/// behind them.
pub(crate) fn read_calls(alloc: Global, text: &[u8]) -> Result<((CallList, u32), &[u8]), TextError>
    ensures { MatchResult result (λ found. CallsStand text.now found.0.0 found.0.1 found.1.now) (FaultsAt (CallsCome 0 0) text.now) }
{
    let mut calls = CallList::new(alloc);
    let mut after: u32 = 0;
    let mut top: u32 = 0;
    let mut rest = text;
    while begins(rest, b'c') {
        match next_call(alloc, after, rest) {
            Ok(told) => {
                let (call, more) = told;
                after = call.entry.at;
                top = top.max(call.entry.last);
                calls.push(call)?;
                rest = more;
            }
            Err(error) => return Err(further(text, rest, error)),
        }
    }
    Ok(((calls, top), rest))
}
