//! The lines of calls that fail.

ghost use Rattle.std.specs.Prelude.{◌≡◌, ◌<◌, ◌≤◌, ◌+◌, ◌++◌, length, OnOk, IfOk};
ghost use Rattle.script_text.specs.Answers.{GivesNew, FindsValue, texts};
ghost use Rattle.script_text.specs.HeadLines.{is_listed, unlisted, few_fails, kind_of, kind_in, fails_from, fail_one_line, fail_range_line, fail_line};

use crate::error::LineError;
use crate::slots::{nothing_in, number_in};
use crate::state::Version;
use flr_base::NoMemory;
use lfs_values::Cause;
use object_target::{Fail, FailKind};
use script_values::{Fails, What};

const MOST_FAILS: u64 = 4096;

const MOST_CALL: u64 = 4294967295;

/// Whether a call of the target from the first to the last is listed.
fn is_listed(fails: &[Fail], target: u8, first: u32, last: u32) -> bool
    ensures { result ≡ is_listed fails.now target first last }
{
    for fail in fails {
        if fail.target == target && first <= fail.call && fail.call <= last {
            return true;
        }
    }
    false
}

fn unlisted(fails: &[Fail], target: u8, first: u32, last: u32) -> Result<(), LineError>
    ensures { result ≡ unlisted fails.now target first last }
{
    if is_listed(fails, target, first, last) {
        return Err(LineError::Bad(Cause::Repeated { place: 3 }));
    }
    Ok(())
}

fn few_fails(count: u64) -> Result<(), LineError>
    ensures value { result ≡ few_fails count }
    ensures few { IfOk result (λ _. count ≤ 4096) }
{
    if count > MOST_FAILS {
        return Err(LineError::TooMany(What::Fails));
    }
    Ok(())
}

fn kind_of(word: &[u8]) -> Option<FailKind>
    ensures { result ≡ kind_of word.now }
{
    if word == b"refused".as_slice() {
        Some(FailKind::Refused)
    } else if word == b"lost".as_slice() {
        Some(FailKind::Lost)
    } else {
        None
    }
}

/// How calls fail, and the words behind it.
fn kind_in<'a>(words: &'a [&'a [u8]], place: u32) -> Result<(FailKind, &'a [&'a [u8]]), LineError>
    ensures { FindsValue result (kind_in place (texts words.now)) }
{
    match words {
        [] => Err(LineError::Bad(Cause::Missing)),
        [word, behind @ ..] => match kind_of(word) {
            Some(kind) => Ok((kind, behind)),
            None => Err(LineError::Bad(Cause::UnknownWord { place })),
        },
    }
}

/// Lists so many calls of the target from the first on.
#[tactic(auto, using(crate::proofs::FailLists::fails_more))]
fn list(
    fails: &mut Fails,
    target: u8,
    first: u32,
    kind: FailKind,
    count: u32,
) -> Result<(), NoMemory>
    requires { first + count ≤ 4294967296 }
    ensures { OnOk result (fails.new ≡ fails.old ++ fails_from target first kind count) }
{
    for further in 0..count {
        fails.push(Fail {
            target,
            call: first + further,
            kind,
        })?;
    }
    Ok(())
}

/// `fail TARGET CALL KIND`.
fn fail_one_line(fails: &mut Fails, targets: u8, words: &[&[u8]]) -> Result<(), LineError>
    requires some { 0 < targets }
    requires few { length fails.old ≤ 4096 }
    ensures { GivesNew result fails.new (fail_one_line targets fails.old (texts words.now)) }
{
    few_fails(fails.len() as u64 + 1)?;
    let (target, words) = number_in(words, 2, 0, u64::from(targets) - 1)?;
    let (call, words) = number_in(words, 3, 1, MOST_CALL)?;
    let (target, call) = (target as u8, call as u32);
    unlisted(fails.as_slice(), target, call, call)?;
    let (kind, words) = kind_in(words, 4)?;
    nothing_in(words, 5)?;
    list(fails, target, call, kind, 1)?;
    Ok(())
}

/// `fail TARGET FIRST LAST KIND`.
fn fail_range_line(fails: &mut Fails, targets: u8, words: &[&[u8]]) -> Result<(), LineError>
    requires some { 0 < targets }
    requires few { length fails.old ≤ 4096 }
    ensures { GivesNew result fails.new (fail_range_line targets fails.old (texts words.now)) }
{
    let (target, words) = number_in(words, 2, 0, u64::from(targets) - 1)?;
    let (first, words) = number_in(words, 3, 1, MOST_CALL)?;
    let (target, start) = (target as u8, first as u32);
    unlisted(fails.as_slice(), target, start, start)?;
    let (last, words) = number_in(words, 4, first, MOST_CALL)?;
    let count = last + 1 - first;
    few_fails(fails.len() as u64 + count)?;
    unlisted(fails.as_slice(), target, start, last as u32)?;
    let (kind, words) = kind_in(words, 5)?;
    nothing_in(words, 6)?;
    list(fails, target, start, kind, count as u32)?;
    Ok(())
}

/// A line of calls that fail, behind those listed before.
pub(crate) fn fail_line(
    fails: &mut Fails,
    version: Version,
    targets: u8,
    words: &[&[u8]],
) -> Result<(), LineError>
    requires some { 0 < targets }
    requires few { length fails.old ≤ 4096 }
    ensures { GivesNew result fails.new (fail_line version targets fails.old (texts words.now)) }
{
    match version {
        Version::One => fail_one_line(fails, targets, words),
        Version::Two => fail_range_line(fails, targets, words),
    }
}
