//! The lines that follow an answer.

ghost use Rattle.std.specs.Prelude.{◌≡◌, ◌↔◌, map, IfOk, Some};
ghost use Rattle.flr_base.specs.declared.reply.Diff.{Diff};
ghost use Rattle.flr_base.specs.declared.reply.Take.{Take};
ghost use Rattle.report_text.specs.Answers.{diff_line, take_line};
ghost use Rattle.reply_read.specs.Limits.{IsDiff, IsTake};
ghost use Rattle.reply_read.specs.Replies.{diff_in, diff_of, diff_words, range_in, take_in, take_of, take_words, two_bytes, two_ids};

use crate::values::{from_in, number_32, number_64};
use flr_base::{Diff, NoMemory, Range, Take};
use std::alloc::Global;
use text_words::{hex_byte, parts};

fn range_in(a: &[u8], b: &[u8]) -> Option<Range>
    ensures { result ≡ range_in a.now b.now }
{
    let start = number_64(a)?;
    let end = number_64(b)?;
    Some(Range { start, end })
}

#[tactic(auto, unfolding(crate::specs::Replies::take_in))]
fn take_in(a: &[u8], b: &[u8], c: &[u8], d: &[u8]) -> Option<Take>
    ensures { result ≡ take_in a.now b.now c.now d.now }
{
    let range = range_in(a, b)?;
    let component = number_32(c)?;
    let from = from_in(d)?;
    Some(Take {
        range,
        component,
        from,
    })
}

fn take_words(words: &[&[u8]]) -> Option<Take>
    ensures { result ≡ take_words (map (λ word. word.now) words.now) }
{
    match words {
        [verb, a, b, c, d] if *verb == b"take".as_slice() => take_in(a, b, c, d),
        _ => None,
    }
}

#[tactic(auto, unfolding(crate::specs::Replies::take_of))]
fn take_of(alloc: Global, line: &[u8]) -> Result<Option<Take>, NoMemory>
    ensures { IfOk result (λ found. found ≡ take_of line.now) }
{
    let words = parts(alloc, line, b' ')?;
    Ok(take_words(&words))
}

/// The piece of a read that the line says: `take START END ID FROM`, where FROM is `hole` or
/// `TARGET.NUMBER@CALL`.
pub fn read_take(alloc: Global, line: &[u8]) -> Result<Option<Take>, NoMemory>
    ensures value { IfOk result (λ found. found ≡ take_of line.now) }
    ensures spelled { IfOk result (λ found. (piece : Take) → ((found ≡ Some piece) ↔ (IsTake piece × (line.now ≡ take_line piece)))) }
{
    take_of(alloc, line)
}

fn two_ids(a: &[u8], b: &[u8]) -> Option<(u32, u32)>
    ensures { result ≡ two_ids a.now b.now }
{
    let first = number_32(a)?;
    let second = number_32(b)?;
    Some((first, second))
}

fn two_bytes(a: &[u8], b: &[u8]) -> Option<(u8, u8)>
    ensures { result ≡ two_bytes a.now b.now }
{
    let ours = hex_byte(a)?;
    let theirs = hex_byte(b)?;
    Some((ours, theirs))
}

#[tactic(auto, unfolding(crate::specs::Replies::diff_in))]
fn diff_in(a: &[u8], b: &[u8], c: &[u8], d: &[u8], e: &[u8]) -> Option<Diff>
    ensures { result ≡ diff_in a.now b.now c.now d.now e.now }
{
    let (first, second) = two_ids(a, b)?;
    let offset = number_64(c)?;
    let (ours, theirs) = two_bytes(d, e)?;
    Some(Diff {
        first,
        second,
        offset,
        ours,
        theirs,
    })
}

fn diff_words(words: &[&[u8]]) -> Option<Diff>
    ensures { result ≡ diff_words (map (λ word. word.now) words.now) }
{
    match words {
        [verb, a, b, c, d, e] if *verb == b"differ".as_slice() => diff_in(a, b, c, d, e),
        _ => None,
    }
}

#[tactic(auto, unfolding(crate::specs::Replies::diff_of))]
fn diff_of(alloc: Global, line: &[u8]) -> Result<Option<Diff>, NoMemory>
    ensures { IfOk result (λ found. found ≡ diff_of line.now) }
{
    let words = parts(alloc, line, b' ')?;
    Ok(diff_words(&words))
}

/// The difference that the line says: `differ FIRST SECOND OFFSET HH HH`.
pub fn read_diff(alloc: Global, line: &[u8]) -> Result<Option<Diff>, NoMemory>
    ensures value { IfOk result (λ found. found ≡ diff_of line.now) }
    ensures spelled { IfOk result (λ found. (diff : Diff) → ((found ≡ Some diff) ↔ (IsDiff diff × (line.now ≡ diff_line diff)))) }
{
    diff_of(alloc, line)
}
