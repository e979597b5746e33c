//! The lines behind a call's own.

ghost use Rattle.std.specs.Prelude.{◌≡◌, MatchResult, IfOk};
ghost use Rattle.reply_read.specs.declared.answer.Answer.TheVariants as answers;
ghost use Rattle.call_read.specs.Following.{Follow, StandsFirst, StopsAt, TakesFirst};

use flr_base::{Diffs, NoMemory, Octets, Reply, Takes};
use layout_text::{TextError, next_layout};
use reply_read::{Answer, read_diff, read_take};
use std::alloc::Global;
use text_words::next_line;

/// The pieces of a read that stand first, as many as there are, and what stands behind them.
fn takes(alloc: Global, text: &[u8]) -> Result<(Takes, &[u8]), NoMemory>
    ensures { IfOk result (λ found. TakesFirst text.now found.0 found.1.now) }
{
    let mut takes = Takes::new(alloc);
    let mut rest = text;
    while let Some((line, more)) = next_line(rest) {
        let Some(piece) = read_take(alloc, line)? else {
            return Ok((takes, rest));
        };
        takes.push(piece)?;
        rest = more;
    }
    Ok((takes, rest))
}

fn with_takes(
    alloc: Global,
    bytes: Octets,
    text: &[u8],
) -> Result<((Reply, Takes), &[u8]), TextError>
    ensures { MatchResult result (λ found. StandsFirst (answers.Bytes bytes) text.now found.0.0 found.0.1 found.1.now) (StopsAt (Follow (answers.Bytes bytes)) text.now) }
{
    let (takes, rest) = takes(alloc, text)?;
    Ok(((Reply::Bytes(bytes), takes), rest))
}

/// The differences that stand first, so many, and what stands behind them.
fn diffs(alloc: Global, count: u32, text: &[u8]) -> Result<((Reply, Takes), &[u8]), TextError>
    ensures { MatchResult result (λ found. StandsFirst (answers.Differ count) text.now found.0.0 found.0.1 found.1.now) (StopsAt (Follow (answers.Differ count)) text.now) }
{
    let mut diffs = Diffs::new(alloc);
    let mut rest = text;
    for taken in 0..count {
        let Some((line, more)) = next_line(rest) else {
            return Err(TextError::Bad { line: taken + 1 });
        };
        let Some(diff) = read_diff(alloc, line)? else {
            return Err(TextError::Bad { line: taken + 1 });
        };
        diffs.push(diff)?;
        rest = more;
    }
    Ok(((Reply::Differ(diffs), Takes::new(alloc)), rest))
}

/// The text of a layout that stands first, and what stands behind it.
fn layout(alloc: Global, text: &[u8]) -> Result<((Reply, Takes), &[u8]), TextError>
    ensures { MatchResult result (λ found. StandsFirst answers.Layout text.now found.0.0 found.0.1 found.1.now) (StopsAt (Follow answers.Layout) text.now) }
{
    let (_layout, rest) = next_layout(alloc, text)?;
    let (front, _) = text.split_at(text.len() - rest.len());
    let text = Octets::from_vec(Vec::from_slice(alloc, front)?);
    Ok(((Reply::Layout(text), Takes::new(alloc)), rest))
}

fn follow(alloc: Global, answer: Answer, text: &[u8]) -> Result<((Reply, Takes), &[u8]), TextError>
    ensures { MatchResult result (λ found. StandsFirst answer text.now found.0.0 found.0.1 found.1.now) (StopsAt (Follow answer) text.now) }
{
    match answer {
        Answer::Whole(reply) => Ok(((reply, Takes::new(alloc)), text)),
        Answer::Layout => layout(alloc, text),
        Answer::Bytes(bytes) => with_takes(alloc, bytes, text),
        Answer::Differ(count) => diffs(alloc, count, text),
    }
}

/// The reply and the pieces of a read that the answer becomes with the lines that follow it, as many as
/// there are, and what stands behind them. An error tells the first line at which what follows the
/// answer doesn't go on, counted from 1; the count stands still at its last value.
pub fn read_following(
    alloc: Global,
    answer: Answer,
    text: &[u8],
) -> Result<((Reply, Takes), &[u8]), TextError>
    ensures read { MatchResult result (λ found. StandsFirst answer text.now found.0.0 found.0.1 found.1.now) (StopsAt (Follow answer) text.now) }
{
    follow(alloc, answer, text)
}
