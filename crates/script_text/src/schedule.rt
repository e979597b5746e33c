//! Where a schedule begins, and what may stand behind it.

ghost use Rattle.std.specs.Prelude.{◌≡◌, ◌<◌, ◌≤◌, ◌+◌, ◌^◌, ◌-◌, length};
ghost use Rattle.text_words.specs.Pieces.{words_of};
ghost use Rattle.script_text.specs.Answers.{Answers, Gives};
ghost use Rattle.script_text.specs.Replays.{all_skipped};
ghost use Rattle.script_text.specs.Schedules.{is_schedule_by, IsCutThere, schedule_line, skipped_words, skipped_line, behind_first};
ghost use Rattle.script_text.specs.TextLines.{Line, lines_in};

use crate::error::{LineError, ScriptError, error_at};
use crate::lead::{is_comment, lead_of, unplaced};
use crate::lines::{as_text, next_line};
use crate::runs::runs_in;
use script_values::Runs;
use std::alloc::Global;
use text_words::next_word;

/// Whether the first word is `schedule`.
fn is_schedule(line: &[u8]) -> bool
    ensures { result ≡ is_schedule_by (words_of line.now) }
{
    match next_word(line) {
        Some((word, _)) => word == b"schedule".as_slice(),
        None => false,
    }
}

/// The lines before the first that begins a schedule, and the rest of the text.
pub(crate) fn at_schedule(text: &[u8]) -> (&[u8], &[u8])
    ensures { IsCutThere text.now result.0.now result.1.now }
{
    let mut rest = text;
    while let Some((line, _, behind)) = next_line(rest) {
        if is_schedule(line) {
            return text.split_at(text.len() - rest.len());
        }
        rest = behind;
    }
    text.split_at(text.len())
}

/// The words behind the first.
pub(crate) fn behind_first(line: &[u8]) -> &[u8]
    ensures { words_of result.now ≡ behind_first (words_of line.now) }
{
    match next_word(line) {
        Some((_, behind)) => behind,
        None => line,
    }
}

/// The runs of the schedule line.
pub(crate) fn schedule_line(alloc: Global, line: &[u8], ended: bool) -> Result<Runs, LineError>
    requires { length line.now ≤ 67108864 }
    ensures { Gives result (schedule_line (record { text = line.now; ended = ended })) }
{
    as_text(line, ended)?;
    runs_in(alloc, behind_first(line))
}

fn skipped_words(knows_mirrors: bool, line: &[u8]) -> Result<(), LineError>
    ensures { result ≡ skipped_words knows_mirrors (words_of line.now) }
{
    match next_word(line) {
        None => Ok(()),
        Some((word, _)) => {
            if is_comment(word) {
                Ok(())
            } else {
                Err(unplaced(knows_mirrors, lead_of(word)))
            }
        }
    }
}

fn skipped_line(knows_mirrors: bool, line: &[u8], ended: bool) -> Result<(), LineError>
    ensures { result ≡ skipped_line knows_mirrors tt (record { text = line.now; ended = ended }) }
{
    as_text(line, ended)?;
    skipped_words(knows_mirrors, line)
}

/// Goes through the lines behind the schedule line, of which the first has this place: only lines that
/// are skipped may stand there.
pub(crate) fn all_skipped(knows_mirrors: bool, at: u32, text: &[u8]) -> Result<(), ScriptError>
    requires { at + length text.now < 2 ^ 32 - 1 }
    ensures { Answers result (all_skipped knows_mirrors at (lines_in text.now)) }
{
    let mut line_at = at;
    let mut rest = text;
    while let Some((line, ended, behind)) = next_line(rest) {
        if let Err(error) = skipped_line(knows_mirrors, line, ended) {
            return Err(error_at(line_at, error));
        }
        rest = behind;
        line_at += 1;
    }
    Ok(())
}
