//! A script and its schedule.

ghost use Rattle.std.specs.Prelude.{◌≡◌, ◌<◌, ◌≤◌, ◌+◌, ◌^◌, [], List, length, IfOk, Err, MatchResult};
ghost use Rattle.script_text.specs.Answers.{Answers};
ghost use Rattle.script_text.specs.Replays.{scheduled, replay_by, replay_of};
ghost use Rattle.script_text.specs.Schedules.{before_schedule, from_schedule};
ghost use Rattle.script_text.specs.Grammar.{SpellsReplay};
ghost use Rattle.script_values.specs.Scripts.{ScriptView};
ghost use Rattle.script_values.specs.declared.runs.ClientRun.{ClientRun};
ghost use Rattle.script_text.specs.TextLines.{lines_in, size_of_lines};
ghost use Rattle.script_text.specs.declared.error.ScriptError.TheVariants as errors;

use crate::error::{ScriptError, error_at};
use crate::lines::next_line;
use crate::read::{MOST_OF_SCRIPT, part_of, whole_of};
use crate::schedule::{all_skipped, at_schedule, schedule_line};
use crate::step::knows_mirrors;
use script_values::{Runs, Script};
use std::alloc::Global;

/// How many bytes a script and its schedule may have.
const MOST_OF_INPUT: usize = 67108864;

fn count_lines(text: &[u8]) -> u32
    requires { length text.now < 2 ^ 32 }
    ensures count { result ≡ length (lines_in text.now) }
    ensures few { result ≤ length text.now }
{
    let mut count = 0;
    let mut rest = text;
    while let Some((_, _, behind)) = next_line(rest) {
        rest = behind;
        count += 1;
    }
    count
}

/// The script of the lines before the schedule line, and the runs of that line.
fn scheduled(alloc: Global, before: &[u8], rest: &[u8]) -> Result<(Script, Runs), ScriptError>
    requires { length before.now + length rest.now ≤ 67108864 }
    ensures exact { Answers result (scheduled (lines_in before.now) (lines_in rest.now)) }
    ensures none { lines_in rest.now ≡ [] → result ≡ Err errors.NoSchedule }
{
    let Some((line, ended, behind)) = next_line(rest) else {
        return Err(ScriptError::NoSchedule);
    };
    let part = part_of(alloc, before)?;
    let at = count_lines(before);
    let runs = match schedule_line(alloc, line, ended) {
        Ok(runs) => runs,
        Err(error) => return Err(error_at(at, error)),
    };
    all_skipped(knows_mirrors(part.head.version), at + 1, behind)?;
    let script = whole_of(before, part)?;
    Ok((script, runs))
}

fn read(alloc: Global, text: &[u8]) -> Result<(Script, Runs), ScriptError>
    ensures exact { Answers result (replay_of text.now) }
    ensures long { 67108864 < length text.now → result ≡ Err errors.TooLong }
    ensures part { 1048576 < size_of_lines (before_schedule (lines_in text.now)) → result ≡ Err errors.TooLong }
    ensures none { length text.now ≤ 67108864 → size_of_lines (before_schedule (lines_in text.now)) ≤ 1048576 → from_schedule (lines_in text.now) ≡ [] → result ≡ Err errors.NoSchedule }
{
    if text.len() > MOST_OF_INPUT {
        return Err(ScriptError::TooLong);
    }
    let (before, rest) = at_schedule(text);
    if before.len() > MOST_OF_SCRIPT {
        return Err(ScriptError::TooLong);
    }
    scheduled(alloc, before, rest)
}

/// The script and the schedule that the text spells. The script is what stands before the first line
/// whose first word is `schedule`; that line has the runs, each `C*N`, or `C` for `C*1`; behind it only
/// lines that are skipped may stand. The runs take their room once.
///
/// Any other text is refused by one cause: the whole or the script's part is too long; else no line
/// begins a schedule; else the lines' causes in their order, and those of all lines together, as for a
/// script.
pub fn read_replay(alloc: Global, text: &[u8]) -> Result<(Script, Runs), ScriptError>
    // What is read is what the text spells.
    ensures read { IfOk result (λ found. SpellsReplay text.now found.0 found.1) }
    // Every spelling of a script and a schedule is read as these, unless memory runs out.
    ensures again { (script : ScriptView) (runs : List ClientRun) → SpellsReplay text.now script runs → MatchResult result (λ found. (found.0 ≡ script) × (found.1 ≡ runs)) (λ error. error ≡ errors.NoMemory) }
    // The answer is the script and the schedule of the text or the cause for which it is none, unless memory runs out.
    ensures exact { Answers result (replay_of text.now) }
    // These are told whatever memory there is: a text or a script in it that is too long, and else that no line begins a schedule.
    ensures long { 67108864 < length text.now → result ≡ Err errors.TooLong }
    ensures part { 1048576 < size_of_lines (before_schedule (lines_in text.now)) → result ≡ Err errors.TooLong }
    ensures none { length text.now ≤ 67108864 → size_of_lines (before_schedule (lines_in text.now)) ≤ 1048576 → from_schedule (lines_in text.now) ≡ [] → result ≡ Err errors.NoSchedule }
{
    read(alloc, text)
}
