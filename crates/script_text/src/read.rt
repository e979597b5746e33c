//! Whole scripts.

ghost use Rattle.std.specs.Prelude.{◌≡◌, ◌<◌, ◌≤◌, ◌^◌, ◌-◌, length, IfOk, Ok, Err, MatchResult};
ghost use Rattle.script_text.specs.Answers.{Answers};
ghost use Rattle.script_text.specs.Grammar.{Spells};
ghost use Rattle.script_text.specs.Keeping.{IsGood, IsGoodPart};
ghost use Rattle.script_values.specs.Scripts.{ScriptView};
ghost use Rattle.script_text.specs.TextLines.{lines_in};
ghost use Rattle.script_text.specs.Wholes.{ended, part_of, whole_of, script_of};
ghost use Rattle.script_text.specs.declared.error.ScriptError.TheVariants as errors;

use crate::error::{ScriptError, error_at};
use crate::evictions::evictions_in;
use crate::lines::next_line;
use crate::state::{Body, Head, Part, State};
use crate::step::line_of;
use lfs_values::Cause;
use script_values::Script;
use std::alloc::Global;

/// How many bytes a script may have.
pub(crate) const MOST_OF_SCRIPT: usize = 1048576;

/// What so many lines came to.
#[tactic(auto, using(crate::proofs::Keeps::good_all))]
fn ended(count: u32, state: State) -> Result<Part, ScriptError>
    requires room { count < 2 ^ 32 - 1 }
    requires good { IsGood state }
    ensures part { Answers result (ended count state) }
    ensures good { IfOk result IsGoodPart }
{
    match state {
        State::Commands(body) => {
            let Body {
                head,
                mut done,
                own,
                commands: _,
            } = body;
            done.push(own)?;
            Ok(Part {
                head,
                clients: done,
            })
        }
        _ => Err(ScriptError::Bad {
            line: count + 1,
            cause: Cause::Missing,
        }),
    }
}

/// What the lines of the text come to.
pub(crate) fn part_of(alloc: Global, text: &[u8]) -> Result<Part, ScriptError>
    requires { length text.now < 2 ^ 32 - 1 }
    ensures part { Answers result (part_of (lines_in text.now)) }
    ensures good { IfOk result IsGoodPart }
{
    let mut state = State::Start;
    let mut at = 0;
    let mut rest = text;
    while let Some((line, ended, behind)) = next_line(rest) {
        match line_of(alloc, state, line, ended) {
            Ok(after) => state = after,
            Err(error) => return Err(error_at(at, error)),
        }
        rest = behind;
        at += 1;
    }
    ended(at, state)
}

/// What all lines have to be together.
pub(crate) fn whole_of(text: &[u8], part: Part) -> Result<Script, ScriptError>
    requires short { length text.now < 2 ^ 32 - 1 }
    requires part { part_of (lines_in text.now) ≡ Ok part }
    requires good { IsGoodPart part }
    ensures { result ≡ whole_of (lines_in text.now) part }
{
    let Part { head, clients } = part;
    let Head {
        version: _,
        targets,
        most,
        fails,
    } = head;
    evictions_in(text, clients.len())?;
    match Script::of(most, targets, fails, clients) {
        Ok(script) => Ok(script),
        Err(what) => Err(ScriptError::TooMany { what }),
    }
}

#[tactic(auto, unfolding(crate::specs::Wholes::script_of))]
fn read(alloc: Global, text: &[u8]) -> Result<Script, ScriptError>
    ensures exact { Answers result (script_of text.now) }
    ensures long { 1048576 < length text.now → result ≡ Err errors.TooLong }
{
    if text.len() > MOST_OF_SCRIPT {
        return Err(ScriptError::TooLong);
    }
    let part = part_of(alloc, text)?;
    whole_of(text, part)
}

/// The script that the text spells, of version 1 or 2: the line `flr-script V`, then `targets T`, in
/// version 2 `mirrors M`, lines `fail`, and for each client the line `client C` and those of its
/// commands. Spaces part words, and lines without words and comments, which begin with `#`, are skipped.
///
/// Any other text is refused by one cause: it is too long; else the first line that isn't text, can't
/// stand behind the lines before it or has a word that fits no form is told, with the first such word,
/// unless its number or its first word makes too many of something; else the first eviction of a client
/// that isn't there; else that it has too many bytes, or too much work.
pub fn read_script(alloc: Global, text: &[u8]) -> Result<Script, ScriptError>
    // What is read is what the text spells.
    ensures read { IfOk result (Spells text.now) }
    // Every spelling of a script is read as that script, unless memory runs out.
    ensures again { (script : ScriptView) → Spells text.now script → MatchResult result (λ found. found ≡ script) (λ error. error ≡ errors.NoMemory) }
    // The answer is the script of the text or the cause for which it is none, unless memory runs out.
    ensures exact { Answers result (script_of text.now) }
    // A text that is too long is told so whatever memory there is.
    ensures long { 1048576 < length text.now → result ≡ Err errors.TooLong }
{
    read(alloc, text)
}
