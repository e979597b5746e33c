//! The line of a call.

ghost use Rattle.std.specs.Prelude.{◌≡◌, ◌↔◌, IfOk, Some};
ghost use Rattle.layout_text.specs.LineWords.{slices};
ghost use Rattle.call_read.specs.Heads.{IsHead, command_behind, head_from, head_line, head_of};
ghost use Rattle.call_read.specs.declared.head.Head.{Head};

use crate::front::{before_equals, places};
use flr_base::NoMemory;
use reply_read::{Answer, read_answer};
use script_values::{Command, read_command};
use std::alloc::Global;
use text_words::parts;

/// How many mirrors a file may have as far as a report tells.
const MOST: u8 = 32;

/// Whose call it is, and where it stands in the run: the client, the number of its command from 1, and
/// the places of its first step, its point and its last step.
#[derive(Clone, Copy, Debug, PartialEq, Eq)]
pub struct Places {
    pub client: u8,
    pub number: u32,
    pub first: u32,
    pub at: u32,
    pub last: u32,
}

/// What the line of a call says.
#[derive(Debug, Drop)]
pub struct Head {
    pub places: Places,
    pub command: Command,
    pub answer: Answer,
}

/// The command whose printed form stands behind a space.
fn command_behind(alloc: Global, text: &[u8]) -> Result<Option<Command>, NoMemory>
    ensures { IfOk result (λ found. found ≡ command_behind text.now) }
{
    match text {
        [] => Ok(None),
        [_, text @ ..] => read_command(alloc, text, MOST),
    }
}

/// The head of a call with these places, whose command and answer the words are.
fn head_from(alloc: Global, places: Places, words: &[&[u8]]) -> Result<Option<Head>, NoMemory>
    ensures { IfOk result (λ found. found ≡ head_from places (slices words.now)) }
{
    let Some((text, rest)) = before_equals(alloc, words)? else {
        return Ok(None);
    };
    let Some(command) = command_behind(alloc, &text)? else {
        return Ok(None);
    };
    let Some(answer) = read_answer(alloc, rest)? else {
        return Ok(None);
    };
    Ok(Some(Head {
        places,
        command,
        answer,
    }))
}

#[tactic(auto, unfolding(crate::specs::Heads::head_of))]
fn head_of(alloc: Global, line: &[u8]) -> Result<Option<Head>, NoMemory>
    ensures { IfOk result (λ found. found ≡ head_of line.now) }
{
    let words = parts(alloc, line, b' ')?;
    let Some((places, rest)) = places(&words) else {
        return Ok(None);
    };
    head_from(alloc, places, rest)
}

/// What the line of a call says: `call C.K from F at A to L COMMAND = REPLY`. There is none where the
/// line isn't one of a report.
pub fn read_head(alloc: Global, line: &[u8]) -> Result<Option<Head>, NoMemory>
    ensures value { IfOk result (λ found. found ≡ head_of line.now) }
    ensures spelled { IfOk result (λ found. (head : Head) → ((found ≡ Some head) ↔ (IsHead head × (line.now ≡ head_line head)))) }
{
    head_of(alloc, line)
}
