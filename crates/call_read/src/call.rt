//! The lines of a call.

ghost use Rattle.std.specs.Prelude.{◌≡◌, ◌++◌, List, ℕ, drop, MatchResult, IfOk};
ghost use Rattle.std.specs.Result.{IfErr};
ghost use Rattle.report_text.specs.declared.report.Call.{Call};
ghost use Rattle.report_text.specs.Texts.{IsWritable, text_of_call};
ghost use Rattle.call_read.specs.Calls.{AreCallLines, IsFront, IsNoMemory, IsReadable, call_at};
ghost use Rattle.call_read.specs.Following.{StopsAt, line_on};

use crate::following::read_following;
use crate::head::{Head, read_head};
use flr_base::Entry;
use layout_text::TextError;
use report_text::Call;
use std::alloc::Global;
use text_words::next_line;

/// The error, told a line further on.
fn line_on(error: TextError) -> TextError
    ensures { result ≡ line_on error }
{
    match error {
        TextError::Bad { line } => TextError::Bad {
            line: line.saturating_add(1),
        },
        TextError::NoMemory => TextError::NoMemory,
    }
}

fn front(alloc: Global, text: &[u8]) -> Result<(Call, &[u8]), TextError>
    ensures { MatchResult result (λ found. IsFront text.now found.0 found.1.now) (StopsAt AreCallLines text.now) }
{
    let Some((line, rest)) = next_line(text) else {
        return Err(TextError::Bad { line: 1 });
    };
    let Some(head) = read_head(alloc, line)? else {
        return Err(TextError::Bad { line: 1 });
    };
    let Head {
        places,
        command,
        answer,
    } = head;
    match read_following(alloc, answer, rest) {
        Ok(told) => {
            let ((reply, takes), behind) = told;
            let entry = Entry {
                client: places.client,
                number: places.number,
                first: places.first,
                at: places.at,
                last: places.last,
                reply,
                takes,
            };
            Ok((Call { entry, command }, behind))
        }
        Err(error) => Err(line_on(error)),
    }
}

/// The call whose lines stand first in the text, as many of them as there are, and how many bytes they
/// are. An error tells the first line, counted from 1, at which no call's lines go on; the count stands
/// still at its last value.
pub fn read_call(alloc: Global, text: &[u8]) -> Result<(Call, usize), TextError>
    // What is read stands first, and nothing that belongs to it stands behind.
    ensures read { IfOk result (λ found. IsFront text.now found.0 (drop found.1 text.now)) }
    // It has a text again.
    ensures writable { IfOk result (λ found. IsWritable found.0) }
    // A refusal names the first line at which no call's lines go on.
    ensures bad { IfErr result (StopsAt AreCallLines text.now) }
    // Where a call's lines stand first, one is read, unless memory runs out.
    ensures again { (call : Call) (rest : List ℕ) → IsReadable call → text.now ≡ text_of_call call.entry call.command ++ rest → MatchResult result (λ found. Unit {0}) IsNoMemory }
{
    match front(alloc, text) {
        Ok(told) => {
            let (call, rest) = told;
            Ok((call, text.len() - rest.len()))
        }
        Err(error) => Err(error),
    }
}
