//! Evictions of clients that aren't there.

ghost use Rattle.std.specs.Prelude.{◌≡◌, ◌<◌, ◌^◌, ◌-◌, length};
ghost use Rattle.text_words.specs.Numbers.{number_of};
ghost use Rattle.text_words.specs.Pieces.{words_of};
ghost use Rattle.script_text.specs.TextLines.{lines_in};
ghost use Rattle.script_text.specs.Wholes.{is_nobody, evicts_nobody_by, evictions_in};

use crate::error::ScriptError;
use crate::lines::next_line;
use lfs_values::Cause;
use text_words::{next_word, number};

/// Whether no client of so many has this number.
fn is_nobody(clients: usize, client: Option<u64>) -> bool
    ensures { result ≡ is_nobody clients client }
{
    match client {
        Some(client) => client == 0 || client > clients as u64,
        None => false,
    }
}

/// Whether the line evicts a client that isn't there.
fn evicts_nobody(clients: usize, line: &[u8]) -> bool
    ensures { result ≡ evicts_nobody_by clients (words_of line.now) }
{
    let Some((word, behind)) = next_word(line) else {
        return false;
    };
    let Some((client, _)) = next_word(behind) else {
        return false;
    };
    word == b"evict".as_slice() && is_nobody(clients, number(client))
}

/// Tells the first eviction of a client that isn't there.
pub(crate) fn evictions_in(text: &[u8], clients: usize) -> Result<(), ScriptError>
    requires { length text.now < 2 ^ 32 - 1 }
    ensures { result ≡ evictions_in clients 0 (lines_in text.now) }
{
    let mut at: u32 = 0;
    let mut rest = text;
    while let Some((line, _, behind)) = next_line(rest) {
        if evicts_nobody(clients, line) {
            return Err(ScriptError::Bad {
                line: at + 1,
                cause: Cause::BadNumber { place: 2 },
            });
        }
        rest = behind;
        at += 1;
    }
    Ok(())
}
