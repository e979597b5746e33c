//! The lines of commands.

ghost use Rattle.std.specs.Prelude.{◌≡◌, ◌<◌, ◌≤◌, IfOk};
ghost use Rattle.script_text.specs.Answers.{Gives, texts};
ghost use Rattle.script_text.specs.CommandLines.{read_line, write_line, truncate_line, evict_line, rot_line, lfs_by, command_by};
ghost use Rattle.lfs_words.specs.Reading.{read_of};

use crate::error::LineError;
use crate::lead::Verb;
use crate::slots::{byte_in, bytes_in, name_in, nothing_in, number_in, object_in};
use flr_base::{Name, NoMemory};
use lfs_words::read_lfs;
use script_values::Command;
use std::alloc::Global;

/// The greatest offset of a read, in bytes.
const MOST_READ: u64 = 268435456;

/// The greatest offset of a write and the greatest size, in bytes.
const MOST_OFFSET: u64 = 1 << 40;

/// How many bytes a read may have.
const MOST_LENGTH: u64 = 1048576;

fn copied(alloc: Global, word: &[u8]) -> Result<Name, NoMemory>
    ensures { IfOk result (λ name. name ≡ word.now) }
{
    Ok(Name::from_vec(Vec::from_slice(alloc, word)?))
}

/// `read NAME OFFSET LENGTH`.
fn read_line(alloc: Global, words: &[&[u8]]) -> Result<Command, LineError>
    ensures { Gives result (read_line (texts words.now)) }
{
    let (name, words) = name_in(words, 2)?;
    let (offset, words) = number_in(words, 3, 0, MOST_READ)?;
    let (length, words) = number_in(words, 4, 1, MOST_LENGTH)?;
    nothing_in(words, 5)?;
    let name = copied(alloc, name)?;
    Ok(Command::Read {
        name,
        offset,
        length: length as u32,
    })
}

/// `write NAME OFFSET RUNS`.
fn write_line(alloc: Global, words: &[&[u8]]) -> Result<Command, LineError>
    ensures { Gives result (write_line (texts words.now)) }
{
    let (name, words) = name_in(words, 2)?;
    let (offset, words) = number_in(words, 3, 0, MOST_OFFSET)?;
    let (bytes, words) = bytes_in(alloc, words, 4)?;
    nothing_in(words, 5)?;
    let name = copied(alloc, name)?;
    Ok(Command::Write {
        name,
        offset,
        bytes,
    })
}

/// `truncate NAME SIZE`.
fn truncate_line(alloc: Global, words: &[&[u8]]) -> Result<Command, LineError>
    ensures { Gives result (truncate_line (texts words.now)) }
{
    let (name, words) = name_in(words, 2)?;
    let (size, words) = number_in(words, 3, 0, MOST_OFFSET)?;
    nothing_in(words, 4)?;
    let name = copied(alloc, name)?;
    Ok(Command::Truncate { name, size })
}

/// `evict C`.
fn evict_line(words: &[&[u8]]) -> Result<Command, LineError>
    ensures { result ≡ evict_line (texts words.now) }
{
    let (client, words) = number_in(words, 2, 0, u64::MAX)?;
    nothing_in(words, 3)?;
    Ok(Command::Evict {
        client: client.min(255) as u8,
    })
}

/// `rot T.N OFFSET HH`.
fn rot_line(words: &[&[u8]], targets: u8) -> Result<Command, LineError>
    ensures { result ≡ rot_line targets (texts words.now) }
{
    let (object, words) = object_in(words, 2, targets)?;
    let (offset, words) = number_in(words, 3, 0, MOST_READ - 1)?;
    let (byte, words) = byte_in(words, 4)?;
    nothing_in(words, 5)?;
    Ok(Command::Rot {
        object,
        offset,
        byte,
    })
}

/// `lfs ..`, by all words of the line.
fn lfs_line(alloc: Global, words: &[&[u8]], most: u8) -> Result<Command, LineError>
    requires { (0 < most) × (most ≤ 32) }
    ensures { Gives result (lfs_by (read_of most (texts words.now))) }
{
    match read_lfs(alloc, words, most) {
        Ok(command) => Ok(Command::Lfs(command)),
        Err(cause) => Err(LineError::Bad(cause)),
    }
}

/// The command of a line of these words, of which the first is that of the command.
pub(crate) fn command_by(
    alloc: Global,
    targets: u8,
    most: u8,
    verb: Verb,
    words: &[&[u8]],
    behind: &[&[u8]],
) -> Result<Command, LineError>
    requires { (0 < most) × (most ≤ 32) }
    ensures { Gives result (command_by targets most verb (texts words.now) (texts behind.now)) }
{
    match verb {
        Verb::Read => read_line(alloc, behind),
        Verb::Write => write_line(alloc, behind),
        Verb::Truncate => truncate_line(alloc, behind),
        Verb::Lfs => lfs_line(alloc, words, most),
        Verb::Evict => evict_line(behind),
        Verb::Rot => rot_line(behind, targets),
    }
}
