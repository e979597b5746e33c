//! The words of a line, taken from the left: each has to be there and to fit its form.

ghost use Rattle.std.specs.Prelude.{◌≡◌, ◌≤◌, ◌<◌, IfOk};
ghost use Rattle.script_text.specs.Answers.{Finds, FindsValue, GivesValue, texts};
ghost use Rattle.script_text.specs.Slots.{name_in, number_in, object_in, byte_in, bytes_in, nothing_in};
ghost use Rattle.script_values.specs.RunWords.{bytes_from};

use crate::error::LineError;
use flr_base::{NoMemory, ObjectId, Octets, RunsError, read_runs};
use lfs_values::Cause;
use std::alloc::Global;
use text_words::{Item, hex_byte, is_name};

/// How many bytes a write may have.
const MOST_BYTES: u64 = 1048576;

/// A name, and the words behind it. The place is that of the word in its line.
pub(crate) fn name_in<'a>(
    words: &'a [&'a [u8]],
    place: u32,
) -> Result<(&'a [u8], &'a [&'a [u8]]), LineError>
    ensures { Finds result (name_in place (texts words.now)) }
{
    match words {
        [] => Err(LineError::Bad(Cause::Missing)),
        [word, behind @ ..] => {
            if is_name(word) {
                Ok((*word, behind))
            } else {
                Err(LineError::Bad(Cause::BadName { place }))
            }
        }
    }
}

/// A number from the least to the most.
pub(crate) fn number_in<'a>(
    words: &'a [&'a [u8]],
    place: u32,
    least: u64,
    most: u64,
) -> Result<(u64, &'a [&'a [u8]]), LineError>
    ensures value { FindsValue result (number_in place least most (texts words.now)) }
    ensures within { IfOk result (λ found. (least ≤ found.0) × (found.0 ≤ most)) }
{
    match words {
        [] => Err(LineError::Bad(Cause::Missing)),
        [word, behind @ ..] => match text_words::number_in(word, least, most) {
            Some(number) => Ok((number, behind)),
            None => Err(LineError::Bad(Cause::BadNumber { place })),
        },
    }
}

/// An object of one of so many targets.
pub(crate) fn object_in<'a>(
    words: &'a [&'a [u8]],
    place: u32,
    targets: u8,
) -> Result<(ObjectId, &'a [&'a [u8]]), LineError>
    ensures { FindsValue result (object_in place targets (texts words.now)) }
{
    match words {
        [] => Err(LineError::Bad(Cause::Missing)),
        [word, behind @ ..] => match ObjectId::read(word) {
            Some(object) if object.target < targets && 0 < object.number => Ok((object, behind)),
            _ => Err(LineError::Bad(Cause::BadNumber { place })),
        },
    }
}

/// A byte as two digits.
pub(crate) fn byte_in<'a>(
    words: &'a [&'a [u8]],
    place: u32,
) -> Result<(u8, &'a [&'a [u8]]), LineError>
    ensures { FindsValue result (byte_in place (texts words.now)) }
{
    match words {
        [] => Err(LineError::Bad(Cause::Missing)),
        [word, behind @ ..] => match hex_byte(word) {
            Some(byte) => Ok((byte, behind)),
            None => Err(LineError::Bad(Cause::BadBytes { place })),
        },
    }
}

/// The bytes of a write, where the word spells them.
fn bytes_of(alloc: Global, word: &[u8]) -> Result<Option<Octets>, NoMemory>
    ensures { IfOk result (λ bytes. bytes ≡ bytes_from 1 1048576 word.now) }
{
    match read_runs(alloc, word, MOST_BYTES) {
        Ok(bytes) => {
            if bytes.is_empty() {
                Ok(None)
            } else {
                Ok(Some(bytes))
            }
        }
        Err(RunsError::NoMemory) => Err(NoMemory),
        Err(RunsError::Bad { .. }) => Ok(None),
        Err(RunsError::TooLong) => Ok(None),
    }
}

/// From 1 to 1048576 bytes by their runs.
pub(crate) fn bytes_in<'a>(
    alloc: Global,
    words: &'a [&'a [u8]],
    place: u32,
) -> Result<(Octets, &'a [&'a [u8]]), LineError>
    ensures { GivesValue result (bytes_in place (texts words.now)) }
{
    match words {
        [] => Err(LineError::Bad(Cause::Missing)),
        [word, behind @ ..] => match bytes_of(alloc, word)? {
            Some(bytes) => Ok((bytes, behind)),
            None => Err(LineError::Bad(Cause::BadBytes { place })),
        },
    }
}

/// No word is left.
pub(crate) fn nothing_in(words: &[&[u8]], place: u32) -> Result<(), LineError>
    ensures { result ≡ nothing_in place (texts words.now) }
{
    match words {
        [] => Ok(()),
        [..] => Err(LineError::Bad(Cause::Extra { place })),
    }
}
