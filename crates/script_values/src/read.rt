//! The command that a text is the printed form of.

ghost use Rattle.std.specs.Prelude.{◌≡◌, ◌<◌, ◌≤◌, ◌^◌, ◌↔◌, map, IfOk, IfSome, Some};
ghost use Rattle.script_values.specs.declared.command.Command.{Command};
ghost use Rattle.script_values.specs.Commands.{IsCommandAlone, IsSpellable};
ghost use Rattle.script_values.specs.Reading.{name_of, object_in, read_of, write_of, truncate_of, evict_of, rot_of, three_of, two_of, one_of, plain_of, if_printed, lfs_of, begins_lfs, words_command, command_of};
ghost use Rattle.script_values.specs.RunWords.{bytes_from};
ghost use Rattle.script_values.specs.Texts.{command_text};

use crate::command::Command;
use flr_base::{Name, NoMemory, ObjectId, Octets, RunsError, read_runs};
use lfs_values::Cause;
use lfs_words::{LfsCommand, print_lfs, read_lfs};
use std::alloc::Global;
use text_words::{Item, hex_byte, is_name, number_in, number_to, parts};

/// The greatest offset of a read.
const MOST_OFFSET: u64 = 268435456;

/// The greatest offset of a write, and the greatest size of a truncate.
const MOST_SIZE: u64 = 1 << 40;

/// How many bytes a read or write may have.
const MOST_LENGTH: u64 = 1048576;

/// The bytes that the word spells by runs, where there are so many.
fn bytes_from(
    alloc: Global,
    word: &[u8],
    least: usize,
    most: u64,
) -> Result<Option<Octets>, NoMemory>
    requires { most < 2 ^ 32 }
    ensures { IfOk result (λ found. found ≡ bytes_from least most word.now) }
{
    let bytes = match read_runs(alloc, word, most) {
        Ok(bytes) => bytes,
        Err(RunsError::NoMemory) => return Err(NoMemory),
        Err(RunsError::Bad { .. }) => return Ok(None),
        Err(RunsError::TooLong) => return Ok(None),
    };
    if bytes.len() < least {
        return Ok(None);
    }
    Ok(Some(bytes))
}

/// The name that the word is.
fn name_of(alloc: Global, word: &[u8]) -> Result<Option<Name>, NoMemory>
    ensures { IfOk result (λ found. found ≡ name_of word.now) }
{
    if !is_name(word) {
        return Ok(None);
    }
    Ok(Some(Name::from_vec(Vec::from_slice(alloc, word)?)))
}

/// The object of one of 64 targets that the word spells.
#[tactic(auto, unfolding(crate::specs::Reading::object_in))]
fn object_in(word: &[u8]) -> Option<ObjectId>
    ensures { result ≡ object_in word.now }
{
    let object = ObjectId::read(word)?;
    if object.target < 64 && 1 <= object.number {
        Some(object)
    } else {
        None
    }
}

#[tactic(auto, unfolding(crate::specs::Reading::read_of))]
fn read_of(
    alloc: Global,
    name: &[u8],
    offset: &[u8],
    length: &[u8],
) -> Result<Option<Command>, NoMemory>
    ensures { IfOk result (λ found. found ≡ read_of name.now offset.now length.now) }
{
    let Some(name) = name_of(alloc, name)? else {
        return Ok(None);
    };
    let Some(offset) = number_to(offset, MOST_OFFSET) else {
        return Ok(None);
    };
    let Some(length) = number_in(length, 1, MOST_LENGTH) else {
        return Ok(None);
    };
    Ok(Some(Command::Read {
        name,
        offset,
        length: length as u32,
    }))
}

#[tactic(auto, unfolding(crate::specs::Reading::write_of))]
fn write_of(
    alloc: Global,
    name: &[u8],
    offset: &[u8],
    runs: &[u8],
) -> Result<Option<Command>, NoMemory>
    ensures { IfOk result (λ found. found ≡ write_of name.now offset.now runs.now) }
{
    let Some(name) = name_of(alloc, name)? else {
        return Ok(None);
    };
    let Some(offset) = number_to(offset, MOST_SIZE) else {
        return Ok(None);
    };
    let Some(bytes) = bytes_from(alloc, runs, 1, MOST_LENGTH)? else {
        return Ok(None);
    };
    Ok(Some(Command::Write {
        name,
        offset,
        bytes,
    }))
}

#[tactic(auto, unfolding(crate::specs::Reading::truncate_of))]
fn truncate_of(alloc: Global, name: &[u8], size: &[u8]) -> Result<Option<Command>, NoMemory>
    ensures { IfOk result (λ found. found ≡ truncate_of name.now size.now) }
{
    let Some(name) = name_of(alloc, name)? else {
        return Ok(None);
    };
    let Some(size) = number_to(size, MOST_SIZE) else {
        return Ok(None);
    };
    Ok(Some(Command::Truncate { name, size }))
}

#[tactic(auto, unfolding(crate::specs::Reading::evict_of))]
fn evict_of(client: &[u8]) -> Option<Command>
    ensures { result ≡ evict_of client.now }
{
    let client = number_in(client, 1, 16)?;
    Some(Command::Evict {
        client: client as u8,
    })
}

#[tactic(auto, unfolding(crate::specs::Reading::rot_of))]
fn rot_of(object: &[u8], offset: &[u8], byte: &[u8]) -> Option<Command>
    ensures { result ≡ rot_of object.now offset.now byte.now }
{
    let object = object_in(object)?;
    let offset = number_to(offset, MOST_OFFSET - 1)?;
    let byte = hex_byte(byte)?;
    Some(Command::Rot {
        object,
        offset,
        byte,
    })
}

/// The command of three words behind the first.
fn three_of(
    alloc: Global,
    verb: &[u8],
    a: &[u8],
    b: &[u8],
    c: &[u8],
) -> Result<Option<Command>, NoMemory>
    ensures { IfOk result (λ found. found ≡ three_of verb.now a.now b.now c.now) }
{
    if verb == b"read".as_slice() {
        return read_of(alloc, a, b, c);
    }
    if verb == b"write".as_slice() {
        return write_of(alloc, a, b, c);
    }
    if verb == b"rot".as_slice() {
        return Ok(rot_of(a, b, c));
    }
    Ok(None)
}

fn two_of(alloc: Global, verb: &[u8], a: &[u8], b: &[u8]) -> Result<Option<Command>, NoMemory>
    ensures { IfOk result (λ found. found ≡ two_of verb.now a.now b.now) }
{
    if verb == b"truncate".as_slice() {
        return truncate_of(alloc, a, b);
    }
    Ok(None)
}

fn one_of(verb: &[u8], a: &[u8]) -> Option<Command>
    ensures { result ≡ one_of verb.now a.now }
{
    if verb == b"evict".as_slice() {
        return evict_of(a);
    }
    None
}

/// The command that the words are, where it isn't one of `lfs`.
fn plain_of(alloc: Global, words: &[&[u8]]) -> Result<Option<Command>, NoMemory>
    ensures { IfOk result (λ found. found ≡ plain_of (map (λ word. word.now) words.now)) }
{
    match words {
        [verb, a] => Ok(one_of(verb, a)),
        [verb, a, b] => two_of(alloc, verb, a, b),
        [verb, a, b, c] => three_of(alloc, verb, a, b, c),
        _ => Ok(None),
    }
}

/// The command, where it is printed so.
fn if_printed(alloc: Global, text: &[u8], command: LfsCommand) -> Result<Option<Command>, NoMemory>
    ensures { IfOk result (λ found. found ≡ if_printed text.now (Ok command)) }
{
    let printed = print_lfs(alloc, &command)?;
    if printed.as_slice() == text {
        Ok(Some(Command::Lfs(command)))
    } else {
        Ok(None)
    }
}

/// The command of `lfs` that the words of the text spell, where it is printed so.
fn lfs_of(
    alloc: Global,
    text: &[u8],
    words: &[&[u8]],
    most: u8,
) -> Result<Option<Command>, NoMemory>
    requires { (0 < most) × (most ≤ 32) }
    ensures { IfOk result (λ found. found ≡ lfs_of most text.now (map (λ word. word.now) words.now)) }
{
    match read_lfs(alloc, words, most) {
        Ok(command) => if_printed(alloc, text, command),
        Err(Cause::Memory) => Err(NoMemory),
        Err(_) => Ok(None),
    }
}

fn begins_lfs(words: &[&[u8]]) -> bool
    ensures { result ≡ begins_lfs (map (λ word. word.now) words.now) }
{
    match words {
        [verb, ..] => *verb == b"lfs".as_slice(),
        [] => false,
    }
}

#[tactic(auto, unfolding(crate::specs::Reading::command_of))]
fn read(alloc: Global, text: &[u8], most: u8) -> Result<Option<Command>, NoMemory>
    requires { (0 < most) × (most ≤ 32) }
    ensures { IfOk result (λ found. found ≡ command_of most text.now) }
{
    let words = parts(alloc, text, b' ')?;
    if begins_lfs(&words) {
        lfs_of(alloc, text, &words, most)
    } else {
        plain_of(alloc, &words)
    }
}

/// The command that the text is the printed form of, where files have at most `most` mirrors, and
/// there are at most 64 targets and 16 clients. Other spellings of a command are none.
pub fn read_command(alloc: Global, text: &[u8], most: u8) -> Result<Option<Command>, NoMemory>
    requires { (0 < most) × (most ≤ 32) }
    ensures value { IfOk result (λ found. found ≡ command_of most text.now) }
    ensures spelled { IfOk result (λ found. (command : Command) → ((found ≡ Some command) ↔ (IsCommandAlone most command × (text.now ≡ command_text command)))) }
    ensures good { IfOk result (λ found. IfSome found (λ command. IsCommandAlone most command × IsSpellable command)) }
{
    read(alloc, text, most)
}
