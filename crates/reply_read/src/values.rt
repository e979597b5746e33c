//! Single words of an answer.

ghost use Rattle.std.specs.Prelude.{◌≡◌, ◌≤◌, IfOk, IfSome};
ghost use Rattle.text_words.specs.Numbers.{number_from};
ghost use Rattle.script_values.specs.RunWords.{bytes_from};
ghost use Rattle.reply_read.specs.Values.{number_16, number_32, number_64, client_in, name_in, call_in, object_in, ids_in, lefts_in, calls_in, end_in, bytes_in, from_parts, from_in};

use crate::loops::{are_calls, are_left, ascend, components};
use flr_base::{
    Calls, EOF, FailedCall, Ids, Left, Lefts, Name, NoMemory, ObjectId, Octets, RunsError,
    TakeFrom, read_runs,
};
use std::alloc::Global;
use text_words::{Item, cut, is_name_to, list, number_in, number_to};

/// How many bytes an answer may have.
const MOST_BYTES: u64 = 4294967295;

/// The number of at most 16 bits that the word spells.
#[tactic(auto, unfolding(crate::specs::Values::number_16))]
pub(crate) fn number_16(word: &[u8]) -> Option<u16>
    ensures { result ≡ number_16 word.now }
{
    let value = number_to(word, u64::from(u16::MAX))?;
    Some(value as u16)
}

/// The number of at most 32 bits that the word spells.
#[tactic(auto, unfolding(crate::specs::Values::number_32))]
pub(crate) fn number_32(word: &[u8]) -> Option<u32>
    ensures { result ≡ number_32 word.now }
{
    let value = number_to(word, u64::from(u32::MAX))?;
    Some(value as u32)
}

/// The number of at most 64 bits that the word spells.
#[tactic(auto, unfolding(crate::specs::Values::number_64))]
pub(crate) fn number_64(word: &[u8]) -> Option<u64>
    ensures { result ≡ number_64 word.now }
{
    number_to(word, u64::MAX)
}

/// The client that the word spells.
#[tactic(auto, unfolding(crate::specs::Values::client_in))]
pub(crate) fn client_in(word: &[u8]) -> Option<u8>
    ensures { result ≡ client_in word.now }
{
    let value = number_in(word, 1, 16)?;
    Some(value as u8)
}

/// The name that the word is, of at most so many bytes.
#[tactic(auto, unfolding(crate::specs::Values::name_in))]
pub(crate) fn name_in(alloc: Global, word: &[u8], most: u32) -> Result<Option<Name>, NoMemory>
    ensures { IfOk result (λ found. found ≡ name_in most word.now) }
{
    if !is_name_to(word, most) {
        return Ok(None);
    }
    Ok(Some(Name::from_vec(Vec::from_slice(alloc, word)?)))
}

/// The failed call of one of 64 targets that the word spells.
#[tactic(auto, unfolding(crate::specs::Values::call_in))]
pub(crate) fn call_in(word: &[u8]) -> Option<FailedCall>
    ensures { result ≡ call_in word.now }
{
    let call = FailedCall::read(word)?;
    if call.target < 64 { Some(call) } else { None }
}

/// The object of one of 64 targets that the word spells.
#[tactic(auto, unfolding(crate::specs::Values::object_in))]
fn object_in(word: &[u8]) -> Option<ObjectId>
    ensures { result ≡ object_in word.now }
{
    let object = ObjectId::read(word)?;
    if object.target < 64 {
        Some(object)
    } else {
        None
    }
}

/// The ids that the word spells, each above the one before.
#[tactic(auto, unfolding(crate::specs::Values::ids_in))]
pub(crate) fn ids_in(alloc: Global, word: &[u8]) -> Result<Option<Ids>, NoMemory>
    ensures { IfOk result (λ found. found ≡ ids_in word.now) }
{
    let Some(ids) = list::<u32>(alloc, word)? else {
        return Ok(None);
    };
    if !ascend(&ids) {
        return Ok(None);
    }
    Ok(Some(Ids::from_vec(ids)))
}

/// The components that were left that the word spells, each above the one before.
#[tactic(auto, unfolding(crate::specs::Values::lefts_in))]
pub(crate) fn lefts_in(alloc: Global, word: &[u8]) -> Result<Option<Lefts>, NoMemory>
    ensures { IfOk result (λ found. found ≡ lefts_in word.now) }
{
    let Some(lefts) = list::<Left>(alloc, word)? else {
        return Ok(None);
    };
    let ids = components(alloc, &lefts)?;
    if !ascend(&ids) {
        return Ok(None);
    }
    if !are_left(&lefts) {
        return Ok(None);
    }
    Ok(Some(Lefts::from_vec(lefts)))
}

/// The failed calls of 64 targets that the word spells.
#[tactic(auto, unfolding(crate::specs::Values::calls_in))]
pub(crate) fn calls_in(alloc: Global, word: &[u8]) -> Result<Option<Calls>, NoMemory>
    ensures { IfOk result (λ found. found ≡ calls_in word.now) }
{
    let Some(calls) = list::<FailedCall>(alloc, word)? else {
        return Ok(None);
    };
    if !are_calls(&calls) {
        return Ok(None);
    }
    Ok(Some(Calls::from_vec(calls)))
}

/// The end that the word spells: a number of bytes, or `EOF`.
#[tactic(auto, unfolding(crate::specs::Values::end_in))]
pub(crate) fn end_in(word: &[u8]) -> Option<u64>
    ensures { result ≡ end_in word.now }
{
    if word == b"EOF".as_slice() {
        Some(EOF)
    } else {
        number_to(word, EOF - 1)
    }
}

/// The bytes that the word spells by runs, fewer than 2^32.
pub(crate) fn bytes_in(alloc: Global, word: &[u8]) -> Result<Option<Octets>, NoMemory>
    ensures { IfOk result (λ found. found ≡ bytes_in word.now) }
{
    match read_runs(alloc, word, MOST_BYTES) {
        Ok(bytes) => Ok(Some(bytes)),
        Err(RunsError::NoMemory) => Err(NoMemory),
        Err(RunsError::Bad { .. }) => Ok(None),
        Err(RunsError::TooLong) => Ok(None),
    }
}

#[tactic(auto, unfolding(crate::specs::Values::from_parts))]
fn from_parts(word: &[u8]) -> Option<TakeFrom>
    ensures { result ≡ from_parts word.now }
{
    let (object, call) = cut(word, b'@')?;
    let object = object_in(object)?;
    let call = number_32(call)?;
    Some(TakeFrom::Object { object, call })
}

/// Where the bytes of a piece came from, as the word says.
#[tactic(auto, unfolding(crate::specs::Values::from_in))]
pub(crate) fn from_in(word: &[u8]) -> Option<TakeFrom>
    ensures { result ≡ from_in word.now }
{
    if word == b"hole".as_slice() {
        Some(TakeFrom::Hole)
    } else {
        from_parts(word)
    }
}
