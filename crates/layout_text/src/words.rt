ghost use Rattle.std.specs.Prelude.{◌≡◌, ◌≤◌, MatchOption, None, Some, IfOk, IfSome, codes};
ghost use Rattle.text_words.specs.Items.{object_of};
ghost use Rattle.text_words.specs.Lists.{list_of};
ghost use Rattle.text_words.specs.Numbers.{number_from};
ghost use Rattle.layout_text.specs.LineWords.{state_of, end_of, slices, behind, field, value, after_name, flags_of_names, flags_of, last_of, objects_of, number_32};

use composite_layout::{Flags, State};
use flr_base::{EOF, NoMemory, ObjectId, Objects};
use std::alloc::Global;
use text_words::{list, number_to, parts};

/// The state that the word spells.
#[tactic(auto, unfolding(crate::specs::LineWords::state_of))]
pub(crate) fn state(word: &[u8]) -> Option<State>
    ensures { result ≡ state_of word.now }
{
    match word {
        b"0" => Some(State::Single),
        b"ro" => Some(State::ReadOnly),
        b"wp" => Some(State::WritePending),
        b"sp" => Some(State::SyncPending),
        _ => None,
    }
}

/// The end that the word spells: a number of bytes, or `EOF`.
#[tactic(auto, unfolding(crate::specs::LineWords::end_of))]
pub(crate) fn end(word: &[u8]) -> Option<u64>
    ensures { result ≡ end_of word.now }
{
    if word == b"EOF".as_slice() {
        Some(EOF)
    } else {
        number_to(word, EOF - 1)
    }
}

/// The words behind the key, where it is the first of them.
pub(crate) fn behind<'w, 'a>(words: &'w [&'a [u8]], key: &[u8]) -> Option<&'w [&'a [u8]]>
    ensures { MatchOption result (behind key.now (slices words.now) ≡ None) (λ rest. behind key.now (slices words.now) ≡ Some (slices rest.now)) }
{
    match words {
        [first, rest @ ..] if *first == key => Some(rest),
        _ => None,
    }
}

/// The first word's number of at most so much, and the words behind it.
pub(crate) fn number<'w, 'a>(words: &'w [&'a [u8]], most: u64) -> Option<(u64, &'w [&'a [u8]])>
    ensures value { MatchOption result (value (number_from 0 most) (slices words.now) ≡ None) (λ found. value (number_from 0 most) (slices words.now) ≡ Some (found.0, slices found.1.now)) }
    ensures within { IfSome result (λ found. found.0 ≤ most) }
{
    let [first, rest @ ..] = words else {
        return None;
    };
    Some((number_to(first, most)?, rest))
}

/// The number behind the key, of at most so much, and the words behind it.
pub(crate) fn number_field<'w, 'a>(
    words: &'w [&'a [u8]],
    key: &[u8],
    most: u64,
) -> Option<(u64, &'w [&'a [u8]])>
    ensures value { MatchOption result (field key.now (number_from 0 most) (slices words.now) ≡ None) (λ found. field key.now (number_from 0 most) (slices words.now) ≡ Some (found.0, slices found.1.now)) }
    ensures within { IfSome result (λ found. found.0 ≤ most) }
{
    number(behind(words, key)?, most)
}

/// A number of at most 32 bits behind the key, and the words behind it.
pub(crate) fn field_32<'w, 'a>(words: &'w [&'a [u8]], key: &[u8]) -> Option<(u32, &'w [&'a [u8]])>
    ensures { MatchOption result (field key.now number_32 (slices words.now) ≡ None) (λ found. field key.now number_32 (slices words.now) ≡ Some (found.0, slices found.1.now)) }
{
    let (value, rest) = number_field(words, key, u64::from(u32::MAX))?;
    Some((value as u32, rest))
}

/// The first word's number of at most 32 bits, and the words behind it.
pub(crate) fn value_32<'w, 'a>(words: &'w [&'a [u8]]) -> Option<(u32, &'w [&'a [u8]])>
    ensures { MatchOption result (value number_32 (slices words.now) ≡ None) (λ found. value number_32 (slices words.now) ≡ Some (found.0, slices found.1.now)) }
{
    let (value, rest) = number(words, u64::from(u32::MAX))?;
    Some((value as u32, rest))
}

/// The state behind its key, and the words behind it.
pub(crate) fn state_field<'w, 'a>(words: &'w [&'a [u8]]) -> Option<(State, &'w [&'a [u8]])>
    ensures { MatchOption result (field (codes "state") state_of (slices words.now) ≡ None) (λ found. field (codes "state") state_of (slices words.now) ≡ Some (found.0, slices found.1.now)) }
{
    let [first, rest @ ..] = behind(words, b"state")? else {
        return None;
    };
    Some((state(first)?, rest))
}

/// The end that the first word is, and the words behind it.
pub(crate) fn end_value<'w, 'a>(words: &'w [&'a [u8]]) -> Option<(u64, &'w [&'a [u8]])>
    ensures { MatchOption result (value end_of (slices words.now) ≡ None) (λ found. value end_of (slices words.now) ≡ Some (found.0, slices found.1.now)) }
{
    let [first, rest @ ..] = words else {
        return None;
    };
    Some((end(first)?, rest))
}

/// Whether the first name is this one, and the names without it.
fn after_name<'w, 'a>(names: &'w [&'a [u8]], name: &[u8]) -> (bool, &'w [&'a [u8]])
    ensures { (result.0, slices result.1.now) ≡ after_name name.now (slices names.now) }
{
    match names {
        [first, rest @ ..] if *first == name => (true, rest),
        _ => (false, names),
    }
}

/// The flags that these are the names of, in their order.
#[tactic(auto, unfolding(crate::specs::LineWords::flags_of_names))]
fn flags_of_names(names: &[&[u8]]) -> Option<Flags>
    ensures { result ≡ flags_of_names (slices names.now) }
{
    let (init, rest) = after_name(names, b"init");
    let (stale, rest) = after_name(rest, b"stale");
    let (prefer, rest) = after_name(rest, b"prefer");
    let (offline, rest) = after_name(rest, b"offline");
    let (nosync, rest) = after_name(rest, b"nosync");
    if !rest.is_empty() {
        return None;
    }
    Some(Flags {
        init,
        stale,
        prefer,
        offline,
        nosync,
    })
}

/// The flags that the word spells: their names in their order, joined by commas, or `0` for none.
pub(crate) fn flags(alloc: Global, word: &[u8]) -> Result<Option<Flags>, NoMemory>
    ensures { IfOk result (λ found. found ≡ flags_of word.now) }
{
    if word == b"0".as_slice() {
        return Ok(Some(Flags {
            init: false,
            stale: false,
            prefer: false,
            offline: false,
            nosync: false,
        }));
    }
    let names = parts(alloc, word, b',')?;
    Ok(flags_of_names(&names))
}

/// The objects that the word spells.
pub(crate) fn objects(alloc: Global, word: &[u8]) -> Result<Option<Objects>, NoMemory>
    ensures { IfOk result (λ found. found ≡ list_of object_of word.now) }
{
    match list::<ObjectId>(alloc, word)? {
        Some(objects) => Ok(Some(Objects::from_vec(objects))),
        None => Ok(None),
    }
}
