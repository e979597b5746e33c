//! The words of a call's line.

ghost use Rattle.std.specs.Prelude.{◌≡◌, MatchOption, None, Some, IfOk, codes};
ghost use Rattle.text_words.specs.Numbers.{number_from};
ghost use Rattle.layout_text.specs.LineWords.{slices, behind, field};
ghost use Rattle.call_read.specs.Heads.{cut_words, name_in, name_of, points_of, places_of};

use crate::head::Places;
use flr_base::NoMemory;
use std::alloc::Global;
use text_words::{cut, number_in, put_word};

/// The words behind the key, where it is the first of them.
fn behind<'w, 'a>(words: &'w [&'a [u8]], key: &[u8]) -> Option<&'w [&'a [u8]]>
    ensures { MatchOption result (behind key.now (slices words.now) ≡ None) (λ rest. behind key.now (slices words.now) ≡ Some (slices rest.now)) }
{
    match words {
        [first, rest @ ..] if *first == key => Some(rest),
        _ => None,
    }
}

/// The number behind the key, of at least so much and at most 32 bits, and the words behind it.
fn number_field<'w, 'a>(
    words: &'w [&'a [u8]],
    key: &[u8],
    least: u64,
) -> Option<(u32, &'w [&'a [u8]])>
    ensures { MatchOption result (field key.now (number_from least 4294967295) (slices words.now) ≡ None) (λ found. field key.now (number_from least 4294967295) (slices words.now) ≡ Some (found.0, slices found.1.now)) }
{
    let [first, rest @ ..] = behind(words, key)? else {
        return None;
    };
    let value = number_in(first, least, 4294967295)?;
    Some((value as u32, rest))
}

/// The client and the number of its command, `CLIENT.NUMBER`.
#[tactic(auto, unfolding(crate::specs::Heads::name_in))]
fn name_in(word: &[u8]) -> Option<(u8, u32)>
    ensures { result ≡ name_in word.now }
{
    let (client, number) = cut(word, b'.')?;
    let client = number_in(client, 1, 16)?;
    let number = number_in(number, 1, 4294967295)?;
    Some((client as u8, number as u32))
}

/// Whose call it is, and the words behind it.
fn name_field<'w, 'a>(words: &'w [&'a [u8]]) -> Option<((u8, u32), &'w [&'a [u8]])>
    ensures { MatchOption result (name_of (slices words.now) ≡ None) (λ found. name_of (slices words.now) ≡ Some (found.0, slices found.1.now)) }
{
    let [first, rest @ ..] = behind(words, b"call")? else {
        return None;
    };
    Some((name_in(first)?, rest))
}

/// The places of the first step and of the point, and the words behind them.
fn points<'w, 'a>(words: &'w [&'a [u8]]) -> Option<((u32, u32), &'w [&'a [u8]])>
    ensures { MatchOption result (points_of (slices words.now) ≡ None) (λ found. points_of (slices words.now) ≡ Some (found.0, slices found.1.now)) }
{
    let (first, rest) = number_field(words, b"from", 1)?;
    let (at, rest) = number_field(rest, b"at", 0)?;
    Some(((first, at), rest))
}

/// Whose call it is and its places, and the words behind them.
pub(crate) fn places<'w, 'a>(words: &'w [&'a [u8]]) -> Option<(Places, &'w [&'a [u8]])>
    ensures { MatchOption result (places_of (slices words.now) ≡ None) (λ found. places_of (slices words.now) ≡ Some (found.0, slices found.1.now)) }
{
    let ((client, number), rest) = name_field(words)?;
    let ((first, at), rest) = points(rest)?;
    let (last, rest) = number_field(rest, b"to", 0)?;
    let places = Places {
        client,
        number,
        first,
        at,
        last,
    };
    Some((places, rest))
}

/// The words before the first that is `=`, each after a space, and the words behind that one.
#[tactic(auto, using(crate::proofs::Equals::equals))]
pub(crate) fn before_equals<'w, 'a>(
    alloc: Global,
    words: &'w [&'a [u8]],
) -> Result<Option<(Vec<u8>, &'w [&'a [u8]])>, NoMemory>
    ensures { IfOk result (λ found. MatchOption found (cut_words (slices words.now) ≡ None) (λ pair. cut_words (slices words.now) ≡ Some (pair.0.items, slices pair.1.now))) }
{
    let mut text = Vec::new(alloc);
    let mut left = words;
    while let [first, rest @ ..] = left {
        if *first == b"=".as_slice() {
            return Ok(Some((text, rest)));
        }
        put_word(&mut text, first)?;
        left = rest;
    }
    Ok(None)
}
