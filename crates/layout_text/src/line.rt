ghost use Rattle.std.specs.Prelude.{◌≡◌, MatchOption, None, Some, IfOk, codes};
ghost use Rattle.layout_text.specs.LineWords.{slices, field, flags_of, front_of, counts_of, head_of_words, ids_of, extent_of, stripe_of, shape_of, objects_of, component_of, line_of};

use crate::words::{
    behind, end_value, field_32, flags, number_field, objects, state_field, value_32,
};
use composite_layout::{Component, Flags, State};
use flr_base::{NoMemory, Objects, Range, Stripe};
use std::alloc::Global;
use text_words::parts;

/// What the head line says.
#[derive(Clone, Copy, Debug, PartialEq, Eq)]
pub(crate) struct Head {
    pub generation: u32,
    pub state: State,
    pub next_mirror: u32,
    pub next_counter: u32,
    /// How many components there are.
    pub count: u32,
}

/// What a line says.
#[derive(Debug, Drop)]
pub(crate) enum Line {
    Head(Head),
    Component(Component),
}

/// The generation and the state, and the words behind them.
fn front<'w, 'a>(words: &'w [&'a [u8]]) -> Option<((u32, State), &'w [&'a [u8]])>
    ensures { MatchOption result (front_of (slices words.now) ≡ None) (λ found. front_of (slices words.now) ≡ Some (found.0, slices found.1.now)) }
{
    let (generation, rest) = field_32(words, b"generation")?;
    let (state, rest) = state_field(rest)?;
    Some(((generation, state), rest))
}

/// The next mirror, the next number and how many components there are, and the words behind them.
fn counts<'w, 'a>(words: &'w [&'a [u8]]) -> Option<((u32, u32, u32), &'w [&'a [u8]])>
    ensures { MatchOption result (counts_of (slices words.now) ≡ None) (λ found. counts_of (slices words.now) ≡ Some (found.0, slices found.1.now)) }
{
    let (next_mirror, rest) = field_32(words, b"next")?;
    let (next_counter, rest) = value_32(rest)?;
    let (count, rest) = field_32(rest, b"components")?;
    Some(((next_mirror, next_counter, count), rest))
}

/// The head line that the words are.
#[tactic(auto, unfolding(crate::specs::LineWords::head_of_words))]
fn read_head(words: &[&[u8]]) -> Option<Head>
    ensures { result ≡ head_of_words (slices words.now) }
{
    let rest = behind(words, b"layout")?;
    let ((generation, state), rest) = front(rest)?;
    let ((next_mirror, next_counter, count), rest) = counts(rest)?;
    if !rest.is_empty() {
        return None;
    }
    Some(Head {
        generation,
        state,
        next_mirror,
        next_counter,
        count,
    })
}

/// The id and the mirror, and the words behind them.
fn ids<'w, 'a>(words: &'w [&'a [u8]]) -> Option<((u32, u16), &'w [&'a [u8]])>
    ensures { MatchOption result (ids_of (slices words.now) ≡ None) (λ found. ids_of (slices words.now) ≡ Some (found.0, slices found.1.now)) }
{
    let (id, rest) = field_32(words, b"component")?;
    let (mirror, rest) = number_field(rest, b"mirror", u64::from(u16::MAX))?;
    Some(((id, mirror as u16), rest))
}

/// The extent, and the words behind it.
fn extent<'w, 'a>(words: &'w [&'a [u8]]) -> Option<(Range, &'w [&'a [u8]])>
    ensures { MatchOption result (extent_of (slices words.now) ≡ None) (λ found. extent_of (slices words.now) ≡ Some (found.0, slices found.1.now)) }
{
    let (start, rest) = number_field(words, b"extent", u64::MAX)?;
    let (end, rest) = end_value(rest)?;
    Some((Range { start, end }, rest))
}

/// The stripes, and the words behind them.
fn stripe<'w, 'a>(words: &'w [&'a [u8]]) -> Option<(Stripe, &'w [&'a [u8]])>
    ensures { MatchOption result (stripe_of (slices words.now) ≡ None) (λ found. stripe_of (slices words.now) ≡ Some (found.0, slices found.1.now)) }
{
    let (size, rest) = number_field(words, b"size", u64::MAX)?;
    let (count, rest) = field_32(rest, b"count")?;
    Some((Stripe { size, count }, rest))
}

/// The extent and the stripes, and the words behind them.
fn shape<'w, 'a>(words: &'w [&'a [u8]]) -> Option<((Range, Stripe), &'w [&'a [u8]])>
    ensures { MatchOption result (shape_of (slices words.now) ≡ None) (λ found. shape_of (slices words.now) ≡ Some (found.0, slices found.1.now)) }
{
    let (extent, rest) = extent(words)?;
    let (stripe, rest) = stripe(rest)?;
    Some(((extent, stripe), rest))
}

/// The flags behind their key, and the words behind them.
fn flags_field<'w, 'a>(
    alloc: Global,
    words: &'w [&'a [u8]],
) -> Result<Option<(Flags, &'w [&'a [u8]])>, NoMemory>
    ensures { IfOk result (λ found. MatchOption found (field (codes "flags") flags_of (slices words.now) ≡ None) (λ pair. field (codes "flags") flags_of (slices words.now) ≡ Some (pair.0, slices pair.1.now))) }
{
    let Some([first, rest @ ..]) = behind(words, b"flags") else {
        return Ok(None);
    };
    let Some(flags) = flags(alloc, first)? else {
        return Ok(None);
    };
    Ok(Some((flags, rest)))
}

/// The objects behind their key, the last of the words.
fn last_objects(alloc: Global, words: &[&[u8]]) -> Result<Option<Objects>, NoMemory>
    ensures { IfOk result (λ found. found ≡ objects_of (slices words.now)) }
{
    let Some([first, rest @ ..]) = behind(words, b"objects") else {
        return Ok(None);
    };
    let Some(objects) = objects(alloc, first)? else {
        return Ok(None);
    };
    if !rest.is_empty() {
        return Ok(None);
    }
    Ok(Some(objects))
}

/// The component that the words are.
#[tactic(auto, unfolding(crate::specs::LineWords::component_of))]
fn read_component(alloc: Global, words: &[&[u8]]) -> Result<Option<Component>, NoMemory>
    ensures { IfOk result (λ found. found ≡ component_of (slices words.now)) }
{
    let Some(((id, mirror), rest)) = ids(words) else {
        return Ok(None);
    };
    let Some((flags, rest)) = flags_field(alloc, rest)? else {
        return Ok(None);
    };
    let Some(((extent, stripe), rest)) = shape(rest) else {
        return Ok(None);
    };
    let Some(objects) = last_objects(alloc, rest)? else {
        return Ok(None);
    };
    Ok(Some(Component {
        id,
        mirror,
        flags,
        extent,
        stripe,
        objects,
    }))
}

/// What the line says.
pub(crate) fn read_line(alloc: Global, text: &[u8]) -> Result<Option<Line>, NoMemory>
    ensures { IfOk result (λ found. found ≡ line_of (Some text.now)) }
{
    let words = parts(alloc, text, b' ')?;
    if let Some(head) = read_head(&words) {
        return Ok(Some(Line::Head(head)));
    }
    match read_component(alloc, &words)? {
        Some(component) => Ok(Some(Line::Component(component))),
        None => Ok(None),
    }
}
