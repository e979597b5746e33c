//! The words of a layout's lines, each after a space.

ghost use Rattle.flr_base.specs.Puts.{Puts};
ghost use Rattle.std.specs.Prelude.{◌≡◌, ◌++◌, ◌∷◌, [], ◌||◌, IfOk, codes};
ghost use Rattle.std.specs.Fmt.{decimal};
ghost use Rattle.text_words.specs.Items.{object_text};
ghost use Rattle.text_words.specs.Lists.{list_text};
ghost use Rattle.text_words.specs.Sizes.{end_text};
ghost use Rattle.layout_text.specs.Appending.{text_behind, flag_part};
ghost use Rattle.layout_text.specs.Texts.{state_word, flags_word};

use composite_layout::{Flags, State};
use flr_base::{NoMemory, ObjectId, Range, Stripe};
use text_words::{put_end, put_list, put_number, put_word};

/// Appends a key and its number.
#[tactic(auto, using(flr_base::proofs::Puts::puts, crate::proofs::PrintLaws::behind))]
pub(crate) fn put_field(out: &mut Vec<u8>, key: &[u8], number: u64) -> Result<(), NoMemory>
    ensures { Puts out.old.items out.new.items result (text_behind (key.now ∷ decimal number ∷ [])) }
{
    put_word(out, key)?;
    put_number(out, number)
}

/// The word of a state.
fn state_word(state: State) -> &'static [u8]
    ensures { result.now ≡ state_word state }
{
    match state {
        State::Single => b"0",
        State::ReadOnly => b"ro",
        State::WritePending => b"wp",
        State::SyncPending => b"sp",
    }
}

/// Appends `state` and the word of the state.
#[tactic(auto, using(flr_base::proofs::Puts::puts, crate::proofs::PrintLaws::behind))]
pub(crate) fn put_state(out: &mut Vec<u8>, state: State) -> Result<(), NoMemory>
    ensures { Puts out.old.items out.new.items result (text_behind (codes "state" ∷ state_word state ∷ [])) }
{
    put_word(out, b"state")?;
    put_word(out, state_word(state))
}

/// Appends the name of a flag where it is set, with a comma before it where a name stands before it.
/// Answers whether a name stands there now.
#[tactic(auto, using(flr_base::proofs::Puts::puts, crate::proofs::PrintLaws::behind))]
fn put_flag(out: &mut Vec<u8>, begun: bool, name: &[u8], set: bool) -> Result<bool, NoMemory>
    ensures begun { IfOk result (λ now. now ≡ (begun || set)) }
    ensures appended { Puts out.old.items out.new.items result (flag_part begun set name.now) }
{
    if !set {
        return Ok(begun);
    }
    if begun {
        out.push(b',')?;
    }
    out.extend_from_slice(name)?;
    Ok(true)
}

/// Appends the names of the set flags, and `0` where none is set.
#[tactic(auto, using(flr_base::proofs::Puts::puts, crate::proofs::PrintLaws::behind))]
fn put_flag_names(out: &mut Vec<u8>, flags: Flags) -> Result<(), NoMemory>
    ensures { Puts out.old.items out.new.items result (flags_word flags) }
{
    let begun = put_flag(out, false, b"init", flags.init)?;
    let begun = put_flag(out, begun, b"stale", flags.stale)?;
    let begun = put_flag(out, begun, b"prefer", flags.prefer)?;
    let begun = put_flag(out, begun, b"offline", flags.offline)?;
    let begun = put_flag(out, begun, b"nosync", flags.nosync)?;
    if !begun {
        out.push(b'0')?;
    }
    Ok(())
}

/// Appends `flags` and the names of the set flags.
#[tactic(auto, using(flr_base::proofs::Puts::puts, crate::proofs::PrintLaws::behind))]
pub(crate) fn put_flags(out: &mut Vec<u8>, flags: Flags) -> Result<(), NoMemory>
    ensures { Puts out.old.items out.new.items result (text_behind (codes "flags" ∷ flags_word flags ∷ [])) }
{
    put_word(out, b"flags")?;
    out.push(b' ')?;
    put_flag_names(out, flags)
}

/// Appends `extent`, where the component begins and where it ends.
#[tactic(auto, using(flr_base::proofs::Puts::puts, crate::proofs::PrintLaws::behind))]
pub(crate) fn put_extent(out: &mut Vec<u8>, extent: Range) -> Result<(), NoMemory>
    ensures { Puts out.old.items out.new.items result (text_behind (codes "extent" ∷ decimal extent.start ∷ end_text (codes "EOF") extent.end ∷ [])) }
{
    put_field(out, b"extent", extent.start)?;
    out.push(b' ')?;
    put_end(out, extent.end)
}

/// Appends the size and the count of the stripes.
#[tactic(auto, using(flr_base::proofs::Puts::puts, crate::proofs::PrintLaws::behind))]
pub(crate) fn put_stripe(out: &mut Vec<u8>, stripe: Stripe) -> Result<(), NoMemory>
    ensures { Puts out.old.items out.new.items result (text_behind (codes "size" ∷ decimal stripe.size ∷ codes "count" ∷ decimal stripe.count ∷ [])) }
{
    put_field(out, b"size", stripe.size)?;
    put_field(out, b"count", u64::from(stripe.count))
}

/// Appends `objects` and the objects, one for each stripe.
#[tactic(auto, using(flr_base::proofs::Puts::puts, crate::proofs::PrintLaws::behind))]
pub(crate) fn put_objects(out: &mut Vec<u8>, objects: &[ObjectId]) -> Result<(), NoMemory>
    ensures { Puts out.old.items out.new.items result (text_behind (codes "objects" ∷ list_text object_text objects.now ∷ [])) }
{
    put_word(out, b"objects")?;
    out.push(b' ')?;
    put_list(out, objects)
}
