ghost use Rattle.std.specs.Prelude.{◌≡◌, ◌^◌, ◌<◌, ◌≤◌};
ghost use Rattle.std.specs.Option.{ForSome};
ghost use Rattle.call_steps.specs.Pieces.{IsNamed, object_of};
ghost use Rattle.flr_base.specs.Limits.{most_bytes};
ghost use Rattle.resync_copy.specs.Chunks.{chunk_start};
ghost use Rattle.resync_copy.specs.MergeFitting.{HasObjects, IsComparing, IsPair, IsSoundMerge};
ghost use Rattle.resync_copy.specs.Merges.{are_holes, byte_at, compares, first_difference, has_no_source, is_solid, next_pair, our_piece, our_source, pair_at, pairs_from, range_of, starts_pair, starts_theirs, their_piece, their_source, theirs_from};

use crate::chunks::{CHUNK, NO_CALL, Spot, chunks_below, is_hole, is_solid, spot_of};
use crate::merge_phase::{MergeStage, Pair};
use crate::merging::{faults, merge_done};
use flr_base::{Octets, Range, Reply};

/// Whether both files have a hole at this chunk.
fn are_holes(pair: &Pair, chunk: u64) -> bool
    requires below { chunk < 2 ^ 24 }
    ensures { result ≡ are_holes pair.now chunk }
{
    let comparing = &pair.comparing;
    is_hole(comparing.our_layout(), &pair.our_failed, chunk)
        && is_hole(comparing.their_layout(), &pair.their_failed, chunk)
}

/// The first chunk from this one on of which one file at least has bytes.
fn next_pair(pair: &Pair) -> Option<u64>
    requires below { pair.now.size ≤ most_bytes }
    ensures next { result ≡ next_pair pair.now }
    ensures begins { ForSome result (λ chunk. chunk_start chunk < pair.now.size) }
{
    for chunk in pair.number..chunks_below(pair.size) {
        if !are_holes(pair, chunk) {
            return Some(chunk);
        }
    }
    None
}

/// The pair of chunks with this number.
fn pair_at(pair: Pair, number: u64) -> Pair
    ensures { result ≡ pair_at pair number }
{
    let mut pair = pair;
    pair.number = number;
    pair
}

/// Whether who answers our chunk's first byte has objects.
fn our_solid(pair: &Pair) -> Option<bool>
    requires below { pair.now.number < 2 ^ 24 }
    ensures { result ≡ is_solid (our_source pair.now) }
{
    is_solid(pair.comparing.our_layout(), &pair.our_failed, pair.number)
}

/// Whether who answers their chunk's first byte has objects.
fn their_solid(pair: &Pair) -> Option<bool>
    requires below { pair.now.number < 2 ^ 24 }
    ensures { result ≡ is_solid (their_source pair.now) }
{
    is_solid(
        pair.comparing.their_layout(),
        &pair.their_failed,
        pair.number,
    )
}

/// Nobody answers any more: done is next, for the last call that failed.
fn has_no_source(pair: Pair) -> MergeStage
    ensures next { result ≡ has_no_source pair }
{
    faults(pair.comparing, pair.last.unwrap_or(NO_CALL))
}

/// Our take is next, or their take where we have a hole.
fn starts_pair(pair: Pair) -> MergeStage
    requires below { pair.number < 2 ^ 24 }
    ensures next { result ≡ starts_pair pair (is_solid (our_source pair)) (is_solid (their_source pair)) }
{
    match our_solid(&pair) {
        Some(true) => MergeStage::TakeOurs { pair },
        Some(false) => starts_theirs(pair),
        None => has_no_source(pair),
    }
}

/// Their take is next.
fn starts_theirs(pair: Pair) -> MergeStage
    requires below { pair.number < 2 ^ 24 }
    ensures next { result ≡ starts_theirs pair (is_solid (their_source pair)) }
{
    match their_solid(&pair) {
        Some(_) => MergeStage::TakeTheirs { pair, ours: None },
        None => has_no_source(pair),
    }
}

/// What comes next from this chunk on.
pub(crate) fn pairs_from(pair: Pair) -> MergeStage
    requires below { pair.size ≤ most_bytes }
    ensures next { result ≡ pairs_from pair }
    ensures sound { IsComparing pair.comparing → IsSoundMerge result }
{
    match next_pair(&pair) {
        Some(number) => starts_pair(pair_at(pair, number)),
        None => merge_done(pair.comparing, None),
    }
}

/// The bytes of the files that a chunk has.
pub(crate) fn range_of(pair: &Pair) -> Range
    requires below { pair.now.number < 2 ^ 24 }
    ensures { result ≡ range_of pair.now }
{
    let start = pair.number * CHUNK;
    Range {
        start,
        end: (start + CHUNK).min(pair.size),
    }
}

/// Where our chunk is taken from.
pub(crate) fn our_spot(pair: &Pair) -> Spot
    requires sound { IsPair pair.now }
    requires source { HasObjects (our_source pair.now) }
    ensures component { (our_piece pair.now).component ≡ result.component }
    ensures object { object_of (our_piece pair.now) ≡ result.object }
    ensures offset { (our_piece pair.now).offset ≡ result.offset }
    ensures range { (our_piece pair.now).range ≡ range_of pair.now }
    ensures named { IsNamed pair.now.comparing.ours.layout.components result.object }
{
    spot_of(pair.comparing.our_layout(), &pair.our_failed, pair.number)
}

/// Where their chunk is taken from.
pub(crate) fn their_spot(pair: &Pair) -> Spot
    requires sound { IsPair pair.now }
    requires source { HasObjects (their_source pair.now) }
    ensures component { (their_piece pair.now).component ≡ result.component }
    ensures object { object_of (their_piece pair.now) ≡ result.object }
    ensures offset { (their_piece pair.now).offset ≡ result.offset }
    ensures range { (their_piece pair.now).range ≡ range_of pair.now }
    ensures named { IsNamed pair.now.comparing.theirs.layout.components result.object }
{
    spot_of(
        pair.comparing.their_layout(),
        &pair.their_failed,
        pair.number,
    )
}

/// The byte at this place of a chunk; a hole has zeros.
fn byte_at(bytes: &Option<Octets>, place: usize) -> u8
    ensures { result ≡ byte_at bytes.now place }
{
    match bytes {
        Some(bytes) => bytes.as_slice().get(place).copied().unwrap_or(0),
        None => 0,
    }
}

/// The first of so many places at which two chunks differ.
fn first_difference(length: usize, ours: &Option<Octets>, theirs: &Option<Octets>) -> Option<usize>
    ensures first { result ≡ first_difference length ours.now theirs.now }
    ensures within { ForSome result (λ place. place < length) }
{
    for place in 0..length {
        if byte_at(ours, place) != byte_at(theirs, place) {
            return Some(place);
        }
    }
    None
}

/// With the bytes of both: done at the first difference, else the next chunk.
pub(crate) fn compares(pair: Pair, ours: Option<Octets>, theirs: Option<Octets>) -> MergeStage
    requires sound { IsPair pair }
    ensures next { result ≡ compares pair ours theirs }
    ensures sound { IsSoundMerge result }
{
    let range = range_of(&pair);
    match first_difference((range.end - range.start) as usize, &ours, &theirs) {
        Some(place) => {
            let refusal = Reply::DifferAt {
                offset: range.start + place as u64,
                ours: byte_at(&ours, place),
                theirs: byte_at(&theirs, place),
            };
            merge_done(pair.comparing, Some(refusal))
        }
        None => {
            let number = pair.number + 1;
            pairs_from(pair_at(pair, number))
        }
    }
}

/// With our bytes in hand: their take, or where they have a hole the bytes are compared.
pub(crate) fn theirs_from(pair: Pair, ours: Option<Octets>) -> MergeStage
    requires sound { IsPair pair }
    ensures next { result ≡ theirs_from pair ours }
    ensures sound { IsSoundMerge result }
{
    match their_solid(&pair) {
        Some(true) => MergeStage::TakeTheirs { pair, ours },
        Some(false) => compares(pair, ours, None),
        None => has_no_source(pair),
    }
}
