ghost use Rattle.std.specs.Prelude.{◌≡◌, ◌^◌, ◌<◌, ◌≤◌, ℕ, Contains, is_some, length, true};
ghost use Rattle.std.specs.Option.{ForSome, option_copied};
ghost use Rattle.stripe_map.specs.Places.{place_of};
ghost use Rattle.composite_layout.specs.Layouts.{IsShaped, IsValid};
ghost use Rattle.call_steps.specs.Pieces.{IsNamed, object_of};
ghost use Rattle.flr_base.specs.Limits.{most_bytes};
ghost use Rattle.mirror_select.specs.Candidates.{chosen};
ghost use Rattle.mirror_select.specs.Pieces.{piece_at};
ghost use Rattle.resync_copy.specs.Chunks.{chunk_range, chunk_start, chunks_below, chunks_between, first_solid, is_hole, piece_in};
ghost use Rattle.resync_copy.specs.Copies.{bytes_of, chunks_from, copies_from, end_of, piece_from, piece_to, settled_from};
ghost use Rattle.resync_copy.specs.Merges.{is_solid};
ghost use Rattle.resync_copy.specs.MergeFitting.{HasObjects};
ghost use Rattle.resync_copy.specs.Fitting.{HasSource, IsChunk, IsCopying, IsSoundStage};

use crate::copying::Copying;
use crate::done::{clears, clears_none};
use crate::lists::with_id;
use crate::parts::Destination;
use crate::phase::{Chunk, CopyStage};
use composite_layout::{Component, Layout};
use flr_base::{FailedCall, Ids, ObjectId, Range};
use mirror_select::{Choice, choose};
use std::alloc::Global;
use stripe_map::place;

/// How many bytes a chunk has.
pub(crate) const CHUNK: u64 = 65536;

/// No call: the one for which a destination would be left that nobody can answer and no take of
/// which failed.
pub(crate) const NO_CALL: FailedCall = FailedCall { target: 0, call: 0 };

/// The component that answers a chunk's first byte, without those that failed.
pub(crate) fn source<'a>(layout: &'a Layout, failed: &Ids, chunk: u64) -> Option<&'a Component>
    requires below { chunk < 2 ^ 24 }
    ensures chosen { option_copied result ≡ chosen layout.now.components failed.now (chunk_start chunk) }
{
    match choose(layout, chunk * CHUNK, failed) {
        Choice::Component(place) => Some(layout.component(place)),
        Choice::AllOffline => None,
        Choice::AllFailed => None,
    }
}

/// Whether the chunk is a hole: who answers its first byte has no objects.
pub(crate) fn is_hole(layout: &Layout, failed: &Ids, chunk: u64) -> bool
    requires below { chunk < 2 ^ 24 }
    ensures { result ≡ is_hole layout.now.components failed.now chunk }
{
    match source(layout, failed, chunk) {
        Some(component) => !component.flags.init,
        None => false,
    }
}

/// Whether who answers the chunk's first byte has objects; where nobody answers there is nothing to
/// tell.
pub(crate) fn is_solid(layout: &Layout, failed: &Ids, chunk: u64) -> Option<bool>
    requires below { chunk < 2 ^ 24 }
    ensures { result ≡ is_solid (chosen layout.now.components failed.now (chunk_start chunk)) }
{
    match source(layout, failed, chunk) {
        Some(component) => Some(component.flags.init),
        None => None,
    }
}

/// Whether somebody answers a chunk's first byte.
fn has_source(layout: &Layout, failed: &Ids, chunk: u64) -> bool
    requires below { chunk < 2 ^ 24 }
    ensures { result ≡ is_some (chosen layout.now.components failed.now (chunk_start chunk)) }
{
    match source(layout, failed, chunk) {
        Some(_) => true,
        None => false,
    }
}

/// How many chunks begin below this end.
pub(crate) fn chunks_below(end: u64) -> u64
    requires below { end ≤ most_bytes }
    ensures { result ≡ chunks_below end }
{
    (end + (CHUNK - 1)) / CHUNK
}

/// The first chunk from this one on that begins below the end and isn't a hole.
fn first_solid(layout: &Layout, failed: &Ids, first: u64, end: u64) -> Option<u64>
    requires below { end ≤ most_bytes }
    ensures first { result ≡ first_solid layout.now.components failed.now (chunks_between first end) }
    ensures begins { ForSome result (λ chunk. chunk_start chunk < end) }
{
    for chunk in first..chunks_below(end) {
        if !is_hole(layout, failed, chunk) {
            return Some(chunk);
        }
    }
    None
}

/// Where the bytes end that are copied to a destination: with its extent, or with the file.
fn end_of(size: u64, destination: Destination) -> u64
    ensures { result ≡ end_of size destination }
{
    destination.extent.end.min(size)
}

/// The bytes of the file that a chunk has.
pub(crate) fn bytes_of(chunk: &Chunk) -> Range
    requires place { chunk.now.place < length chunk.now.copying.destinations }
    requires below { chunk.now.number < 2 ^ 24 }
    ensures { result ≡ bytes_of chunk.now }
{
    let start = chunk.number * CHUNK;
    let destination = chunk.copying.destinations()[chunk.place];
    Range {
        start,
        end: (start + CHUNK).min(end_of(chunk.size, destination)),
    }
}

/// Where a component has bytes: its id, the object, and the offset there of their first byte.
#[derive(Clone, Copy)]
pub(crate) struct Spot {
    pub component: u32,
    pub object: ObjectId,
    pub offset: u64,
}

/// Where the component has the bytes from this one on, which lie in one of its objects.
fn spot_in(component: &Component, start: u64) -> Spot
    requires shaped { IsShaped component.now }
    requires init { component.now.flags.init ≡ true }
    requires below { start < 2 ^ 40 }
    ensures component { result.component ≡ component.now.id }
    ensures object { (end : ℕ) → object_of (piece_at component.now start end) ≡ result.object }
    ensures offset { result.offset ≡ (place_of start component.now.stripe).offset }
    ensures named { Contains component.now.objects result.object }
{
    let place = place(start, component.stripe);
    let objects = component.objects.as_slice();
    let Some(object) = objects.get(place.index as usize).copied() else {
        unreachable!()
    };
    Spot {
        component: component.id,
        object,
        offset: place.offset,
    }
}

/// Where a chunk is taken from, without the components that failed.
pub(crate) fn spot_of(layout: &Layout, failed: &Ids, chunk: u64) -> Spot
    requires valid { IsValid layout.now }
    requires below { chunk < 2 ^ 24 }
    requires source { HasObjects (chosen layout.now.components failed.now (chunk_start chunk)) }
    ensures component { (end : ℕ) → (piece_in (chosen layout.now.components failed.now (chunk_start chunk)) (chunk_range chunk end)).component ≡ result.component }
    ensures object { (end : ℕ) → object_of (piece_in (chosen layout.now.components failed.now (chunk_start chunk)) (chunk_range chunk end)) ≡ result.object }
    ensures offset { (end : ℕ) → (piece_in (chosen layout.now.components failed.now (chunk_start chunk)) (chunk_range chunk end)).offset ≡ result.offset }
    ensures range { (end : ℕ) → (piece_in (chosen layout.now.components failed.now (chunk_start chunk)) (chunk_range chunk end)).range ≡ chunk_range chunk end }
    ensures named { IsNamed layout.now.components result.object }
{
    let Some(component) = source(layout, failed, chunk) else {
        unreachable!()
    };
    spot_in(component, chunk * CHUNK)
}

/// Where the chunk is taken from.
pub(crate) fn spot_from(chunk: &Chunk) -> Spot
    requires sound { IsChunk chunk.now }
    requires source { HasSource chunk.now }
    ensures component { result.component ≡ (piece_from chunk.now).component }
    ensures object { result.object ≡ object_of (piece_from chunk.now) }
    ensures offset { result.offset ≡ (piece_from chunk.now).offset }
    ensures range { (piece_from chunk.now).range ≡ bytes_of chunk.now }
    ensures named { IsNamed chunk.now.copying.side.layout.components result.object }
{
    let layout = chunk.copying.layout();
    let Some(component) = source(layout, &chunk.failed, chunk.number) else {
        unreachable!()
    };
    spot_in(component, chunk.number * CHUNK)
}

/// Where the chunk is put.
pub(crate) fn spot_to(chunk: &Chunk) -> Spot
    requires sound { IsChunk chunk.now }
    ensures object { result.object ≡ object_of (piece_to chunk.now) }
    ensures offset { result.offset ≡ (piece_to chunk.now).offset }
    ensures low { result.offset ≤ (bytes_of chunk.now).start }
    ensures named { IsNamed chunk.now.copying.side.layout.components result.object }
{
    let layout = chunk.copying.layout();
    let Some(component) = with_id(layout, chunk.copying.ids()[chunk.place]) else {
        unreachable!()
    };
    spot_in(component, chunk.number * CHUNK)
}

/// What comes next from this chunk of a destination on.
pub(crate) fn chunks_from(alloc: Global, chunk: Chunk) -> CopyStage
    requires place { chunk.place < length chunk.copying.destinations }
    requires below { chunk.size ≤ most_bytes }
    ensures next { result ≡ chunks_from chunk.size chunk.place chunk.failed chunk.last chunk.number chunk.copying }
    ensures sound { IsCopying chunk.copying → IsSoundStage result }
{
    let Chunk {
        mut copying,
        size,
        place,
        number,
        failed,
        last,
    } = chunk;
    let end = end_of(size, copying.destinations()[place]);
    let Some(number) = first_solid(copying.layout(), &failed, number, end) else {
        return copies_from(alloc, copying, size, place + 1);
    };
    if has_source(copying.layout(), &failed, number) {
        let chunk = Chunk {
            copying,
            size,
            place,
            number,
            failed,
            last,
        };
        return CopyStage::Take { chunk };
    }
    copying.leave_at(place, last.unwrap_or(NO_CALL));
    copies_from(alloc, copying, size, place + 1)
}

/// What comes next from the destination at this place on.
pub(crate) fn copies_from(alloc: Global, copying: Copying, size: u64, first: usize) -> CopyStage
    requires below { size ≤ most_bytes }
    ensures next { result ≡ copies_from size first copying }
    ensures sound { IsCopying copying → IsSoundStage result }
{
    let mut copying = copying;
    for place in first..copying.destinations().len() {
        let destination = copying.destinations()[place];
        if destination.left.is_some() {
            continue;
        }
        let failed = Ids::new(alloc);
        let start = destination.extent.start / CHUNK;
        let end = end_of(size, destination);
        let Some(number) = first_solid(copying.layout(), &failed, start, end) else {
            continue;
        };
        if has_source(copying.layout(), &failed, number) {
            let chunk = Chunk {
                copying,
                size,
                place,
                number,
                failed,
                last: None,
            };
            return CopyStage::Take { chunk };
        }
        copying.leave_at(place, NO_CALL);
    }
    clears(copying)
}

/// What comes next once the size is settled: the first chunk; where the file is gone, done with
/// nothing to clear.
pub(crate) fn settled_from(alloc: Global, copying: Copying, size: Option<u64>) -> CopyStage
    requires small { ForSome size (λ size. size ≤ most_bytes) }
    ensures next { result ≡ settled_from copying size }
    ensures sound { IsCopying copying → IsSoundStage result }
{
    match size {
        Some(size) => copies_from(alloc, copying, size, 0),
        None => clears_none(alloc, copying),
    }
}
