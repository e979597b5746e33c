//! The copies of a file's blocks.

ghost use Rattle.std.specs.Prelude.{◌≡◌, ◌<◌, ◌≤◌, ◌^◌, ◌++◌, [], length, IfOk, OnOk};
ghost use Rattle.composite_layout.specs.Layouts.{IsShaped};
ghost use Rattle.std.specs.List.{AllByRecursion};
ghost use Rattle.flr_base.specs.Stripes.{IsStripe};
ghost use Rattle.flr_base.specs.Limits.{most_bytes};
ghost use Rattle.mirror_select.specs.Candidates.{is_candidate};
ghost use Rattle.mirror_verify.specs.Blocks.{block, block_count, copies_in, copies_of, copy_of, holders};

use crate::copies::{BlockCopies, BlockCopy};
use composite_layout::{Component, Layout};
use flr_base::{NoMemory, Range};
use mirror_select::Piece;
use std::alloc::Global;
use stripe_map::place;

/// The bytes of a block.
const BLOCK: u64 = 65536;

/// The copies of all blocks of a file of this size, in bytes.
pub(crate) fn copies_of(alloc: Global, layout: &Layout, size: u64) -> Result<BlockCopies, NoMemory>
    requires small { size ≤ most_bytes }
    ensures { IfOk result (λ copies. copies ≡ copies_of layout.now.components size) }
{
    let components = layout.components();
    let mut copies = Vec::new(alloc);
    for index in 0..block_count(size) {
        push_copies(&mut copies, components, block(size, index))?;
    }
    Ok(BlockCopies::from_vec(copies))
}

/// How many blocks a file of this size has.
fn block_count(size: u64) -> u64
    requires small { size ≤ most_bytes }
    ensures { result ≡ block_count size }
{
    (size + 65535) / BLOCK
}

/// The bytes of a block of a file of this size.
fn block(size: u64, index: u64) -> Range
    requires there { index < block_count size }
    requires small { size ≤ most_bytes }
    ensures { result ≡ block size index }
{
    let start = index * BLOCK;
    Range {
        start,
        end: (start + BLOCK).min(size),
    }
}

/// Appends the copies of a block, if it has two at least.
fn push_copies(
    copies: &mut Vec<BlockCopy>,
    components: &[Component],
    range: Range,
) -> Result<(), NoMemory>
    requires shaped { AllByRecursion IsShaped components.now }
    requires below { range.start < 2 ^ 40 }
    ensures { OnOk result (copies.new.items ≡ copies.old.items ++ copies_in components.now range) }
{
    if count_holders(components, range) < 2 {
        return Ok(());
    }
    let mut against = None;
    for component in components {
        if holds(component, range) {
            copies.push(copy_of(component, range, against))?;
            if against.is_none() {
                against = Some(component.id);
            }
        }
    }
    Ok(())
}

/// How many components have the block and may answer reads.
fn count_holders(components: &[Component], range: Range) -> usize
    ensures { result ≡ length (holders range components.now) }
{
    components
        .iter()
        .filter(|component| holds(component, range))
        .count()
}

/// Whether the component has the block and may answer reads: it is fresh and isn't `offline`.
fn holds(component: &Component, range: Range) -> bool
    ensures { result ≡ is_candidate [] range.start component.now }
{
    component.extent.start <= range.start
        && range.start < component.extent.end
        && !component.flags.stale
        && !component.flags.offline
}

/// The component's copy of a block.
fn copy_of(component: &Component, range: Range, against: Option<u32>) -> BlockCopy
    requires striped { IsStripe component.now.stripe }
    requires below { range.start < 2 ^ 40 }
    ensures { result ≡ copy_of against range component.now }
{
    let place = place(range.start, component.stripe);
    let objects = component.objects.as_slice();
    BlockCopy {
        piece: Piece {
            range,
            component: component.id,
            object: objects.get(place.index as usize).copied(),
            offset: place.offset,
        },
        against,
    }
}
