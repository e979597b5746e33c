ghost use Rattle.std.specs.Prelude.{◌≡◌, ◌<◌, ◌^◌, None, All, IfOk, OnOk, IfErr};
ghost use Rattle.flr_base.specs.Stripes.{IsStripe};
ghost use Rattle.mirror_select.specs.Candidates.{all_offline, chosen, is_candidate};
ghost use Rattle.mirror_select.specs.Pieces.{Lacks, first_without, piece_at, pieces_by, pieces_of};
ghost use Rattle.mirror_select.specs.Walking.{AreValid, IsFirstPiece, nearest, piece_end, takes_over};

use crate::choosing::{are_all_offline, comes_first, is_usable, least};
use crate::types::{Piece, PieceError, Pieces};
use composite_layout::{Component, Layout};
use flr_base::{Ids, Range};
use std::alloc::Global;
use stripe_map::place;

/// The pieces of a read of these bytes, where these components have failed: two neighbouring bytes
/// are in one piece exactly where the same component answers both and they lie in one of its stripe
/// units. Where a byte has no component left, the lowest one is named.
///
/// It costs as many steps as there are pieces, for each component of the layout. Where memory runs
/// out, the bytes behind are looked at all the same: a byte without a component is named then too.
pub fn pieces(
    alloc: Global,
    layout: &Layout,
    range: Range,
    failed: &Ids,
) -> Result<Pieces, PieceError>
    requires below { range.end < 2 ^ 40 }
    ensures pieces { IfOk result (λ pieces. pieces ≡ pieces_of layout.now.components range failed.now) }
    ensures answered { OnOk result (first_without layout.now.components range.start range.end failed.now ≡ None) }
    ensures refused { IfErr result (Lacks layout.now.components range failed.now) }
{
    pieces_in(alloc, layout.components(), range, failed.as_slice())
}

/// The pieces of a read of these bytes from the components of a layout.
pub(crate) fn pieces_in(
    alloc: Global,
    components: &[Component],
    range: Range,
    failed: &[u32],
) -> Result<Pieces, PieceError>
    requires valid { AreValid components.now }
    requires below { range.end < 2 ^ 40 }
    ensures pieces { IfOk result (λ pieces. pieces ≡ pieces_of components.now range failed.now) }
    ensures answered { OnOk result (first_without components.now range.start range.end failed.now ≡ None) }
    ensures refused { IfErr result (Lacks components.now range failed.now) }
{
    let mut pieces = Pieces::new(alloc);
    let mut at = range.start;
    while at < range.end {
        let left = Range {
            start: at,
            end: range.end,
        };
        let piece = first_piece(components, left, failed)?;
        at = piece.range.end;
        let Ok(()) = pieces.push(piece) else {
            let behind = Range {
                start: at,
                end: range.end,
            };
            return Err(refusal_behind(components, behind, failed));
        };
    }
    Ok(pieces)
}

/// Why there are no pieces where memory ran out before these bytes: one of them has no component
/// left, or it is for want of memory.
fn refusal_behind(components: &[Component], behind: Range, failed: &[u32]) -> PieceError
    requires valid { AreValid components.now }
    requires below { behind.end < 2 ^ 40 }
    ensures { Lacks components.now behind failed.now result }
{
    let mut at = behind.start;
    while at < behind.end {
        let left = Range {
            start: at,
            end: behind.end,
        };
        match first_piece(components, left, failed) {
            Ok(piece) => at = piece.range.end,
            Err(refusal) => return refusal,
        }
    }
    PieceError::NoMemory
}

/// The first piece of a range that has a byte.
fn first_piece(components: &[Component], left: Range, failed: &[u32]) -> Result<Piece, PieceError>
    requires valid { AreValid components.now }
    requires some { left.start < left.end }
    requires below { left.end < 2 ^ 40 }
    ensures first { IfOk result (IsFirstPiece components.now failed.now left) }
    ensures refused { IfErr result (Lacks components.now left failed.now) }
{
    let byte = left.start;
    match least(components, byte, failed) {
        Some(index) => Ok(piece_from(components, &components[index], left, failed)),
        None if are_all_offline(components, byte) => Err(PieceError::AllOffline { byte }),
        None => Err(PieceError::AllFailed { byte }),
    }
}

/// The piece that begins the range, where the component answers its first byte.
fn piece_from(components: &[Component], component: &Component, left: Range, failed: &[u32]) -> Piece
    requires some { left.start < left.end }
    requires below { left.end < 2 ^ 40 }
    requires striped { IsStripe component.now.stripe }
    ensures { result ≡ piece_at component.now left.start (piece_end components.now failed.now component.now left) }
{
    let place = place(left.start, component.stripe);
    let objects = component.objects.as_slice();
    Piece {
        range: Range {
            start: left.start,
            end: piece_end(components, component, left, failed),
        },
        component: component.id,
        object: objects.get(place.index as usize).copied(),
        offset: place.offset,
    }
}

/// Where the piece that begins the range ends: with the range, with the stripe unit or the
/// component, or where another component takes over.
fn piece_end(components: &[Component], component: &Component, left: Range, failed: &[u32]) -> u64
    requires below { left.start < 2 ^ 40 }
    requires striped { IsStripe component.now.stripe }
    ensures { result ≡ piece_end components.now failed.now component.now left }
{
    let unit_end = (left.start / component.stripe.size + 1) * component.stripe.size;
    unit_end
        .min(component.extent.end)
        .min(nearest(components, component, left, failed))
}

/// The first byte behind the range's first one at which another component takes over, or the end of
/// the range where none does before it.
fn nearest(components: &[Component], component: &Component, left: Range, failed: &[u32]) -> u64
    ensures { result ≡ nearest failed.now component.now left.start left.end components.now }
{
    let mut near = left.end;
    for other in components {
        if takes_over(component, left.start, other, failed) {
            near = near.min(other.extent.start);
        }
    }
    near
}

/// Whether the other component begins behind this byte and then answers in the component's place.
fn takes_over(component: &Component, byte: u64, other: &Component, failed: &[u32]) -> bool
    ensures { result ≡ takes_over failed.now component.now byte other.now }
{
    byte < other.extent.start && is_usable(other, failed) && !comes_first(component, other)
}
