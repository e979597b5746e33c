//! The pieces of a write, one by one. They take no memory.

ghost use Rattle.std.specs.Prelude.{◌≡◌, ◌+◌, ◌^◌, ◌<◌, ◌≤◌, ◌∷◌, nat_lt, true, length, Some, option_copied};
ghost use Rattle.flr_base.specs.Stripes.{IsStripe};
ghost use Rattle.composite_layout.specs.Choices.{is_ready};
ghost use Rattle.mirror_select.specs.Pieces.{component_of, piece_at as piece_in, pieces_by, ready_mirror, write_pieces_of};
ghost use Rattle.call_steps.specs.Pieces.{piece_at};
ghost use Rattle.client_write.specs.Cuts.{piece_end};

use composite_layout::{Component, Layout};
use flr_base::Range;
use mirror_select::Piece;
use stripe_map::place;

/// The mirror's component that has this byte.
fn component_of(components: &[Component], mirror: u16, byte: u64) -> Option<&Component>
    ensures { option_copied result ≡ component_of components.now (Some mirror) byte }
{
    components.iter().find(|component| {
        component.mirror == mirror
            && (component.extent.start <= byte && byte < component.extent.end)
    })
}

/// The piece that begins here, in this component.
fn piece_in(component: &Component, start: u64, end: u64) -> Piece
    requires striped { IsStripe component.now.stripe }
    requires below { start < 2 ^ 40 }
    ensures { result ≡ piece_in component.now start (piece_end component.now start end) }
{
    let place = place(start, component.stripe);
    let unit_end = (start / component.stripe.size + 1) * component.stripe.size;
    Piece {
        range: Range {
            start,
            end: unit_end.min(component.extent.end).min(end),
        },
        component: component.id,
        object: component
            .objects
            .as_slice()
            .get(place.index as usize)
            .copied(),
        offset: place.offset,
    }
}

/// The first piece of the bytes from here on, of a range for which the layout is ready.
fn first_piece(layout: &Layout, mirror: u16, range: Range, start: u64) -> Piece
    requires ready { is_ready layout.now range ≡ true }
    requires mirror { ready_mirror layout.now range ≡ Some mirror }
    requires below { range.end < 2 ^ 40 }
    requires from { range.start ≤ start }
    requires some { start < range.end }
    ensures first { pieces_by (component_of layout.now.components (Some mirror)) start range.end ≡ result ∷ pieces_by (component_of layout.now.components (Some mirror)) result.range.end range.end }
    ensures further { start < result.range.end }
    ensures within { result.range.end ≤ range.end }
{
    match component_of(layout.components(), mirror, start) {
        Some(component) => piece_in(component, start, range.end),
        None => unreachable!(),
    }
}

/// The piece at this place, and whether one stands behind it.
pub(crate) fn piece_of(layout: &Layout, mirror: u16, range: Range, place: usize) -> (Piece, bool)
    requires ready { is_ready layout.now range ≡ true }
    requires mirror { ready_mirror layout.now range ≡ Some mirror }
    requires below { range.end < 2 ^ 40 }
    requires there { place < length (write_pieces_of layout.now range) }
    ensures piece { result.0 ≡ piece_at (write_pieces_of layout.now range) place }
    ensures more { result.1 ≡ nat_lt (place + 1) (length (write_pieces_of layout.now range)) }
    ensures few { place < 2 ^ 40 }
{
    let _components = layout.components();
    let mut start = range.start;
    for _passed in 0..place {
        start = first_piece(layout, mirror, range, start).range.end;
    }
    let piece = first_piece(layout, mirror, range, start);
    (piece, piece.range.end < range.end)
}
