ghost use Rattle.std.specs.Prelude.{◌≡◌, ◌+◌, ◌^◌, ◌<◌, ◌≤◌, nat_lt, true, length};
ghost use Rattle.composite_layout.specs.Choices.{is_ready};
ghost use Rattle.mirror_select.specs.Pieces.{write_pieces_of};
ghost use Rattle.flr_base.specs.Limits.{most_bytes};
ghost use Rattle.call_steps.specs.Pieces.{piece_at};

use crate::pieces::piece_of;
use composite_layout::ready_mirror;
use flr_base::Range;
use meta_server::Opened;
use mirror_select::Piece;
use std::marker::Model;

/// What a write has since it opened its file, whose layout is ready for its range, and the mirror that
/// takes it. The range is cut into its pieces one by one: no list of them is kept, so that a step which
/// is blocked takes no memory for one.
#[derive(Drop)]
pub struct Writing {
    opened: Opened,
    range: Range,
    mirror: u16,
}

impl Model for Writing {
    ghost use Rattle.std.specs.Prelude.{◌≡◌, ◌^◌, ◌<◌, true, Some};
    ghost use Rattle.composite_layout.specs.Choices.{is_ready};
    ghost use Rattle.mirror_select.specs.Pieces.{ready_mirror, write_pieces_of};
    ghost use Rattle.client_write.specs.Views.{WritingView};

    ghost Value = { WritingView };

    ghost view = { λ w. record { opened = w.opened; pieces = write_pieces_of w.opened.layout w.range } };

    ghost invariant = { λ w. (is_ready w.opened.layout w.range ≡ true) × (w.range.end < 2 ^ 40)
        × (ready_mirror w.opened.layout w.range ≡ Some w.mirror) };
}

impl Writing {
    ghost use Rattle.client_write.specs.Fitting.{HasPieces};

    /// A write of the range by the layout that its open got.
    pub(crate) fn new(opened: Opened, range: Range) -> Writing
        requires ready { is_ready opened.layout range ≡ true }
        requires below { range.end ≤ most_bytes }
        ensures opened { result.opened ≡ opened }
        ensures pieces { result.pieces ≡ write_pieces_of opened.layout range }
        ensures has { HasPieces range result }
    {
        let Some(mirror) = ready_mirror(opened.layout.components(), range) else {
            unreachable!()
        };
        Writing {
            opened,
            range,
            mirror,
        }
    }

    /// The piece at this place, and whether one stands behind it.
    pub(crate) fn piece(&self, place: usize) -> (Piece, bool)
        requires there { place < length self.now.pieces }
        ensures piece { result.0 ≡ piece_at self.now.pieces place }
        ensures more { result.1 ≡ nat_lt (place + 1) (length self.now.pieces) }
        ensures few { place < 2 ^ 40 }
    {
        piece_of(&self.opened.layout, self.mirror, self.range, place)
    }

    /// What the open gave.
    pub(crate) fn opened(&self) -> &Opened
        ensures same { result.now ≡ self.now.opened }
    {
        &self.opened
    }

    /// What the open gave.
    pub(crate) fn into_opened(self) -> Opened
        ensures same { result ≡ self.opened }
    {
        let Writing {
            opened,
            range: _,
            mirror: _,
        } = self;
        opened
    }
}
