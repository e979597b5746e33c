ghost use Rattle.std.specs.Prelude.{◌≡◌, ◌<◌, ◌^◌, true, IfOk};
ghost use Rattle.composite_layout.specs.Choices.{is_ready};
ghost use Rattle.mirror_select.specs.Pieces.{write_pieces_of};

use crate::reading::pieces_in;
use crate::types::{PieceError, Pieces};
use composite_layout::Layout;
use flr_base::{NoMemory, Range};
use std::alloc::Global;

/// The pieces of a write of these bytes, for which the layout is ready: those of the one mirror that
/// may take it, cut where its components and their stripe units end.
///
/// Over a range that is ready the components of all other mirrors are stale, so these are the
/// pieces of a read that nothing has failed for.
pub fn write_pieces(alloc: Global, layout: &Layout, range: Range) -> Result<Pieces, NoMemory>
    requires ready { is_ready layout.now range ≡ true }
    requires below { range.end < 2 ^ 40 }
    ensures pieces { IfOk result (λ pieces. pieces ≡ write_pieces_of layout.now range) }
{
    match pieces_in(alloc, layout.components(), range, &[]) {
        Ok(pieces) => Ok(pieces),
        Err(PieceError::NoMemory) => Err(NoMemory),
        Err(PieceError::AllOffline { .. }) => unreachable!(),
        Err(PieceError::AllFailed { .. }) => unreachable!(),
    }
}
