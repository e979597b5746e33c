ghost use Rattle.std.specs.Prelude.{◌≡◌};
ghost use Rattle.resync_copy.specs.Copies.{clears, clears_none};

use crate::copying::Copying;
use crate::phase::CopyStage;
use flr_base::Ids;
use std::alloc::Global;

/// Done is next, with the destinations cleared that aren't left.
pub(crate) fn clears(copying: Copying) -> CopyStage
    ensures next { result ≡ clears copying }
{
    let (key, cleared, left) = copying.into_parts();
    CopyStage::Done { key, cleared, left }
}

/// Done is next, with nothing to clear.
pub(crate) fn clears_none(alloc: Global, copying: Copying) -> CopyStage
    ensures next { result ≡ clears_none copying }
{
    let (key, _, left) = copying.into_parts();
    CopyStage::Done {
        key,
        cleared: Ids::new(alloc),
        left,
    }
}
