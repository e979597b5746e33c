ghost use Rattle.std.specs.Prelude.{◌≡◌, ◌<◌, ◌≤◌, length};
ghost use Rattle.composite_layout.specs.Layouts.{IsValid};
ghost use Rattle.flr_base.specs.Limits.{most_bytes};
ghost use Rattle.resync_copy.specs.Comparing.{comparing_of, has_fences};
ghost use Rattle.resync_copy.specs.Fitting.{IsSoundAt, IsSoundPhase};
ghost use Rattle.resync_copy.specs.MergeFitting.{IsComparing, IsSoundMerge};
ghost use Rattle.resync_copy.specs.Merges.{faults, merge_done, merge_fences_from, merge_settled};
ghost use Rattle.resync_copy.specs.Steps.{at_of};
ghost use Rattle.resync_copy.specs.declared.phase.CopyAt.TheVariants as at;
ghost use Rattle.std.specs.Option.{ForSome};

use crate::comparing::Comparing;
use crate::lists::has_compared;
use crate::merge_phase::{MergeStage, Pair};
use crate::pairs::pairs_from;
use crate::phase::Phase;
use flr_base::{FailedCall, Ids, Reply};
use meta_server::Side;
use std::alloc::Global;

/// What a merge does next that has just begun: it lists what it has to fence, or settles where there
/// is nothing to fence.
pub(crate) fn compared(alloc: Global, ours: Side, theirs: Side) -> Phase
    ensures next { at_of result ≡ at.Merge (merge_fences_from (comparing_of ours theirs) 0) }
    ensures sound { IsComparing (comparing_of ours theirs) → IsSoundAt (at_of result) × IsSoundPhase result }
{
    if has_fences(&ours, &theirs) {
        Phase::Compared { ours, theirs }
    } else {
        let comparing = Comparing::unfenced(alloc, ours, theirs);
        Phase::Merge(MergeStage::Settle { comparing })
    }
}

/// Whether there is an object to fence.
fn has_fences(ours: &Side, theirs: &Side) -> bool
    ensures { result ≡ has_fences (comparing_of ours.now theirs.now) }
{
    has_compared(&ours.layout) || has_compared(&theirs.layout)
}

/// With the fences up to this one made: this one, or behind the last settle.
pub(crate) fn merge_fences_from(comparing: Comparing, next: usize) -> MergeStage
    ensures next { result ≡ merge_fences_from comparing next }
    ensures sound { IsComparing comparing → IsSoundMerge result }
{
    if next < comparing.fences().len() {
        MergeStage::Fence { comparing, next }
    } else {
        MergeStage::Settle { comparing }
    }
}

/// Done is next, with this refusal kept, or none.
pub(crate) fn merge_done(comparing: Comparing, refusal: Option<Reply>) -> MergeStage
    ensures next { result ≡ merge_done comparing refusal }
{
    let (ours, theirs) = comparing.into_keys();
    MergeStage::Done {
        ours,
        theirs,
        refusal,
    }
}

/// Done is next, for this call that failed.
pub(crate) fn faults(comparing: Comparing, call: FailedCall) -> MergeStage
    ensures next { result ≡ faults comparing call }
{
    merge_done(comparing, Some(Reply::CopyFault(call)))
}

/// What comes next once the sizes are settled: the first chunk; or done, where they differ or a file
/// is gone.
pub(crate) fn merge_settled(
    alloc: Global,
    comparing: Comparing,
    ours: Option<u64>,
    theirs: Option<u64>,
) -> MergeStage
    requires small { ForSome ours (λ size. size ≤ most_bytes) }
    ensures next { result ≡ merge_settled comparing ours theirs }
    ensures sound { IsComparing comparing → IsSoundMerge result }
{
    let (Some(ours), Some(theirs)) = (ours, theirs) else {
        return merge_done(comparing, None);
    };
    if ours != theirs {
        return merge_done(comparing, Some(Reply::Sizes { ours, theirs }));
    }
    pairs_from(Pair {
        comparing,
        size: ours,
        number: 0,
        our_failed: Ids::new(alloc),
        their_failed: Ids::new(alloc),
        last: None,
    })
}
