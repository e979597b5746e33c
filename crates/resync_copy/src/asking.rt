//! What a caller may ask before a step.

ghost use Rattle.std.specs.Prelude.{◌≡◌, ◌↔◌, IsTrue, List};
ghost use Rattle.extent_lock.specs.declared.lock.Lock.{Lock};
ghost use Rattle.object_target.specs.TargetState.{TargetState};
ghost use Rattle.meta_server.specs.Conditions.{HasGenerationRoom, MayMerge};
ghost use Rattle.call_steps.specs.Servers.{servers, AreThere, HoldsNone};
ghost use Rattle.resync_copy.specs.Copies.{copy_by};
ghost use Rattle.resync_copy.specs.Fitting.{FitsAt, IsSoundPhase, MayBegin, StageFits};
ghost use Rattle.resync_copy.specs.MergeFitting.{MayEnd, MergeFits};
ghost use Rattle.resync_copy.specs.Sizes.{IsSmall};
ghost use Rattle.resync_copy.specs.Steps.{at_of};
ghost use Rattle.resync_copy.specs.declared.phase.CopyAt.TheVariants as at;

use crate::comparing::Comparing;
use crate::copying::Copying;
use crate::merge_phase::MergeStage;
use crate::phase::{Asked, CopyStage, Phase};
use call_steps::{are_there, holds_none};
use extent_lock::ExtentLocks;
use flr_base::Reply;
use layout_lease::LeaseKey;
use meta_server::{Meta, Side};
use object_target::Targets;

/// The greatest size of a file, in bytes.
const MOST_BYTES: u64 = 268435456;

impl Asked {
    /// Whether the servers are as this phase wants them.
    pub(crate) fn fits(
        &self,
        phase: &Phase,
        meta: &Meta,
        targets: &Targets,
        locks: &ExtentLocks,
    ) -> bool
        requires sound { IsSoundPhase phase.now }
        ensures says { IsTrue result ↔ FitsAt (at_of phase.now) (copy_by self.now (at_of phase.now)) (servers meta.now targets.now locks.now) }
    {
        match phase {
            Phase::Begin => self.may_begin(meta, locks),
            Phase::Begun { side, ids: _ } => are_there(targets, &side.layout),
            Phase::Copy(stage) => self.stage_fits(stage, meta, targets, locks),
            Phase::Compared { ours, theirs } => are_both_there(ours, theirs, targets),
            Phase::Merge(stage) => self.merge_fits(stage, meta, targets, locks),
        }
    }

    /// Whether the copy may begin.
    fn may_begin(&self, meta: &Meta, locks: &ExtentLocks) -> bool
        ensures { (targets : List TargetState) → IsTrue result ↔ MayBegin (copy_by self.now at.Begin) (servers meta.now targets locks.now) }
    {
        holds_none(self.client, locks)
            && !meta.has_key(self.client)
            && meta.has_key_room()
            && meta.has_generation_room()
            && meta.has_object_room()
    }

    /// Whether the servers are as this stage of a copy wants them.
    fn stage_fits(
        &self,
        stage: &CopyStage,
        meta: &Meta,
        targets: &Targets,
        locks: &ExtentLocks,
    ) -> bool
        ensures { IsTrue result ↔ StageFits stage.now (copy_by self.now (at.Copy stage.now)) (servers meta.now targets.now locks.now) }
    {
        match stage {
            CopyStage::Fence { copying, next: _ } => is_copy_there(copying, targets),
            CopyStage::Reset { copying, next: _ } => is_copy_there(copying, targets),
            CopyStage::Settle { copying } => self.may_settle(copying, meta, locks),
            CopyStage::Take { chunk } => is_copy_there(&chunk.copying, targets),
            CopyStage::Put { chunk, bytes: _ } => is_copy_there(&chunk.copying, targets),
            CopyStage::Done {
                key: _,
                cleared: _,
                left: _,
            } => meta.has_generation_room(),
        }
    }

    /// Whether the copy may settle.
    fn may_settle(&self, copying: &Copying, meta: &Meta, locks: &ExtentLocks) -> bool
        ensures { IsTrue result ↔ (HoldsNone self.now.client locks.now × IsSmall copying.now.side.file meta.now) }
    {
        holds_none(self.client, locks) && is_small(copying.file(), meta)
    }

    /// Whether the servers are as this stage of a merge wants them.
    fn merge_fits(
        &self,
        stage: &MergeStage,
        meta: &Meta,
        targets: &Targets,
        locks: &ExtentLocks,
    ) -> bool
        ensures { IsTrue result ↔ MergeFits stage.now (copy_by self.now (at.Merge stage.now)) (servers meta.now targets.now locks.now) }
    {
        match stage {
            MergeStage::Fence { comparing, next: _ } => is_merge_there(comparing, targets),
            MergeStage::Settle { comparing } => self.may_settle_both(comparing, meta, locks),
            MergeStage::TakeOurs { pair } => is_ours_there(&pair.comparing, targets),
            MergeStage::TakeTheirs { pair, ours: _ } => is_theirs_there(&pair.comparing, targets),
            MergeStage::Done {
                ours,
                theirs,
                refusal,
            } => may_end(ours, theirs, refusal, meta),
        }
    }

    /// Whether the merge may settle.
    fn may_settle_both(&self, comparing: &Comparing, meta: &Meta, locks: &ExtentLocks) -> bool
        ensures { IsTrue result ↔ (HoldsNone self.now.client locks.now × IsSmall comparing.now.ours.file meta.now) }
    {
        holds_none(self.client, locks) && is_small(comparing.our_file(), meta)
    }
}

/// Whether each object of both files is on a target that is there.
fn are_both_there(ours: &Side, theirs: &Side, targets: &Targets) -> bool
    ensures { IsTrue result ↔ (AreThere targets.now ours.now.layout.components × AreThere targets.now theirs.now.layout.components) }
{
    are_there(targets, &ours.layout) && are_there(targets, &theirs.layout)
}

/// Whether each object of the file is on a target that is there.
fn is_copy_there(copying: &Copying, targets: &Targets) -> bool
    ensures { IsTrue result ↔ AreThere targets.now copying.now.side.layout.components }
{
    are_there(targets, copying.layout())
}

/// Whether each object of our file is on a target that is there.
fn is_ours_there(comparing: &Comparing, targets: &Targets) -> bool
    ensures { IsTrue result ↔ AreThere targets.now comparing.now.ours.layout.components }
{
    are_there(targets, comparing.our_layout())
}

/// Whether each object of their file is on a target that is there.
fn is_theirs_there(comparing: &Comparing, targets: &Targets) -> bool
    ensures { IsTrue result ↔ AreThere targets.now comparing.now.theirs.layout.components }
{
    are_there(targets, comparing.their_layout())
}

/// Whether each object of both files is on a target that is there.
fn is_merge_there(comparing: &Comparing, targets: &Targets) -> bool
    ensures { IsTrue result ↔ (AreThere targets.now comparing.now.ours.layout.components × AreThere targets.now comparing.now.theirs.layout.components) }
{
    is_ours_there(comparing, targets) && is_theirs_there(comparing, targets)
}

/// Whether a merge may end with these keys and this refusal.
fn may_end(ours: &LeaseKey, theirs: &LeaseKey, refusal: &Option<Reply>, meta: &Meta) -> bool
    ensures { (targets : List TargetState) (locks : List Lock) → IsTrue result ↔ MayEnd ours.now theirs.now refusal.now (servers meta.now targets locks) }
{
    match refusal {
        Some(_) => true,
        None => may_take_in(ours, theirs, meta),
    }
}

/// Whether the file of the second key may be taken in.
fn may_take_in(ours: &LeaseKey, theirs: &LeaseKey, meta: &Meta) -> bool
    ensures { IsTrue result ↔ (MayMerge ours.now theirs.now meta.now × HasGenerationRoom meta.now) }
{
    meta.may_merge(ours, theirs) && meta.has_generation_room()
}

/// Whether the file with this number, if it is there, isn't too big.
fn is_small(file: u32, meta: &Meta) -> bool
    ensures { IsTrue result ↔ IsSmall file meta.now }
{
    match meta.size_of(file) {
        Some(size) => size <= MOST_BYTES,
        None => true,
    }
}
