ghost use Rattle.std.specs.Prelude.{◌≡◌, List, None, Some, option_map};
ghost use Rattle.extent_lock.specs.declared.lock.Lock.{Lock};
ghost use Rattle.object_target.specs.TargetState.{TargetState};
ghost use Rattle.meta_server.specs.Conditions.{HasGenerationRoom, MayMerge};
ghost use Rattle.meta_server.specs.Ending.{merge_ends};
ghost use Rattle.meta_server.specs.Files.{MetaView};
ghost use Rattle.meta_server.specs.Outcomes.{IsTakenIn};
ghost use Rattle.call_steps.specs.Servers.{servers, AreThere, CanCall};
ghost use Rattle.call_steps.specs.Steps.{HasMemory, Steps};
ghost use Rattle.resync_copy.specs.Copies.{copy_by, first_writer};
ghost use Rattle.resync_copy.specs.Fitting.{IsSoundCopy};
ghost use Rattle.resync_copy.specs.MergeFitting.{MergeFits, MergeTakesNoMemory};
ghost use Rattle.resync_copy.specs.Merges.{kept_answer, merge_stage_at};
ghost use Rattle.resync_copy.specs.Sizes.{IsSmall};
ghost use Rattle.resync_copy.specs.declared.merge_phase.MergeStage.TheVariants as merge;
ghost use Rattle.resync_copy.specs.declared.phase.CopyAt.TheVariants as at;

use crate::calls::{fence, read};
use crate::comparing::Comparing;
use crate::copy::CopyCall;
use crate::merge_phase::{MergeStage, Pair};
use crate::merging::{faults, merge_fences_from, merge_settled};
use crate::pairs::{compares, our_spot, pairs_from, range_of, their_spot, theirs_from};
use crate::parts::CopyObject;
use crate::phase::Asked;
use crate::stages::{failed_call, with_failed, zeros};
use extent_lock::ExtentLocks;
use flr_base::{FailedCall, Ids, Octets, Progress, Reply, Takes};
use layout_lease::{KeyState, LeaseKey};
use meta_server::{MergeStop, Meta};
use object_target::{TargetError, Targets};

impl Asked {
    /// Makes the step of this stage of a merge.
    pub(crate) fn merge_stage(
        self,
        stage: MergeStage,
        meta: &mut Meta,
        targets: &mut Targets,
        locks: &ExtentLocks,
    ) -> Progress<CopyCall>
        requires sound { IsSoundCopy (copy_by self (at.Merge stage)) }
        requires calls { CanCall targets.old }
        requires fits { MergeFits stage (copy_by self (at.Merge stage)) (servers meta.old targets.old locks.now) }
        ensures step { Steps (copy_by self (at.Merge stage)) (servers meta.old targets.old locks.now) result (servers meta.new targets.new locks.now) (merge_stage_at stage (copy_by self (at.Merge stage)) (servers meta.old targets.old locks.now)) }
        ensures free { MergeTakesNoMemory stage meta.old → HasMemory result }
    {
        match stage {
            MergeStage::Fence { comparing, next } => self.merge_fence(comparing, next, targets),
            MergeStage::Settle { comparing } => self.merge_settle(comparing, meta, locks),
            MergeStage::TakeOurs { pair } => self.take_ours(pair, targets),
            MergeStage::TakeTheirs { pair, ours } => self.take_theirs(pair, ours, targets),
            MergeStage::Done {
                ours,
                theirs,
                refusal,
            } => match refusal {
                Some(kept) => self.refuse(ours, theirs, kept, meta),
                None => self.take_in(ours, theirs, meta),
            },
        }
    }

    /// Fences an object of one of the files.
    fn merge_fence(
        self,
        comparing: Comparing,
        next: usize,
        targets: &mut Targets,
    ) -> Progress<CopyCall>
        requires sound { IsSoundCopy (copy_by self (at.Merge (merge.Fence comparing next))) }
        requires calls { CanCall targets.old }
        requires there { AreThere targets.old comparing.ours.layout.components }
        requires others { AreThere targets.old comparing.theirs.layout.components }
        ensures step { (meta : MetaView) (locks : List Lock) → Steps (copy_by self (at.Merge (merge.Fence comparing next))) (servers meta targets.old locks) result (servers meta targets.new locks) (merge_stage_at (merge.Fence comparing next) (copy_by self (at.Merge (merge.Fence comparing next))) (servers meta targets.old locks)) }
    {
        let object = comparing.fence_at(next).object;
        let version = comparing.version_at(next);
        match fence(targets, object, version) {
            Ok(()) => Progress::Going(self.merge_call(merge_fences_from(comparing, next + 1))),
            Err(TargetError::Failed { call }) => {
                Progress::Going(self.merge_call(faults(comparing, failed_call(object, call))))
            }
            Err(TargetError::NoMemory) => {
                Progress::NoMemory(self.merge_call(MergeStage::Fence { comparing, next }))
            }
            Err(TargetError::Old { .. }) => unreachable!(),
        }
    }

    /// Waits until nobody else writes to a fenced object, and reads the sizes of both files.
    fn merge_settle(
        self,
        comparing: Comparing,
        meta: &Meta,
        locks: &ExtentLocks,
    ) -> Progress<CopyCall>
        requires sound { IsSoundCopy (copy_by self (at.Merge (merge.Settle comparing))) }
        requires small { IsSmall comparing.ours.file meta.now }
        ensures step { (targets : List TargetState) → Steps (copy_by self (at.Merge (merge.Settle comparing))) (servers meta.now targets locks.now) result (servers meta.now targets locks.now) (merge_stage_at (merge.Settle comparing) (copy_by self (at.Merge (merge.Settle comparing))) (servers meta.now targets locks.now)) }
        ensures free { HasMemory result }
    {
        match writer_of(self.client, comparing.fences(), locks) {
            Some(holder) => Progress::Blocked {
                call: self.merge_call(MergeStage::Settle { comparing }),
                holder,
            },
            None => {
                let ours = meta.size_of(comparing.our_file());
                let theirs = meta.size_of(comparing.their_file());
                let next = merge_settled(self.alloc, comparing, ours, theirs);
                Progress::Going(self.merge_call(next))
            }
        }
    }

    /// Reads a chunk of our file.
    fn take_ours(self, pair: Pair, targets: &mut Targets) -> Progress<CopyCall>
        requires sound { IsSoundCopy (copy_by self (at.Merge (merge.TakeOurs pair))) }
        requires calls { CanCall targets.old }
        requires there { AreThere targets.old pair.comparing.ours.layout.components }
        ensures step { (meta : MetaView) (locks : List Lock) → Steps (copy_by self (at.Merge (merge.TakeOurs pair))) (servers meta targets.old locks) result (servers meta targets.new locks) (merge_stage_at (merge.TakeOurs pair) (copy_by self (at.Merge (merge.TakeOurs pair))) (servers meta targets.old locks)) }
    {
        let range = range_of(&pair);
        let spot = our_spot(&pair);
        let Ok(failed) = with_failed(self.alloc, &pair.our_failed, spot.component) else {
            return Progress::NoMemory(self.merge_call(MergeStage::TakeOurs { pair }));
        };
        let Ok(mut bytes) = zeros(self.alloc, (range.end - range.start) as usize) else {
            return Progress::NoMemory(self.merge_call(MergeStage::TakeOurs { pair }));
        };
        match read(targets, spot.object, spot.offset, &mut bytes) {
            Ok(()) => {
                let ours = Some(Octets::from_vec(bytes));
                let next = theirs_from(pair, ours);
                Progress::Going(self.merge_call(next))
            }
            Err(TargetError::Failed { call }) => {
                let pair = our_again(pair, failed, failed_call(spot.object, call));
                let next = pairs_from(pair);
                Progress::Going(self.merge_call(next))
            }
            Err(TargetError::NoMemory) => {
                Progress::NoMemory(self.merge_call(MergeStage::TakeOurs { pair }))
            }
            Err(TargetError::Old { .. }) => unreachable!(),
        }
    }

    /// Reads a chunk of their file, and compares it with ours.
    fn take_theirs(
        self,
        pair: Pair,
        ours: Option<Octets>,
        targets: &mut Targets,
    ) -> Progress<CopyCall>
        requires sound { IsSoundCopy (copy_by self (at.Merge (merge.TakeTheirs pair ours))) }
        requires calls { CanCall targets.old }
        requires there { AreThere targets.old pair.comparing.theirs.layout.components }
        ensures step { (meta : MetaView) (locks : List Lock) → Steps (copy_by self (at.Merge (merge.TakeTheirs pair ours))) (servers meta targets.old locks) result (servers meta targets.new locks) (merge_stage_at (merge.TakeTheirs pair ours) (copy_by self (at.Merge (merge.TakeTheirs pair ours))) (servers meta targets.old locks)) }
    {
        let range = range_of(&pair);
        let spot = their_spot(&pair);
        let Ok(failed) = with_failed(self.alloc, &pair.their_failed, spot.component) else {
            return Progress::NoMemory(self.merge_call(MergeStage::TakeTheirs { pair, ours }));
        };
        let Ok(mut bytes) = zeros(self.alloc, (range.end - range.start) as usize) else {
            return Progress::NoMemory(self.merge_call(MergeStage::TakeTheirs { pair, ours }));
        };
        match read(targets, spot.object, spot.offset, &mut bytes) {
            Ok(()) => {
                let theirs = Some(Octets::from_vec(bytes));
                let next = compares(pair, ours, theirs);
                Progress::Going(self.merge_call(next))
            }
            Err(TargetError::Failed { call }) => {
                let pair = their_again(pair, failed, failed_call(spot.object, call));
                let next = theirs_from(pair, ours);
                Progress::Going(self.merge_call(next))
            }
            Err(TargetError::NoMemory) => {
                Progress::NoMemory(self.merge_call(MergeStage::TakeTheirs { pair, ours }))
            }
            Err(TargetError::Old { .. }) => unreachable!(),
        }
    }

    /// Takes their file in, and answers.
    fn take_in(self, ours: LeaseKey, theirs: LeaseKey, meta: &mut Meta) -> Progress<CopyCall>
        requires sound { IsSoundCopy (copy_by self (at.Merge (merge.Done ours theirs None))) }
        requires keys { MayMerge ours theirs meta.old }
        requires generations { HasGenerationRoom meta.old }
        ensures step { (targets : List TargetState) (locks : List Lock) → Steps (copy_by self (at.Merge (merge.Done ours theirs None))) (servers meta.old targets locks) result (servers meta.new targets locks) (merge_stage_at (merge.Done ours theirs None) (copy_by self (at.Merge (merge.Done ours theirs None))) (servers meta.old targets locks)) }
        ensures free { ¬ IsTakenIn (merge_ends ours theirs meta.old) → HasMemory result }
    {
        match meta.merge_done(ours, theirs) {
            Ok(ids) => Progress::Answered {
                reply: Reply::Merged(ids),
                takes: Takes::new(self.alloc),
            },
            Err(MergeStop::Broken { step }) => Progress::Answered {
                reply: Reply::Broken(step),
                takes: Takes::new(self.alloc),
            },
            Err(
                MergeStop::Blocked {
                    ours,
                    theirs,
                    holder,
                },
            ) => Progress::Blocked {
                call: self.merge_call(MergeStage::Done {
                    ours,
                    theirs,
                    refusal: None,
                }),
                holder,
            },
            Err(MergeStop::NoMemory { ours, theirs }) => {
                Progress::NoMemory(self.merge_call(MergeStage::Done {
                    ours,
                    theirs,
                    refusal: None,
                }))
            }
        }
    }

    /// Gives up both keys, and answers this refusal, unless a lease is broken.
    fn refuse(
        self,
        ours: LeaseKey,
        theirs: LeaseKey,
        kept: Reply,
        meta: &mut Meta,
    ) -> Progress<CopyCall>
        ensures step { (targets : List TargetState) (locks : List Lock) → Steps (copy_by self (at.Merge (merge.Done ours theirs (Some kept)))) (servers meta.old targets locks) result (servers meta.new targets locks) (merge_stage_at (merge.Done ours theirs (Some kept)) (copy_by self (at.Merge (merge.Done ours theirs (Some kept)))) (servers meta.old targets locks)) }
        ensures free { HasMemory result }
    {
        let our_state = meta.lease(&ours);
        let their_state = meta.lease(&theirs);
        meta.give_up(ours);
        meta.give_up(theirs);
        Progress::Answered {
            reply: kept_answer(kept, our_state, their_state),
            takes: Takes::new(self.alloc),
        }
    }
}

/// What is answered in place of a refusal where a lease is broken, ours before theirs.
fn kept_answer(kept: Reply, ours: KeyState, theirs: KeyState) -> Reply
    ensures { result ≡ kept_answer kept ours theirs }
{
    match (ours, theirs) {
        (KeyState::Broken { step }, _) => Reply::Broken(step),
        (KeyState::Held, KeyState::Broken { step }) => Reply::Broken(step),
        (KeyState::Held, KeyState::Held) => kept,
    }
}

/// The holder of the first of another client's PW on these objects.
fn writer_of(client: u8, objects: &[CopyObject], locks: &ExtentLocks) -> Option<u8>
    ensures { result ≡ option_map (λ told. told.0) (first_writer locks.now client objects.now) }
{
    for object in objects {
        if let Some((holder, _)) = locks.writer_but(client, object.object) {
            return Some(holder);
        }
    }
    None
}

/// The pair once more, without the sources of ours that failed.
fn our_again(pair: Pair, failed: Ids, call: FailedCall) -> Pair
    ensures { result ≡ record pair { our_failed = failed; last = Some call } }
{
    let Pair {
        comparing,
        size,
        number,
        our_failed: _,
        their_failed,
        last: _,
    } = pair;
    Pair {
        comparing,
        size,
        number,
        our_failed: failed,
        their_failed,
        last: Some(call),
    }
}

/// The pair once more, without the sources of theirs that failed.
fn their_again(pair: Pair, failed: Ids, call: FailedCall) -> Pair
    ensures { result ≡ record pair { their_failed = failed; last = Some call } }
{
    let Pair {
        comparing,
        size,
        number,
        our_failed,
        their_failed: _,
        last: _,
    } = pair;
    Pair {
        comparing,
        size,
        number,
        our_failed,
        their_failed: failed,
        last: Some(call),
    }
}
