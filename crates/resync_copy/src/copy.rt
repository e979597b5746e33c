ghost use Rattle.std.specs.Prelude.{◌≡◌, ◌↔◌, IsTrue, [], List};
ghost use Rattle.extent_lock.specs.declared.lock.Lock.{Lock};
ghost use Rattle.layout_lease.specs.Clients.{IsClient};
ghost use Rattle.layout_lease.specs.Leases.{keys_of};
ghost use Rattle.object_target.specs.TargetState.{TargetState};
ghost use Rattle.meta_server.specs.Beginning.{copy_begins};
ghost use Rattle.meta_server.specs.Conditions.{HasGenerationRoom, HasObjectRoom, IsCopyOf, IsRoom};
ghost use Rattle.meta_server.specs.Outcomes.{MayLackMemory};
ghost use Rattle.call_steps.specs.Servers.{servers};
ghost use Rattle.call_steps.specs.Steps.{HasMemory, Steps};
ghost use Rattle.resync_copy.specs.Copies.{copy_by, new_copy};
ghost use Rattle.resync_copy.specs.Fitting.{CopyFits, IsSoundCopy, TakesNoMemory};
ghost use Rattle.resync_copy.specs.Steps.{copy_at, copy_step};
ghost use Rattle.resync_copy.specs.declared.phase.CopyAt.TheVariants as at;

use crate::comparing::Comparing;
use crate::copying::Copying;
use crate::merge_phase::MergeStage;
use crate::merging::{compared, merge_fences_from};
use crate::phase::{Asked, CopyStage, Phase};
use crate::stages::fences_from;
use call_steps::can_call;
use extent_lock::ExtentLocks;
use flr_base::{Ids, Lefts, Name, Progress, Reply, Takes};
use meta_server::{Begun, CopyWhat, Meta, MetaStop};
use object_target::Targets;
use std::alloc::Global;
use std::marker::Model;

/// A resync, or an extend, one step at a time: begin, a fence for each object of a fresh component
/// that overlaps a destination, a reset for each object of a destination, settle, a take and a put for
/// each chunk, done. An extend by a victim fences the objects of the fresh components of both files,
/// settles, takes each chunk from both, and is done.
#[derive(Drop)]
pub struct CopyCall {
    asked: Asked,
    phase: Phase,
}

impl Model for CopyCall {
    ghost use Rattle.resync_copy.specs.Calls.{CopyView};
    ghost use Rattle.resync_copy.specs.Copies.{copy_by};
    ghost use Rattle.resync_copy.specs.Steps.{at_of};
    ghost use Rattle.resync_copy.specs.Fitting.{IsSoundCopy, IsSoundPhase};

    ghost Value = { CopyView };

    ghost view = { λ a. copy_by a.asked (at_of a.phase) };

    ghost invariant = { λ a. IsSoundCopy (copy_by a.asked (at_of a.phase)) × IsSoundPhase a.phase };
}

impl CopyCall {
    /// A resync of the file of this name, or an extend of it, before its first step.
    pub fn new(alloc: Global, client: u8, name: Name, what: CopyWhat) -> CopyCall
        requires client { IsClient client }
        requires asked { IsCopyOf name what }
        ensures new { result ≡ new_copy client name what }
    {
        CopyCall {
            asked: Asked {
                alloc,
                client,
                name,
                what,
            },
            phase: Phase::Begin,
        }
    }

    /// Whether the next step may be made.
    pub fn may_step(&self, meta: &Meta, targets: &Targets, locks: &ExtentLocks) -> bool
        ensures says { IsTrue result ↔ CopyFits self.now (servers meta.now targets.now locks.now) }
    {
        can_call(targets) && self.asked.fits(&self.phase, meta, targets, locks)
    }

    /// Makes the next step, at this place. One that is blocked, or for which memory runs out, hands
    /// the call back, and leaves everything as it was. A begin that is refused with an answer that names
    /// no file, settle and done take no memory, but for a done that takes the victim in.
    pub fn step(
        self,
        meta: &mut Meta,
        targets: &mut Targets,
        locks: &mut ExtentLocks,
        _step: u32,
    ) -> Progress<CopyCall>
        requires fits { CopyFits self (servers meta.old targets.old locks.old) }
        ensures step { Steps self (servers meta.old targets.old locks.old) result (servers meta.new targets.new locks.new) (copy_step self _step (servers meta.old targets.old locks.old)) }
        ensures free { TakesNoMemory self (servers meta.old targets.old locks.old) → HasMemory result }
    {
        let CopyCall { asked, phase } = self;
        match phase {
            Phase::Begin => asked.begin(meta),
            Phase::Begun { side, ids } => match Copying::new(asked.alloc, side, ids) {
                Ok(copying) => asked.stage(fences_from(copying, 0), meta, targets, locks),
                Err((side, ids)) => {
                    let phase = Phase::Begun { side, ids };
                    Progress::NoMemory(CopyCall { asked, phase })
                }
            },
            Phase::Copy(stage) => asked.stage(stage, meta, targets, locks),
            Phase::Compared { ours, theirs } => match Comparing::new(asked.alloc, ours, theirs) {
                Ok(comparing) => asked.merge_stage(
                    merge_fences_from(comparing, 0),
                    meta,
                    targets,
                    locks,
                ),
                Err((ours, theirs)) => {
                    let phase = Phase::Compared { ours, theirs };
                    Progress::NoMemory(CopyCall { asked, phase })
                }
            },
            Phase::Merge(stage) => asked.merge_stage(stage, meta, targets, locks),
        }
    }
}

impl Asked {
    /// The call, with this to do next.
    pub(crate) fn call(self, stage: CopyStage) -> CopyCall
        requires sound { IsSoundCopy (copy_by self (at.Copy stage)) }
        ensures same { result ≡ copy_by self (at.Copy stage) }
    {
        let phase = Phase::Copy(stage);
        CopyCall { asked: self, phase }
    }

    /// The call, with this of a merge to do next.
    pub(crate) fn merge_call(self, stage: MergeStage) -> CopyCall
        requires sound { IsSoundCopy (copy_by self (at.Merge stage)) }
        ensures same { result ≡ copy_by self (at.Merge stage) }
    {
        let phase = Phase::Merge(stage);
        CopyCall { asked: self, phase }
    }

    /// Begins.
    fn begin(self, meta: &mut Meta) -> Progress<CopyCall>
        requires sound { IsSoundCopy (copy_by self at.Begin) }
        requires no_key { keys_of self.client meta.old.leases.keys ≡ [] }
        requires keys { IsRoom meta.old.leases.next }
        requires generations { HasGenerationRoom meta.old }
        requires objects { HasObjectRoom meta.old }
        ensures step { (targets : List TargetState) (locks : List Lock) → Steps (copy_by self at.Begin) (servers meta.old targets locks) result (servers meta.new targets locks) (copy_at at.Begin (copy_by self at.Begin) (servers meta.old targets locks)) }
        ensures free { ¬ MayLackMemory (copy_begins self.client self.name self.what meta.old) → HasMemory result }
    {
        match meta.begin_copy(self.client, &self.name, &self.what) {
            Ok(Begun::Nothing) => Progress::Answered {
                reply: Reply::Copied {
                    cleared: Ids::new(self.alloc),
                    left: Lefts::new(self.alloc),
                },
                takes: Takes::new(self.alloc),
            },
            Ok(Begun::Copy { side, ids }) => {
                let _components = side.layout.components();
                let phase = Phase::Begun { side, ids };
                Progress::Going(CopyCall { asked: self, phase })
            }
            Ok(Begun::Merge { ours, theirs }) => {
                let phase = compared(self.alloc, ours, theirs);
                Progress::Going(CopyCall { asked: self, phase })
            }
            Err(MetaStop::Refused(reply)) => Progress::Answered {
                reply,
                takes: Takes::new(self.alloc),
            },
            Err(MetaStop::Blocked { holder }) => Progress::Blocked {
                call: CopyCall {
                    asked: self,
                    phase: Phase::Begin,
                },
                holder,
            },
            Err(MetaStop::NoMemory) => Progress::NoMemory(CopyCall {
                asked: self,
                phase: Phase::Begin,
            }),
        }
    }
}
