ghost use Rattle.std.specs.Prelude.{◌≡◌, ◌↔◌, IsTrue, ◌+◌, ◌^◌, ◌<◌, ◌≤◌, ◌++◌, ℕ, true, List, All, length, map, is_some, nat_lt, slice_set, IfOk, OnOk, OnErr};
ghost use Rattle.layout_lease.specs.Clients.{IsClient};
ghost use Rattle.extent_lock.specs.declared.lock.Lock.{Lock};
ghost use Rattle.object_target.specs.Calls.{after_punch, punch_answer};
ghost use Rattle.object_target.specs.TargetState.{TargetState};
ghost use Rattle.meta_server.specs.Conditions.{HasGenerationRoom, HasObjectRoom, MayShare};
ghost use Rattle.meta_server.specs.Files.{MetaView};
ghost use Rattle.meta_server.specs.Opening.{cut_opens};
ghost use Rattle.call_steps.specs.Servers.{servers, next_call_on, target_at, AreThere, CanCall, HoldsNone};
ghost use Rattle.client_write.specs.Parts.{came_of};
ghost use Rattle.call_steps.specs.Steps.{HasMemory, Steps};
ghost use Rattle.client_write.specs.CutFitting.{CutFitsAt, CutTakesNoMemory, HasTails, IsSoundCutAt, IsSoundTruncate, TruncateFits};
ghost use Rattle.client_write.specs.Refusals.{IsPlainRefusal};
ghost use Rattle.client_write.specs.OwnLocks.{HoldsOwn};
ghost use Rattle.client_write.specs.Truncates.{IsFirstBlocked, after_punches, commit_cut_step, first_blocker, lock_tails_step, locks_for, new_truncate, punch_step, tail_lock, truncate_at, truncate_by, truncate_step};
ghost use Rattle.client_write.specs.declared.phase.CutAt.TheVariants as at;

use crate::asking::has_room;
use crate::cutting::Cutting;
use crate::phase::{Came, CutAsked, CutAt, Sent};
use call_steps::{are_there, can_call, holds_none};
use extent_lock::{ExtentLocks, LockError, Mode};
use flr_base::{EOF, FailedCall, Name, NoMemory, Progress, Range, Reply, Takes};
use meta_server::{Gone, Meta, MetaStop, Opened};
use mirror_select::{Tail, Tails};
use object_target::{TargetError, Targets};
use std::alloc::Global;
use std::marker::Model;

/// A truncate of a file, one step at a time: open, the locks of all tails, a punch for each, commit,
/// unlock. Where its first tail is too old, or its file is gone, it opens again.
#[derive(Drop)]
pub struct TruncateCall {
    asked: CutAsked,
    at: CutAt,
}

impl Model for TruncateCall {
    ghost use Rattle.client_write.specs.Calls.{TruncateView};
    ghost use Rattle.client_write.specs.Truncates.{truncate_by};
    ghost use Rattle.client_write.specs.CutFitting.{IsSoundTruncate};

    ghost Value = { TruncateView };

    ghost view = { λ a. truncate_by a.asked a.at };

    ghost invariant = { λ a. IsSoundTruncate (truncate_by a.asked a.at) };
}

impl TruncateCall {
    /// A truncate to the size, in bytes, before its first step.
    pub fn new(alloc: Global, client: u8, name: Name, size: u64) -> TruncateCall
        requires client { IsClient client }
        requires size { size ≤ 2 ^ 40 }
        ensures new { result ≡ new_truncate client name size }
    {
        TruncateCall {
            asked: CutAsked {
                alloc,
                client,
                name,
                size,
            },
            at: CutAt::Open,
        }
    }

    /// Whether the next step may be made.
    pub fn may_step(&self, meta: &Meta, targets: &Targets, locks: &ExtentLocks) -> bool
        ensures says { IsTrue result ↔ TruncateFits self.now (servers meta.now targets.now locks.now) }
    {
        can_call(targets) && self.asked.fits(&self.at, meta, targets, locks)
    }

    /// Makes the next step, at this place. A step that is blocked, or for which memory runs out,
    /// hands the call back, and leaves everything as it was. An open that is refused with an answer
    /// that names no file, locks that a holder is in the way of, commit, and the steps that only give
    /// locks back take no memory.
    pub fn step(
        self,
        meta: &mut Meta,
        targets: &mut Targets,
        locks: &mut ExtentLocks,
        step: u32,
    ) -> Progress<TruncateCall>
        requires fits { TruncateFits self (servers meta.old targets.old locks.old) }
        ensures step { Steps self (servers meta.old targets.old locks.old) result (servers meta.new targets.new locks.new) (truncate_step self step (servers meta.old targets.old locks.old)) }
        ensures free { CutTakesNoMemory self.at self step (servers meta.old targets.old locks.old) → HasMemory result }
    {
        let TruncateCall { asked, at } = self;
        match at {
            CutAt::Open => asked.open(meta, step),
            CutAt::Lock { cutting } => asked.lock(cutting, locks),
            CutAt::Punch { cutting, next } => asked.punch(cutting, next, meta, targets),
            CutAt::Commit { cutting, sent } => asked.commit(cutting, sent, meta),
            CutAt::UnlockAgain => {
                locks.unlock(asked.client);
                Progress::Going(asked.call(CutAt::Open))
            }
            CutAt::Unlock => {
                locks.unlock(asked.client);
                Progress::Ended
            }
        }
    }
}

impl CutAsked {
    /// Whether the file may be opened.
    fn may_open(&self, meta: &Meta) -> bool
        ensures { IsTrue result ↔ (MayShare self.now.client self.now.name meta.now × HasGenerationRoom meta.now × HasObjectRoom meta.now) }
    {
        meta.may_share(self.client, &self.name) && has_room(meta)
    }

    /// Whether the servers are as a step wants them that does this.
    fn fits(&self, at: &CutAt, meta: &Meta, targets: &Targets, locks: &ExtentLocks) -> bool
        ensures { IsTrue result ↔ CutFitsAt at.now (truncate_by self.now at.now) (servers meta.now targets.now locks.now) }
    {
        match at {
            CutAt::Open => self.may_open(meta),
            CutAt::Lock { cutting: _ } => holds_none(self.client, locks),
            CutAt::Punch { cutting, next: _ } => are_there(targets, &cutting.opened().layout),
            CutAt::Commit { .. } | CutAt::UnlockAgain | CutAt::Unlock => true,
        }
    }

    /// The call, with this to do next.
    fn call(self, at: CutAt) -> TruncateCall
        requires sound { IsSoundTruncate (truncate_by self at) }
        ensures same { result ≡ truncate_by self at }
    {
        TruncateCall { asked: self, at }
    }

    /// Opens the file, with the intent where the bytes from the size on aren't ready.
    fn open(self, meta: &mut Meta, step: u32) -> Progress<TruncateCall>
        requires sound { IsSoundTruncate (truncate_by self at.Open) }
        requires share { MayShare self.client self.name meta.old }
        requires generations { HasGenerationRoom meta.old }
        requires objects { HasObjectRoom meta.old }
        ensures step { (targets : List TargetState) (locks : List Lock) → Steps (truncate_by self at.Open) (servers meta.old targets locks) result (servers meta.new targets locks) (truncate_at at.Open (truncate_by self at.Open) step (servers meta.old targets locks)) }
        ensures free { IsPlainRefusal (cut_opens self.client self.name self.size step meta.old) → HasMemory result }
    {
        match meta.open_cut(self.client, &self.name, self.size, step) {
            Ok(opened) => {
                let _components = opened.layout.components();
                let cutting = Cutting::new(opened, self.size);
                Progress::Going(self.call(CutAt::Lock { cutting }))
            }
            Err(MetaStop::Refused(reply)) => Progress::Answered {
                reply,
                takes: Takes::new(self.alloc),
            },
            Err(MetaStop::Blocked { holder }) => Progress::Blocked {
                call: self.call(CutAt::Open),
                holder,
            },
            Err(MetaStop::NoMemory) => Progress::NoMemory(self.call(CutAt::Open)),
        }
    }

    /// Asks for the extent locks of all tails, which are listed first.
    fn lock(self, cutting: Cutting, locks: &mut ExtentLocks) -> Progress<TruncateCall>
        requires sound { IsSoundTruncate (truncate_by self (at.Lock cutting)) }
        requires none { HoldsNone self.client locks.old }
        ensures step { (meta : MetaView) (targets : List TargetState) → Steps (truncate_by self (at.Lock cutting)) (servers meta targets locks.old) result (servers meta targets locks.new) (lock_tails_step (truncate_by self (at.Lock cutting)) (servers meta targets locks.old) cutting) }
        ensures free { is_some (first_blocker (locks_for (truncate_by self (at.Lock cutting)) cutting) locks.old) ≡ true → HasMemory result }
    {
        let mut cutting = cutting;
        match cutting.take(self.alloc) {
            Ok(tails) => self.lock_listed(cutting, tails, locks),
            Err(NoMemory) => self.lock_unlisted(cutting, locks),
        }
    }

    /// Asks for the extent locks of these tails, which are all, and puts them back.
    fn lock_listed(
        self,
        cutting: Cutting,
        tails: Tails,
        locks: &mut ExtentLocks,
    ) -> Progress<TruncateCall>
        requires sound { IsSoundTruncate (truncate_by self (at.Lock cutting)) }
        requires own { tails ≡ cutting.tails }
        requires none { HoldsNone self.client locks.old }
        ensures step { (meta : MetaView) (targets : List TargetState) → Steps (truncate_by self (at.Lock cutting)) (servers meta targets locks.old) result (servers meta targets locks.new) (lock_tails_step (truncate_by self (at.Lock cutting)) (servers meta targets locks.old) cutting) }
        ensures free { is_some (first_blocker (locks_for (truncate_by self (at.Lock cutting)) cutting) locks.old) ≡ true → HasMemory result }
    {
        let mut cutting = cutting;
        let result = lock_tails(self.client, tails.as_slice(), locks);
        let is_empty = tails.is_empty();
        cutting.put(tails);
        match result {
            Ok(()) if is_empty => {
                let sent = Sent::All;
                Progress::Going(self.call(CutAt::Commit { cutting, sent }))
            }
            Ok(()) => Progress::Going(self.call(CutAt::Punch { cutting, next: 0 })),
            Err(LockError::Blocked { holder, range: _ }) => Progress::Blocked {
                call: self.call(CutAt::Lock { cutting }),
                holder,
            },
            Err(LockError::NoMemory) => Progress::NoMemory(self.call(CutAt::Lock { cutting })),
        }
    }

    /// There is no memory to list the tails in, so no lock can be granted. Somebody may be in the way.
    fn lock_unlisted(self, cutting: Cutting, locks: &mut ExtentLocks) -> Progress<TruncateCall>
        requires sound { IsSoundTruncate (truncate_by self (at.Lock cutting)) }
        requires none { HoldsNone self.client locks.old }
        ensures step { (meta : MetaView) (targets : List TargetState) → Steps (truncate_by self (at.Lock cutting)) (servers meta targets locks.old) result (servers meta targets locks.new) (lock_tails_step (truncate_by self (at.Lock cutting)) (servers meta targets locks.old) cutting) }
        ensures free { is_some (first_blocker (locks_for (truncate_by self (at.Lock cutting)) cutting) locks.old) ≡ true → HasMemory result }
    {
        match cutting.in_the_way(self.client, locks) {
            Some(holder) => Progress::Blocked {
                call: self.call(CutAt::Lock { cutting }),
                holder,
            },
            None => Progress::NoMemory(self.call(CutAt::Lock { cutting })),
        }
    }

    /// Cuts the object of the next tail.
    fn punch(
        self,
        cutting: Cutting,
        next: usize,
        meta: &Meta,
        targets: &mut Targets,
    ) -> Progress<TruncateCall>
        requires sound { IsSoundTruncate (truncate_by self (at.Punch cutting next)) }
        requires calls { CanCall targets.old }
        requires there { AreThere targets.old cutting.opened.layout.components }
        ensures step { (locks : List Lock) → Steps (truncate_by self (at.Punch cutting next)) (servers meta.now targets.old locks) result (servers meta.now targets.new locks) (punch_step (truncate_by self (at.Punch cutting next)) (servers meta.now targets.old locks) cutting next) }
    {
        let mut cutting = cutting;
        let Ok(tails) = cutting.take(self.alloc) else {
            return Progress::NoMemory(self.call(CutAt::Punch { cutting, next }));
        };
        let tail = tails.as_slice()[next];
        let more = next + 1 < tails.len();
        cutting.put(tails);
        let version = cutting.opened().layout.generation();
        let Ok(came) = punch_tail(tail, version, targets) else {
            return Progress::NoMemory(self.call(CutAt::Punch { cutting, next }));
        };
        let evicted = meta.last_evict(self.client);
        let at = after_punch(cutting, next, more, came, evicted);
        Progress::Going(self.call(at))
    }

    /// Sets the size where all is cut, and fixes the answer.
    fn commit(self, cutting: Cutting, sent: Sent, meta: &mut Meta) -> Progress<TruncateCall>
        requires sound { IsSoundTruncate (truncate_by self (at.Commit cutting sent)) }
        ensures step { (targets : List TargetState) (locks : List Lock) → Steps (truncate_by self (at.Commit cutting sent)) (servers meta.old targets locks) result (servers meta.new targets locks) (commit_cut_step (truncate_by self (at.Commit cutting sent)) (servers meta.old targets locks) cutting sent) }
        ensures free { HasMemory result }
    {
        let Opened {
            file,
            cookie,
            layout: _,
            size: _,
        } = cutting.into_opened();
        let (reply, committed) = match sent {
            Sent::All => (Reply::Truncated, meta.cut(file, cookie, self.size)),
            Sent::Failed { accepted: _, call } => {
                (Reply::WriteFault(call), meta.commit(file, cookie, 0))
            }
            Sent::Old { accepted: _, step } => {
                (Reply::Evicted(step), meta.commit(file, cookie, 0))
            }
        };
        match committed {
            Ok(()) => Progress::Fixed {
                takes: Takes::new(self.alloc),
                call: self.call(CutAt::Unlock),
                reply,
            },
            Err(Gone) => Progress::Going(self.call(CutAt::UnlockAgain)),
        }
    }
}

/// What a truncate does next, once the tail at this place is cut.
fn after_punch(cutting: Cutting, next: usize, more: bool, came: Came, evicted: Option<u32>) -> CutAt
    requires there { next < length cutting.tails }
    requires fits { next + 1 < 2 ^ 64 }
    requires more { more ≡ nat_lt (next + 1) (length cutting.tails) }
    ensures next { result ≡ after_punches evicted cutting next came }
    ensures sound { (size : ℕ) → HasTails size cutting → IsSoundCutAt result size }
{
    match came {
        Came::Accepted if more => CutAt::Punch {
            cutting,
            next: next + 1,
        },
        Came::Accepted => {
            let sent = Sent::All;
            CutAt::Commit { cutting, sent }
        }
        Came::TooOld if next == 0 => CutAt::UnlockAgain,
        Came::TooOld => {
            let step = evicted.unwrap_or(0);
            let sent = Sent::Old {
                accepted: next,
                step,
            };
            CutAt::Commit { cutting, sent }
        }
        Came::Failed { call } => {
            let sent = Sent::Failed {
                accepted: next,
                call,
            };
            CutAt::Commit { cutting, sent }
        }
    }
}

/// Cuts the object of a tail.
fn punch_tail(tail: Tail, version: u32, targets: &mut Targets) -> Result<Came, NoMemory>
    requires calls { CanCall targets.old }
    requires there { tail.object.target < length targets.old }
    ensures came { IfOk result (λ came. came ≡ came_of (next_call_on targets.old tail.object.target) (punch_answer (target_at targets.old tail.object.target) tail.object.number version)) }
    ensures punched { OnOk result (targets.new ≡ slice_set targets.old tail.object.target (after_punch (target_at targets.old tail.object.target) tail.object.number tail.offset version)) }
    ensures unchanged { OnErr result (targets.new ≡ targets.old) }
{
    let target = targets.at_mut(tail.object.target);
    match target.punch(tail.object.number, tail.offset, version) {
        Ok(()) => Ok(Came::Accepted),
        Err(TargetError::Old { kept: _ }) => Ok(Came::TooOld),
        Err(TargetError::Failed { call }) => {
            let call = FailedCall {
                target: tail.object.target,
                call,
            };
            Ok(Came::Failed { call })
        }
        Err(TargetError::NoMemory) => Err(NoMemory),
    }
}

/// Asks for the locks of all tails. Where one isn't granted, none is. Want of memory is no answer where
/// somebody is in the way of one.
fn lock_tails(client: u8, tails: &[Tail], locks: &mut ExtentLocks) -> Result<(), LockError>
    requires none { HoldsNone client locks.old }
    ensures granted { OnOk result (locks.new ≡ locks.old ++ map (tail_lock client) tails.now) }
    ensures unchanged { OnErr result (locks.new ≡ locks.old) }
    ensures blocked { IsFirstBlocked (first_blocker (map (tail_lock client) tails.now) locks.old) result }
{
    let result = lock_each(client, tails, locks);
    if result.is_err() {
        locks.unlock(client);
    }
    result
}

/// Asks for the locks of the tails one after another, up to the first that somebody is in the way of.
/// Where memory runs out for one, the others are asked for all the same.
fn lock_each(client: u8, tails: &[Tail], locks: &mut ExtentLocks) -> Result<(), LockError>
    ensures granted { OnOk result (locks.new ≡ locks.old ++ map (tail_lock client) tails.now) }
    ensures own { HoldsOwn client locks.old locks.new }
    ensures blocked { IsFirstBlocked (first_blocker (map (tail_lock client) tails.now) locks.old) result }
{
    let mut lacks = false;
    for tail in tails {
        let range = Range {
            start: tail.offset,
            end: EOF,
        };
        match locks.try_lock(client, tail.object, range, Mode::PW) {
            Ok(()) => {}
            Err(LockError::NoMemory) => lacks = true,
            Err(LockError::Blocked { holder, range }) => {
                return Err(LockError::Blocked { holder, range });
            }
        }
    }
    if lacks {
        return Err(LockError::NoMemory);
    }
    Ok(())
}
