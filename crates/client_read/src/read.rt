ghost use Rattle.std.specs.Prelude.{◌≡◌, ◌↔◌, ◌<◌, ◌≤◌, IsTrue, List};
ghost use Rattle.extent_lock.specs.declared.lock.Lock.{Lock};
ghost use Rattle.layout_lease.specs.Clients.{IsClient};
ghost use Rattle.call_steps.specs.Servers.{servers};
ghost use Rattle.call_steps.specs.Steps.{HasMemory, Steps};
ghost use Rattle.client_read.specs.Fitting.{FitsAt, IsSoundRead, ReadFits, TakesNoMemory};
ghost use Rattle.client_read.specs.Reads.{new_read, read_by, read_step};

use crate::phase::{Asked, ReadAt};
use call_steps::{are_there, can_call};
use extent_lock::ExtentLocks;
use flr_base::{Name, Progress, Range};
use meta_server::Meta;
use object_target::Targets;
use std::alloc::Global;
use std::marker::Model;

/// A read of bytes of a file, one step at a time: open, a lock for each piece that isn't a hole, a
/// take for each, confirm, unlock. After a failed take it goes on with what others hold.
#[derive(Drop)]
pub struct ReadCall {
    asked: Asked,
    at: ReadAt,
}

impl Model for ReadCall {
    ghost use Rattle.client_read.specs.Views.{ReadView};
    ghost use Rattle.client_read.specs.Reads.{read_by};
    ghost use Rattle.client_read.specs.Fitting.{IsSoundRead};

    ghost Value = { ReadView };

    ghost view = { λ a. read_by a.asked a.at };

    ghost invariant = { λ a. IsSoundRead (read_by a.asked a.at) };
}

impl ReadCall {
    /// A read by this client of so many bytes of the file of this name, from the offset on, before
    /// its first step. Clients are 1 to 16.
    pub fn new(alloc: Global, client: u8, name: Name, offset: u64, length: u32) -> ReadCall
        requires client { IsClient client }
        requires offset { offset ≤ 268435456 }
        requires some { 0 < length }
        requires most { length ≤ 1048576 }
        ensures new { result ≡ new_read client name offset length }
    {
        let range = Range {
            start: offset,
            end: offset + u64::from(length),
        };
        ReadCall {
            asked: Asked {
                alloc,
                client,
                name,
                range,
            },
            at: ReadAt::Open,
        }
    }

    /// Whether the next step may be made.
    pub fn may_step(&self, meta: &Meta, targets: &Targets, _locks: &ExtentLocks) -> bool
        ensures says { IsTrue result ↔ ReadFits self.now (servers meta.now targets.now _locks.now) }
    {
        can_call(targets) && self.asked.fits(&self.at, meta, targets)
    }

    /// Makes the next step.
    ///
    /// At its open the read answers `NoFile` or `AllOffline` at once, with the lowest byte that
    /// nobody may answer. After a failed take it answers `Fault` for the lowest byte for which
    /// nobody is left. A step that is blocked, or for which memory runs out, hands the call back,
    /// and leaves everything as it was. Want of memory takes the place of no refusal at the open, and
    /// of no holder that is in the way; confirm and the steps that only give locks back take none.
    pub fn step(
        self,
        meta: &mut Meta,
        targets: &mut Targets,
        locks: &mut ExtentLocks,
        _step: u32,
    ) -> Progress<ReadCall>
        requires fits { ReadFits self (servers meta.old targets.old locks.old) }
        ensures step { Steps self (servers meta.old targets.old locks.old) result (servers meta.new targets.new locks.new) (read_step self _step (servers meta.old targets.old locks.old)) }
        ensures free { TakesNoMemory self (servers meta.old targets.old locks.old) → HasMemory result }
    {
        let ReadCall { asked, at } = self;
        match at {
            ReadAt::Open => asked.open(meta),
            ReadAt::Lock { reading, next } => asked.lock(reading, next, locks),
            ReadAt::Take { reading, next } => asked.take(reading, next, targets),
            ReadAt::Again { reading } => asked.again(reading, meta, locks),
            ReadAt::Confirm { reading } => asked.confirm(reading, meta),
            ReadAt::UnlockAgain => {
                locks.unlock(asked.client);
                Progress::Going(asked.call(ReadAt::Open))
            }
            ReadAt::Unlock => {
                locks.unlock(asked.client);
                Progress::Ended
            }
        }
    }
}

impl Asked {
    /// Whether the servers are as a step wants them that does this.
    fn fits(&self, at: &ReadAt, meta: &Meta, targets: &Targets) -> bool
        ensures { (locks : List Lock) → IsTrue result ↔ FitsAt at.now (read_by self.now at.now) (servers meta.now targets.now locks) }
    {
        match at {
            ReadAt::Open => meta.may_share(self.client, &self.name),
            ReadAt::Take { reading, next: _ } => are_there(targets, &reading.opened.layout),
            ReadAt::Lock { .. }
            | ReadAt::Again { .. }
            | ReadAt::Confirm { .. }
            | ReadAt::UnlockAgain
            | ReadAt::Unlock => true,
        }
    }

    /// The call, with this to do next.
    pub(crate) fn call(self, at: ReadAt) -> ReadCall
        requires sound { IsSoundRead (read_by self at) }
        ensures same { result ≡ read_by self at }
    {
        ReadCall { asked: self, at }
    }
}
