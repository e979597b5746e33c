ghost use Rattle.std.specs.Prelude.{◌≡◌, ◌<◌, [], ◌∷◌, ◌++◌, List, vec_len, vec_capacity};
ghost use Rattle.extent_lock.specs.declared.lock.Lock.{Lock};
ghost use Rattle.object_target.specs.TargetState.{TargetState};
ghost use Rattle.meta_server.specs.Files.{MetaView};
ghost use Rattle.call_steps.specs.Servers.{servers, AreThere, CanCall};
ghost use Rattle.call_steps.specs.Steps.{HasMemory, Steps};
ghost use Rattle.client_read.specs.Fitting.{IsRefused, IsSoundRead};
ghost use Rattle.client_read.specs.Reads.{read_at, read_by};
ghost use Rattle.client_read.specs.declared.phase.ReadAt.TheVariants as at;

use crate::next::{locks_from, takes_from};
use crate::phase::{Asked, FailedTake, FailedTakes, ReadAt, Reading};
use crate::read::ReadCall;
use extent_lock::{ExtentLocks, LockError, Mode};
use flr_base::{FailedCall, Progress, Range};
use object_target::{TargetError, Targets};

impl Asked {
    /// Asks for the extent lock of a piece.
    pub(crate) fn lock(
        self,
        reading: Reading,
        next: usize,
        locks: &mut ExtentLocks,
    ) -> Progress<ReadCall>
        requires sound { IsSoundRead (read_by self (at.Lock reading next)) }
        ensures step { (meta : MetaView) (targets : List TargetState) → Steps (read_by self (at.Lock reading next)) (servers meta targets locks.old) result (servers meta targets locks.new) (read_at (at.Lock reading next) (read_by self (at.Lock reading next)) (servers meta targets locks.old)) }
        ensures free { (meta : MetaView) (targets : List TargetState) → IsRefused (read_at (at.Lock reading next) (read_by self (at.Lock reading next)) (servers meta targets locks.old)) → HasMemory result }
    {
        let piece = reading.pieces.as_slice()[next];
        let Some(object) = piece.object else {
            unreachable!()
        };
        let range = Range {
            start: piece.offset,
            end: piece.offset + (piece.range.end - piece.range.start),
        };
        match locks.try_lock(self.client, object, range, Mode::PR) {
            Ok(()) => Progress::Going(self.call(locks_from(reading, next + 1))),
            Err(LockError::Blocked { holder, range: _ }) => Progress::Blocked {
                call: self.call(ReadAt::Lock { reading, next }),
                holder,
            },
            Err(LockError::NoMemory) => {
                Progress::NoMemory(self.call(ReadAt::Lock { reading, next }))
            }
        }
    }

    /// Reads a piece.
    pub(crate) fn take(
        self,
        reading: Reading,
        next: usize,
        targets: &mut Targets,
    ) -> Progress<ReadCall>
        requires sound { IsSoundRead (read_by self (at.Take reading next)) }
        requires calls { CanCall targets.old }
        requires there { AreThere targets.old reading.opened.layout.components }
        ensures step { (meta : MetaView) (locks : List Lock) → Steps (read_by self (at.Take reading next)) (servers meta targets.old locks) result (servers meta targets.new locks) (read_at (at.Take reading next) (read_by self (at.Take reading next)) (servers meta targets.old locks)) }
    {
        let Reading {
            opened,
            failed,
            pieces,
            mut got,
        } = reading;
        let piece = pieces.as_slice()[next];
        let Some(object) = piece.object else {
            unreachable!()
        };
        let mut failed = failed.into_vec();
        if failed.reserve(1).is_err() {
            let failed = FailedTakes::from_vec(failed);
            let reading = Reading {
                opened,
                failed,
                pieces,
                got,
            };
            return Progress::NoMemory(self.call(ReadAt::Take { reading, next }));
        }
        let target = targets.at_mut(object.target);
        match got.read_piece(pieces.as_slice(), next, object, target) {
            Ok(()) => {
                let failed = FailedTakes::from_vec(failed);
                let reading = Reading {
                    opened,
                    failed,
                    pieces,
                    got,
                };
                Progress::Going(self.call(takes_from(reading, next + 1)))
            }
            Err(TargetError::Failed { call }) => {
                let call = FailedCall {
                    target: object.target,
                    call,
                };
                let component = piece.component;
                note(&mut failed, FailedTake { component, call });
                let failed = FailedTakes::from_vec(failed);
                let reading = Reading {
                    opened,
                    failed,
                    pieces,
                    got,
                };
                Progress::Going(self.call(ReadAt::Again { reading }))
            }
            Err(TargetError::NoMemory) => {
                let failed = FailedTakes::from_vec(failed);
                let reading = Reading {
                    opened,
                    failed,
                    pieces,
                    got,
                };
                Progress::NoMemory(self.call(ReadAt::Take { reading, next }))
            }
            Err(TargetError::Old { .. }) => unreachable!(),
        }
    }
}

/// Notes a failed take, for which there is room.
fn note(failed: &mut Vec<FailedTake>, take: FailedTake)
    requires room { vec_len failed.old < vec_capacity failed.old }
    ensures noted { failed.new.items ≡ failed.old.items ++ take ∷ [] }
{
    let _pushed = failed.push(take);
}
