ghost use Rattle.std.specs.Prelude.{◌≡◌, ◌&&◌, nat_eq, false, List, Some, IfErr, IfOk};
ghost use Rattle.std.specs.List.{list_any};
ghost use Rattle.mirror_select.specs.Candidates.{has_byte};
ghost use Rattle.object_target.specs.TargetState.{TargetState};
ghost use Rattle.meta_server.specs.Closing.{holds};
ghost use Rattle.call_steps.specs.Servers.{servers};
ghost use Rattle.call_steps.specs.Steps.{HasMemory, Steps};
ghost use Rattle.client_read.specs.Fitting.{HasPieces, IsAsked, IsSoundRead};
ghost use Rattle.client_read.specs.Pieces.{nothing_got, with_holes};
ghost use Rattle.client_read.specs.Reads.{TellsLowest, calls_over, ids_of, others_answer, read_at, read_by, unanswered};
ghost use Rattle.client_read.specs.declared.phase.ReadAt.TheVariants as at;

use crate::got::Got;
use crate::next::locks_from;
use crate::phase::{Asked, FailedTake, ReadAt, Reading, Unread};
use crate::read::ReadCall;
use composite_layout::Component;
use extent_lock::ExtentLocks;
use flr_base::{Calls, Ids, NoMemory, Progress, Reply, Takes};
use meta_server::{Meta, Opened};
use mirror_select::Pieces;
use std::alloc::Global;

impl Asked {
    /// After a failed take: gives the extent locks back, and goes on with what others hold. Where the
    /// cookie was lost, the file is opened again.
    pub(crate) fn again(
        self,
        reading: Reading,
        meta: &mut Meta,
        locks: &mut ExtentLocks,
    ) -> Progress<ReadCall>
        requires sound { IsSoundRead (read_by self (at.Again reading)) }
        ensures step { (targets : List TargetState) → Steps (read_by self (at.Again reading)) (servers meta.old targets locks.old) result (servers meta.new targets locks.new) (read_at (at.Again reading) (read_by self (at.Again reading)) (servers meta.old targets locks.old)) }
        ensures free { holds reading.opened.file reading.opened.cookie meta.old ≡ false → HasMemory result }
    {
        if meta.holds(reading.opened.file, &reading.opened.cookie) {
            self.others(reading, meta, locks)
        } else {
            locks.unlock(self.client);
            Progress::Going(self.call(ReadAt::Open))
        }
    }

    /// Goes on with what others hold, if each byte has somebody to answer it.
    fn others(
        self,
        reading: Reading,
        meta: &mut Meta,
        locks: &mut ExtentLocks,
    ) -> Progress<ReadCall>
        requires sound { IsSoundRead (read_by self (at.Again reading)) }
        ensures step { (targets : List TargetState) → Steps (read_by self (at.Again reading)) (servers meta.old targets locks.old) result (servers meta.new targets locks.new) (others_answer (read_by self (at.Again reading)) (servers meta.old targets locks.old) reading (unanswered reading.opened.layout self.range (ids_of reading.failed))) }
    {
        match self.pieces_left(&reading) {
            Ok((pieces, got)) => {
                locks.unlock(self.client);
                let Reading {
                    opened,
                    failed,
                    pieces: _,
                    got: _,
                } = reading;
                let reading = Reading {
                    opened,
                    failed,
                    pieces,
                    got,
                };
                Progress::Going(self.call(locks_from(reading, 0)))
            }
            Err(Unread::NoMemory) => Progress::NoMemory(self.call(ReadAt::Again { reading })),
            Err(Unread::Unanswered { byte }) => self.fault(reading, byte, meta, locks),
        }
    }

    /// The pieces of the range without the components that failed, and the holes that stand first.
    fn pieces_left(&self, reading: &Reading) -> Result<(Pieces, Got), Unread>
        requires asked { IsAsked self.now.range }
        ensures pieces { IfOk result (λ found. HasPieces self.now.range reading.now.opened.layout (ids_of reading.now.failed) found.0) }
        ensures got { IfOk result (λ found. found.1 ≡ with_holes found.0 nothing_got) }
        ensures unread { IfErr result (TellsLowest reading.now.opened.layout self.now.range (ids_of reading.now.failed)) }
    {
        let failed = ids_of(self.alloc, reading.failed.as_slice())?;
        self.prepare(&reading.opened.layout, &failed)
    }

    /// Nobody is left to answer this byte.
    fn fault(
        self,
        reading: Reading,
        byte: u64,
        meta: &mut Meta,
        locks: &mut ExtentLocks,
    ) -> Progress<ReadCall>
        requires sound { IsSoundRead (read_by self (at.Again reading)) }
        ensures step { (targets : List TargetState) → Steps (read_by self (at.Again reading)) (servers meta.old targets locks.old) result (servers meta.new targets locks.new) (others_answer (read_by self (at.Again reading)) (servers meta.old targets locks.old) reading (Some byte)) }
    {
        let components = reading.opened.layout.components();
        let calls = calls_over(self.alloc, components, byte, reading.failed.as_slice());
        let Ok(calls) = calls else {
            return Progress::NoMemory(self.call(ReadAt::Again { reading }));
        };
        locks.unlock(self.client);
        let Reading {
            opened,
            failed: _,
            pieces: _,
            got: _,
        } = reading;
        let Opened {
            file,
            cookie,
            layout: _,
            size: _,
        } = opened;
        meta.free(file, cookie);
        Progress::Answered {
            reply: Reply::Fault { byte, calls },
            takes: Takes::new(self.alloc),
        }
    }
}

/// The failed calls of components that have the byte, in their order.
fn calls_over(
    alloc: Global,
    components: &[Component],
    byte: u64,
    failed: &[FailedTake],
) -> Result<Calls, NoMemory>
    ensures { IfOk result (λ calls. calls ≡ calls_over components.now byte failed.now) }
{
    let mut calls = Calls::new(alloc);
    for take in failed {
        if has_byte(components, take.component, byte) {
            calls.push(take.call)?;
        }
    }
    Ok(calls)
}

/// Whether the component with this id has the byte.
fn has_byte(components: &[Component], id: u32, byte: u64) -> bool
    ensures { result ≡ list_any (λ c. nat_eq c.id id && has_byte byte c) components.now }
{
    components.iter().any(|component| {
        component.id == id && component.extent.start <= byte && byte < component.extent.end
    })
}

/// The components that failed.
fn ids_of(alloc: Global, failed: &[FailedTake]) -> Result<Ids, NoMemory>
    ensures { IfOk result (λ ids. ids ≡ ids_of failed.now) }
{
    let mut ids = Ids::new(alloc);
    for take in failed {
        ids.push(take.component)?;
    }
    Ok(ids)
}
