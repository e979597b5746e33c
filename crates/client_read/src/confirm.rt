ghost use Rattle.std.specs.Prelude.{List};
ghost use Rattle.extent_lock.specs.declared.lock.Lock.{Lock};
ghost use Rattle.object_target.specs.TargetState.{TargetState};
ghost use Rattle.call_steps.specs.Servers.{servers};
ghost use Rattle.call_steps.specs.Steps.{HasMemory, Steps};
ghost use Rattle.client_read.specs.Fitting.{IsSoundRead};
ghost use Rattle.client_read.specs.Reads.{read_at, read_by};
ghost use Rattle.client_read.specs.declared.phase.ReadAt.TheVariants as at;

use crate::phase::{Asked, ReadAt, Reading};
use crate::read::ReadCall;
use flr_base::{Octets, Progress, Reply, Takes};
use meta_server::{Lost, Meta, Opened};

impl Asked {
    /// Fixes the bytes, unless the cookie was lost.
    pub(crate) fn confirm(self, reading: Reading, meta: &mut Meta) -> Progress<ReadCall>
        requires sound { IsSoundRead (read_by self (at.Confirm reading)) }
        ensures step { (targets : List TargetState) (locks : List Lock) → Steps (read_by self (at.Confirm reading)) (servers meta.old targets locks) result (servers meta.new targets locks) (read_at (at.Confirm reading) (read_by self (at.Confirm reading)) (servers meta.old targets locks)) }
        ensures free { HasMemory result }
    {
        let Reading {
            opened,
            failed: _,
            pieces: _,
            got,
        } = reading;
        let Opened {
            file,
            cookie,
            layout: _,
            size: _,
        } = opened;
        match meta.confirm(file, cookie) {
            Ok(size) => {
                let (mut bytes, takes) = got.into_parts();
                bytes.truncate(size.saturating_sub(self.range.start) as usize);
                Progress::Fixed {
                    call: self.call(ReadAt::Unlock),
                    reply: Reply::Bytes(Octets::from_vec(bytes)),
                    takes: Takes::from_vec(takes),
                }
            }
            Err(Lost) => Progress::Going(self.call(ReadAt::UnlockAgain)),
        }
    }
}
