ghost use Rattle.std.specs.Prelude.{◌≡◌, [], List, None, IfOk, IfErr};
ghost use Rattle.extent_lock.specs.declared.lock.Lock.{Lock};
ghost use Rattle.object_target.specs.TargetState.{TargetState};
ghost use Rattle.meta_server.specs.Conditions.{MayShare};
ghost use Rattle.call_steps.specs.Servers.{servers};
ghost use Rattle.call_steps.specs.Steps.{HasMemory, Steps};
ghost use Rattle.client_read.specs.Fitting.{HasPieces, IsAsked, IsRefused, IsSoundRead};
ghost use Rattle.client_read.specs.Pieces.{nothing_got, with_holes};
ghost use Rattle.client_read.specs.Reads.{IsUnread, read_at, read_by};
ghost use Rattle.client_read.specs.declared.phase.ReadAt.TheVariants as at;
ghost use Rattle.flr_base.specs.declared.reply.Progress.TheVariants as progress;
ghost use Rattle.flr_base.specs.declared.reply.Reply.TheVariants as reply;

use crate::got::Got;
use crate::next::locks_from;
use crate::phase::{Asked, FailedTakes, ReadAt, Reading, Unread};
use crate::read::ReadCall;
use composite_layout::Layout;
use flr_base::{Ids, Progress, Reply, Takes};
use meta_server::{Meta, MetaStop};
use mirror_select::{PieceError, Pieces, pieces};

impl Asked {
    /// Opens the file, if it is there and each byte is answered.
    pub(crate) fn open(self, meta: &mut Meta) -> Progress<ReadCall>
        requires sound { IsSoundRead (read_by self at.Open) }
        requires share { MayShare self.client self.name meta.old }
        ensures step { (targets : List TargetState) (locks : List Lock) → Steps (read_by self at.Open) (servers meta.old targets locks) result (servers meta.new targets locks) (read_at at.Open (read_by self at.Open) (servers meta.old targets locks)) }
        ensures free { (targets : List TargetState) (locks : List Lock) → IsRefused (read_at at.Open (read_by self at.Open) (servers meta.old targets locks)) → HasMemory result }
    {
        let Some(layout) = meta.layout_of(&self.name) else {
            return self.no_file();
        };
        match self.prepare(layout, &Ids::new(self.alloc)) {
            Ok((pieces, got)) => match meta.open_read(self.client, &self.name) {
                Ok(opened) => {
                    let reading = Reading {
                        opened,
                        failed: FailedTakes::new(self.alloc),
                        pieces,
                        got,
                    };
                    Progress::Going(self.call(locks_from(reading, 0)))
                }
                Err(MetaStop::NoMemory) => Progress::NoMemory(self.call(ReadAt::Open)),
                Err(MetaStop::Refused(_)) => unreachable!(),
                Err(MetaStop::Blocked { .. }) => unreachable!(),
            },
            Err(Unread::NoMemory) => Progress::NoMemory(self.call(ReadAt::Open)),
            Err(Unread::Unanswered { byte }) => {
                Progress::Answered {
                    reply: Reply::AllOffline(byte),
                    takes: Takes::new(self.alloc),
                }
            }
        }
    }

    /// The file isn't there.
    fn no_file(self) -> Progress<ReadCall>
        ensures { result ≡ progress.Answered (reply.NoFile self.name) [] }
    {
        let Asked {
            alloc,
            client: _,
            name,
            range: _,
        } = self;
        Progress::Answered {
            reply: Reply::NoFile(name),
            takes: Takes::new(alloc),
        }
    }

    /// The pieces of the range without these components, and the holes that stand first.
    pub(crate) fn prepare(&self, layout: &Layout, failed: &Ids) -> Result<(Pieces, Got), Unread>
        requires asked { IsAsked self.now.range }
        ensures pieces { IfOk result (λ found. HasPieces self.now.range layout.now failed.now found.0) }
        ensures got { IfOk result (λ found. found.1 ≡ with_holes found.0 nothing_got) }
        ensures unread { IfErr result (IsUnread layout.now self.now.range failed.now) }
    {
        let pieces = self.pieces(layout, failed)?;
        let room = (self.range.end - self.range.start) as usize;
        let got = Got::begin(self.alloc, pieces.as_slice(), room)?;
        Ok((pieces, got))
    }

    /// The pieces of the range without these components.
    fn pieces(&self, layout: &Layout, failed: &Ids) -> Result<Pieces, Unread>
        requires asked { IsAsked self.now.range }
        ensures pieces { IfOk result (HasPieces self.now.range layout.now failed.now) }
        ensures unread { IfErr result (IsUnread layout.now self.now.range failed.now) }
    {
        let _components = layout.components();
        match pieces(self.alloc, layout, self.range, failed) {
            Ok(pieces) => Ok(pieces),
            Err(PieceError::AllOffline { byte }) => Err(Unread::Unanswered { byte }),
            Err(PieceError::AllFailed { byte }) => Err(Unread::Unanswered { byte }),
            Err(PieceError::NoMemory) => Err(Unread::NoMemory),
        }
    }
}
