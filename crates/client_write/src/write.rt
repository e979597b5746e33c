ghost use Rattle.std.specs.Prelude.{◌≡◌, ◌↔◌, IsTrue, ◌+◌, ◌-◌, ◌^◌, ◌<◌, ◌≤◌, ◌++◌, ◌∷◌, [], ℕ, true, List, length, take, drop, is_some, nat_lt, slice_set, IfOk, OnOk, OnErr};
ghost use Rattle.layout_lease.specs.Clients.{IsClient};
ghost use Rattle.extent_lock.specs.declared.lock.Lock.{Lock};
ghost use Rattle.extent_lock.specs.Extents.{blocked_by, blocker};
ghost use Rattle.object_target.specs.Calls.{after_write, write_answer};
ghost use Rattle.object_target.specs.TargetState.{TargetState};
ghost use Rattle.meta_server.specs.Conditions.{HasGenerationRoom, HasObjectRoom, MayShare};
ghost use Rattle.meta_server.specs.Files.{MetaView};
ghost use Rattle.meta_server.specs.Opening.{write_opens};
ghost use Rattle.call_steps.specs.Pieces.{object_of, piece_at};
ghost use Rattle.call_steps.specs.Servers.{servers, next_call_on, target_at, AreThere, CanCall};
ghost use Rattle.call_steps.specs.Steps.{HasMemory, Steps};
ghost use Rattle.client_write.specs.Fitting.{FitsAt, HasPieces, IsAsked, IsSoundAt, IsSoundWrite, TakesNoMemory, WriteFits};
ghost use Rattle.client_write.specs.Parts.{MayBeWritten, came_of};
ghost use Rattle.client_write.specs.Refusals.{IsPlainRefusal};
ghost use Rattle.client_write.specs.Writes.{after_send, bytes_of, commit_step, lock_for, lock_step, new_write, range_of, reply_of, send_step, write_at, write_by, write_step};
ghost use Rattle.client_write.specs.declared.phase.WriteAt.TheVariants as at;

use crate::asking::has_room;
use crate::phase::{Asked, Came, Sent, WriteAt};
use crate::writing::Writing;
use call_steps::{are_there, can_call};
use extent_lock::{ExtentLocks, LockError, Mode};
use flr_base::{FailedCall, Name, NoMemory, ObjectId, Octets, Progress, Range, Reply, Takes};
use meta_server::{Gone, Meta, MetaStop, Opened};
use mirror_select::Piece;
use object_target::{TargetError, Targets};
use std::alloc::Global;
use std::marker::Model;

/// A write of bytes to a file, one step at a time: open, a lock for each piece, a send for each,
/// commit, unlock. Where its first piece is too old, or its file is gone, it opens again.
#[derive(Drop)]
pub struct WriteCall {
    asked: Asked,
    at: WriteAt,
}

impl Model for WriteCall {
    ghost use Rattle.client_write.specs.Calls.{WriteView};
    ghost use Rattle.client_write.specs.Writes.{write_by};
    ghost use Rattle.client_write.specs.Fitting.{IsSoundWrite};

    ghost Value = { WriteView };

    ghost view = { λ a. write_by a.asked a.at };

    ghost invariant = { λ a. IsSoundWrite (write_by a.asked a.at) };
}

impl WriteCall {
    /// A write of the bytes, 1 to 1048576, to the offset, in bytes, before its first step.
    pub fn new(alloc: Global, client: u8, name: Name, offset: u64, bytes: Octets) -> WriteCall
        requires client { IsClient client }
        requires offset { offset ≤ 2 ^ 40 }
        requires some { 0 < length bytes }
        requires most { length bytes ≤ 1048576 }
        ensures new { result ≡ new_write client name offset bytes }
    {
        WriteCall {
            asked: Asked {
                alloc,
                client,
                name,
                offset,
                bytes,
            },
            at: WriteAt::Open,
        }
    }

    /// Whether the next step may be made.
    pub fn may_step(&self, meta: &Meta, targets: &Targets, _locks: &ExtentLocks) -> bool
        ensures says { IsTrue result ↔ WriteFits self.now (servers meta.now targets.now _locks.now) }
    {
        can_call(targets) && self.asked.fits(&self.at, meta, targets)
    }

    /// Makes the next step, at this place. A step that is blocked, or for which memory runs out,
    /// hands the call back, and leaves everything as it was. An open that is refused with an answer
    /// that names no file, a lock that a holder is in the way of, commit, and the steps that only give
    /// locks back take no memory.
    pub fn step(
        self,
        meta: &mut Meta,
        targets: &mut Targets,
        locks: &mut ExtentLocks,
        step: u32,
    ) -> Progress<WriteCall>
        requires fits { WriteFits self (servers meta.old targets.old locks.old) }
        ensures step { Steps self (servers meta.old targets.old locks.old) result (servers meta.new targets.new locks.new) (write_step self step (servers meta.old targets.old locks.old)) }
        ensures free { TakesNoMemory self.at self step (servers meta.old targets.old locks.old) → HasMemory result }
    {
        let WriteCall { asked, at } = self;
        match at {
            WriteAt::Open => asked.open(meta, step),
            WriteAt::Lock { writing, next } => asked.lock(writing, next, locks),
            WriteAt::Send { writing, next } => asked.send(writing, next, meta, targets),
            WriteAt::Commit { writing, end, sent } => asked.commit(writing, end, sent, meta),
            WriteAt::UnlockAgain => {
                locks.unlock(asked.client);
                Progress::Going(asked.call(WriteAt::Open))
            }
            WriteAt::Unlock => {
                locks.unlock(asked.client);
                Progress::Ended
            }
        }
    }
}

impl Asked {
    /// Whether the file may be opened.
    fn may_open(&self, meta: &Meta) -> bool
        ensures { IsTrue result ↔ (MayShare self.now.client self.now.name meta.now × HasGenerationRoom meta.now × HasObjectRoom meta.now) }
    {
        meta.may_share(self.client, &self.name) && has_room(meta)
    }

    /// Whether the servers are as a step wants them that does this.
    fn fits(&self, at: &WriteAt, meta: &Meta, targets: &Targets) -> bool
        ensures { (locks : List Lock) → IsTrue result ↔ FitsAt at.now (write_by self.now at.now) (servers meta.now targets.now locks) }
    {
        match at {
            WriteAt::Open => self.may_open(meta),
            WriteAt::Send { writing, next: _ } => are_there(targets, &writing.opened().layout),
            WriteAt::Lock { .. }
            | WriteAt::Commit { .. }
            | WriteAt::UnlockAgain
            | WriteAt::Unlock => true,
        }
    }

    /// The call, with this to do next.
    fn call(self, at: WriteAt) -> WriteCall
        requires sound { IsSoundWrite (write_by self at) }
        ensures same { result ≡ write_by self at }
    {
        WriteCall { asked: self, at }
    }

    /// The bytes of the file that are written.
    fn range(&self) -> Range
        requires below { self.now.offset ≤ 2 ^ 40 }
        requires most { length self.now.bytes ≤ 1048576 }
        ensures same { result ≡ range_of (write_by self.now at.Open) }
    {
        Range {
            start: self.offset,
            end: self.offset + self.bytes.len() as u64,
        }
    }

    /// Opens the file, with the intent where the range isn't ready.
    fn open(self, meta: &mut Meta, step: u32) -> Progress<WriteCall>
        requires sound { IsSoundWrite (write_by self at.Open) }
        requires share { MayShare self.client self.name meta.old }
        requires generations { HasGenerationRoom meta.old }
        requires objects { HasObjectRoom meta.old }
        ensures step { (targets : List TargetState) (locks : List Lock) → Steps (write_by self at.Open) (servers meta.old targets locks) result (servers meta.new targets locks) (write_at at.Open (write_by self at.Open) step (servers meta.old targets locks)) }
        ensures free { IsPlainRefusal (write_opens self.client self.name (range_of (write_by self at.Open)) step meta.old) → HasMemory result }
    {
        let range = self.range();
        match meta.open_write(self.client, &self.name, range, step) {
            Ok(opened) => {
                let writing = Writing::new(opened, range);
                Progress::Going(self.call(WriteAt::Lock { writing, next: 0 }))
            }
            Err(MetaStop::Refused(reply)) => Progress::Answered {
                reply,
                takes: Takes::new(self.alloc),
            },
            Err(MetaStop::Blocked { holder }) => Progress::Blocked {
                call: self.call(WriteAt::Open),
                holder,
            },
            Err(MetaStop::NoMemory) => Progress::NoMemory(self.call(WriteAt::Open)),
        }
    }

    /// Asks for the extent lock of the next piece.
    fn lock(self, writing: Writing, next: usize, locks: &mut ExtentLocks) -> Progress<WriteCall>
        requires sound { IsSoundWrite (write_by self (at.Lock writing next)) }
        ensures step { (meta : MetaView) (targets : List TargetState) → Steps (write_by self (at.Lock writing next)) (servers meta targets locks.old) result (servers meta targets locks.new) (lock_step (write_by self (at.Lock writing next)) (servers meta targets locks.old) writing next) }
        ensures free { is_some (blocker locks.old (lock_for (write_by self (at.Lock writing next)) (piece_at writing.pieces next))) ≡ true → HasMemory result }
    {
        let (piece, more) = writing.piece(next);
        match self.lock_piece(piece, locks) {
            Ok(()) if more => Progress::Going(self.call(WriteAt::Lock {
                writing,
                next: next + 1,
            })),
            Ok(()) => Progress::Going(self.call(WriteAt::Send { writing, next: 0 })),
            Err(LockError::Blocked { holder, range: _ }) => Progress::Blocked {
                call: self.call(WriteAt::Lock { writing, next }),
                holder,
            },
            Err(LockError::NoMemory) => {
                Progress::NoMemory(self.call(WriteAt::Lock { writing, next }))
            }
        }
    }

    /// Asks for the extent lock of a piece.
    fn lock_piece(&self, piece: Piece, locks: &mut ExtentLocks) -> Result<(), LockError>
        requires piece { MayBeWritten (range_of (write_by self.now at.Open)) piece }
        ensures granted { OnOk result (locks.new ≡ locks.old ++ lock_for (write_by self.now at.Open) piece ∷ []) }
        ensures unchanged { OnErr result (locks.new ≡ locks.old) }
        ensures blocked { blocked_by result ≡ blocker locks.old (lock_for (write_by self.now at.Open) piece) }
    {
        let range = Range {
            start: piece.offset,
            end: piece.offset + (piece.range.end - piece.range.start),
        };
        locks.try_lock(self.client, object_of(piece), range, Mode::PW)
    }

    /// Sends the next piece.
    fn send(
        self,
        writing: Writing,
        next: usize,
        meta: &Meta,
        targets: &mut Targets,
    ) -> Progress<WriteCall>
        requires sound { IsSoundWrite (write_by self (at.Send writing next)) }
        requires calls { CanCall targets.old }
        requires there { AreThere targets.old writing.opened.layout.components }
        ensures step { (locks : List Lock) → Steps (write_by self (at.Send writing next)) (servers meta.now targets.old locks) result (servers meta.now targets.new locks) (send_step (write_by self (at.Send writing next)) (servers meta.now targets.old locks) writing next) }
    {
        let (piece, more) = writing.piece(next);
        let version = writing.opened().layout.generation();
        let Ok(came) = self.send_piece(piece, version, targets) else {
            return Progress::NoMemory(self.call(WriteAt::Send { writing, next }));
        };
        let evicted = meta.last_evict(self.client);
        let at = self.after_send(writing, next, piece, more, came, evicted);
        Progress::Going(self.call(at))
    }

    /// What a write does next, once the piece at this place is sent.
    fn after_send(
        &self,
        writing: Writing,
        next: usize,
        piece: Piece,
        more: bool,
        came: Came,
        evicted: Option<u32>,
    ) -> WriteAt
        requires asked { IsAsked (range_of (write_by self.now at.Open)) }
        requires has { HasPieces (range_of (write_by self.now at.Open)) writing }
        requires there { next < length writing.pieces }
        requires piece { piece ≡ piece_at writing.pieces next }
        requires fits { next + 1 < 2 ^ 64 }
        requires more { more ≡ nat_lt (next + 1) (length writing.pieces) }
        ensures next { result ≡ after_send (write_by self.now at.Open) evicted writing next came }
        ensures sound { IsSoundAt result (range_of (write_by self.now at.Open)) }
    {
        match came {
            Came::Accepted if more => WriteAt::Send {
                writing,
                next: next + 1,
            },
            Came::Accepted => {
                let end = self.range().end;
                let sent = Sent::All;
                WriteAt::Commit { writing, end, sent }
            }
            Came::TooOld if next == 0 => WriteAt::UnlockAgain,
            Came::TooOld => {
                let end = piece.range.start;
                let step = evicted.unwrap_or(0);
                let sent = Sent::Old {
                    accepted: next,
                    step,
                };
                WriteAt::Commit { writing, end, sent }
            }
            Came::Failed { call } => {
                let end = piece.range.end;
                let sent = Sent::Failed {
                    accepted: next,
                    call,
                };
                WriteAt::Commit { writing, end, sent }
            }
        }
    }

    /// Writes a piece to its object.
    fn send_piece(
        &self,
        piece: Piece,
        version: u32,
        targets: &mut Targets,
    ) -> Result<Came, NoMemory>
        requires asked { IsAsked (range_of (write_by self.now at.Open)) }
        requires piece { MayBeWritten (range_of (write_by self.now at.Open)) piece }
        requires calls { CanCall targets.old }
        requires there { (object_of piece).target < length targets.old }
        ensures came { IfOk result (λ came. came ≡ came_of (next_call_on targets.old (object_of piece).target) (write_answer (target_at targets.old (object_of piece).target) (object_of piece).number version)) }
        ensures sent { OnOk result (targets.new ≡ slice_set targets.old (object_of piece).target (after_write (target_at targets.old (object_of piece).target) (object_of piece).number piece.offset (bytes_of (write_by self.now at.Open) piece) version)) }
        ensures unchanged { OnErr result (targets.new ≡ targets.old) }
    {
        let object = object_of(piece);
        let bytes = self.bytes_of(piece.range);
        let target = targets.at_mut(object.target);
        match target.write(object.number, piece.offset, bytes, version) {
            Ok(()) => Ok(Came::Accepted),
            Err(TargetError::Old { kept: _ }) => Ok(Came::TooOld),
            Err(TargetError::Failed { call }) => {
                let call = FailedCall {
                    target: object.target,
                    call,
                };
                Ok(Came::Failed { call })
            }
            Err(TargetError::NoMemory) => Err(NoMemory),
        }
    }

    /// The bytes of a piece.
    fn bytes_of(&self, piece: Range) -> &[u8]
        requires low { self.now.offset ≤ piece.start }
        requires some { piece.start ≤ piece.end }
        requires high { piece.end ≤ self.now.offset + length self.now.bytes }
        ensures bytes { result.now ≡ take (piece.end - piece.start) (drop (piece.start - self.now.offset) self.now.bytes) }
        ensures count { length result.now ≡ piece.end - piece.start }
    {
        let start = (piece.start - self.offset) as usize;
        let (_, rest) = self.bytes.as_slice().split_at(start);
        let (bytes, _) = rest.split_at((piece.end - piece.start) as usize);
        bytes
    }

    /// Raises the size, and fixes the answer.
    fn commit(self, writing: Writing, end: u64, sent: Sent, meta: &mut Meta) -> Progress<WriteCall>
        requires sound { IsSoundWrite (write_by self (at.Commit writing end sent)) }
        ensures step { (targets : List TargetState) (locks : List Lock) → Steps (write_by self (at.Commit writing end sent)) (servers meta.old targets locks) result (servers meta.new targets locks) (commit_step (write_by self (at.Commit writing end sent)) (servers meta.old targets locks) writing end sent) }
        ensures free { HasMemory result }
    {
        let Opened {
            file,
            cookie,
            layout: _,
            size: _,
        } = writing.into_opened();
        match meta.commit(file, cookie, end) {
            Ok(()) => Progress::Fixed {
                takes: Takes::new(self.alloc),
                call: self.call(WriteAt::Unlock),
                reply: sent.reply(),
            },
            Err(Gone) => Progress::Going(self.call(WriteAt::UnlockAgain)),
        }
    }
}

impl Sent {
    /// The answer of a write.
    fn reply(self) -> Reply
        ensures { result ≡ reply_of self }
    {
        match self {
            Sent::All => Reply::Written,
            Sent::Failed { accepted: _, call } => Reply::WriteFault(call),
            Sent::Old { accepted: _, step } => Reply::Evicted(step),
        }
    }
}

/// The object of a piece that has one.
fn object_of(piece: Piece) -> ObjectId
    requires { is_some piece.object ≡ true }
    ensures { result ≡ object_of piece }
{
    piece.object.unwrap()
}
