ghost use Rattle.std.specs.Prelude.{◌≡◌, ◌≢◌, ℕ, ◌+◌, ◌-◌, ◌^◌, ◌<◌, ◌≤◌, [], ◌∷◌, ◌++◌, true, false, length, vec_len, vec_capacity, IfOk, OnOk, OnErr, is_some};
ghost use Rattle.std.specs.Option.{option_copied, option_map};
ghost use Rattle.flr_base.specs.Bytes.{piece};
ghost use Rattle.object_target.specs.TargetState.{new_target, next_call, kept_at, bytes_at, version_at};
ghost use Rattle.object_target.specs.Calls.{answer_by, has_effect, read_answer, after_read, write_answer, after_write, fence_answer, after_fence, reset_answer, after_reset, punch_answer, after_punch, after_rot};
ghost use Rattle.object_target.specs.Results.{call_result, IsAnswer, IsAfter, IsRotAnswer, IsAfterRot};

use crate::call::{CallAnswer, CallEntry, CallKind, RotError, TargetError};
use crate::fail::{Fail, FailKind, Failures};
use crate::objects::Objects;
use flr_base::NoMemory;
use object_pages::Content;
use std::alloc::Global;
use std::marker::Model;

/// A storage target. It keeps objects with a layout version each, counts its calls from 1, and logs
/// them. A call with an older version than the object keeps is refused, so that a fence shuts out
/// clients with an older layout. That objects keep a layout version is this project's own.
#[derive(Drop)]
pub struct Target {
    id: u8,
    failures: Failures,
    objects: Objects,
    calls: Vec<CallEntry>,
}

impl Model for Target {
    ghost use Rattle.object_target.specs.TargetState.{TargetState};

    ghost Value = { TargetState };

    ghost view = { λ target. record { id = target.id; fails = target.failures; objects = target.objects; calls = target.calls.items } };
}

impl Target {
    /// A target with no objects and no calls, and with those of `fails` that name it.
    pub fn new(alloc: Global, id: u8, fails: &[Fail]) -> Result<Target, NoMemory>
        ensures empty { IfOk result (λ target. target ≡ new_target id fails.now) }
    {
        Ok(Target {
            id,
            failures: Failures::of(alloc, id, fails)?,
            objects: Objects::new(alloc),
            calls: Vec::new(alloc),
        })
    }

    /// Reads the bytes of an object from `offset` on into `buf`, zeros past its end. It looks at no
    /// version. Without an Ok `buf` is as before.
    pub fn read(&mut self, object: u32, offset: u64, buf: &mut [u8]) -> Result<(), TargetError>
        requires next { next_call self.old < 2 ^ 32 - 8388608 }
        requires some { 0 < length buf.old }
        requires most { length buf.old ≤ 1048576 }
        ensures answer { IsAnswer (read_answer self.old) (next_call self.old) result }
        ensures after { IsAfter self.old result (after_read self.old object offset (length buf.old)) self.new }
        ensures filled { OnOk result (buf.new ≡ piece (bytes_at self.old object) offset (length buf.old)) }
        ensures left { OnErr result (buf.new ≡ buf.old) }
        ensures objects { self.new.objects ≡ self.old.objects }
    {
        self.calls.reserve(1)?;
        let call = self.calls.len() as u32 + 1;
        let fail = self.failures.kind(call);
        if fail.is_none() {
            self.objects.read(object, offset, buf);
        }
        let answer = answer_to(fail, false, 0);
        let entry = CallEntry {
            kind: CallKind::Read,
            object,
            offset,
            length: buf.len() as u32,
            version: 0,
            answer,
        };
        log(&mut self.calls, entry);
        result_of(answer, call)
    }

    /// Writes `piece` over the bytes of an object from `offset` on, with zeros between its old end
    /// and `offset`. The version that it keeps stays.
    ///
    /// Old where the object keeps a greater version than `version`.
    pub fn write(
        &mut self,
        object: u32,
        offset: u64,
        piece: &[u8],
        version: u32,
    ) -> Result<(), TargetError>
        requires next { next_call self.old < 2 ^ 32 - 8388608 }
        requires some { 0 < length piece.now }
        requires most { length piece.now ≤ 1048576 }
        requires end { offset + length piece.now < 2 ^ 40 }
        ensures answer { IsAnswer (write_answer self.old object version) (next_call self.old) result }
        ensures after { IsAfter self.old result (after_write self.old object offset piece.now version) self.new }
        ensures others { (q : ℕ) → q ≢ object → kept_at self.new q ≡ kept_at self.old q }
    {
        self.calls.reserve(1)?;
        let call = self.calls.len() as u32 + 1;
        let fail = self.failures.kind(call);
        let kept = self.objects.version(object);
        if takes_effect(fail, version < kept) {
            self.objects.write(object, offset, piece)?;
        }
        let answer = answer_to(fail, version < kept, kept);
        let entry = CallEntry {
            kind: CallKind::Write,
            object,
            offset,
            length: piece.len() as u32,
            version,
            answer,
        };
        log(&mut self.calls, entry);
        result_of(answer, call)
    }

    /// Raises the version that an object keeps to `version` where it is less. It is never Old.
    pub fn fence(&mut self, object: u32, version: u32) -> Result<(), TargetError>
        requires next { next_call self.old < 2 ^ 32 - 8388608 }
        ensures answer { IsAnswer (fence_answer self.old) (next_call self.old) result }
        ensures after { IsAfter self.old result (after_fence self.old object version) self.new }
        ensures others { (q : ℕ) → q ≢ object → kept_at self.new q ≡ kept_at self.old q }
    {
        self.calls.reserve(1)?;
        let call = self.calls.len() as u32 + 1;
        let fail = self.failures.kind(call);
        if takes_effect(fail, false) {
            self.objects.fence(object, version)?;
        }
        let answer = answer_to(fail, false, 0);
        let entry = CallEntry {
            kind: CallKind::Fence,
            object,
            offset: 0,
            length: 0,
            version,
            answer,
        };
        log(&mut self.calls, entry);
        result_of(answer, call)
    }

    /// Drops all bytes of an object, which keeps `version` from then on.
    ///
    /// Old where the object keeps a greater version than `version`.
    pub fn reset(&mut self, object: u32, version: u32) -> Result<(), TargetError>
        requires next { next_call self.old < 2 ^ 32 - 8388608 }
        ensures answer { IsAnswer (reset_answer self.old object version) (next_call self.old) result }
        ensures after { IsAfter self.old result (after_reset self.old object version) self.new }
        ensures others { (q : ℕ) → q ≢ object → kept_at self.new q ≡ kept_at self.old q }
    {
        self.calls.reserve(1)?;
        let call = self.calls.len() as u32 + 1;
        let fail = self.failures.kind(call);
        let kept = self.objects.version(object);
        if takes_effect(fail, version < kept) {
            self.objects.reset(object, version)?;
        }
        let answer = answer_to(fail, version < kept, kept);
        let entry = CallEntry {
            kind: CallKind::Reset,
            object,
            offset: 0,
            length: 0,
            version,
            answer,
        };
        log(&mut self.calls, entry);
        result_of(answer, call)
    }

    /// Cuts the bytes of an object at `offset` where it is longer. The version that it keeps stays,
    /// and an object that isn't kept stays so.
    ///
    /// Old where the object keeps a greater version than `version`.
    pub fn punch(&mut self, object: u32, offset: u64, version: u32) -> Result<(), TargetError>
        requires next { next_call self.old < 2 ^ 32 - 8388608 }
        ensures answer { IsAnswer (punch_answer self.old object version) (next_call self.old) result }
        ensures after { IsAfter self.old result (after_punch self.old object offset version) self.new }
        ensures others { (q : ℕ) → q ≢ object → kept_at self.new q ≡ kept_at self.old q }
    {
        self.calls.reserve(1)?;
        let call = self.calls.len() as u32 + 1;
        let fail = self.failures.kind(call);
        let kept = self.objects.version(object);
        if takes_effect(fail, version < kept) {
            self.objects.cut(object, offset);
        }
        let answer = answer_to(fail, version < kept, kept);
        let entry = CallEntry {
            kind: CallKind::Punch,
            object,
            offset,
            length: 0,
            version,
            answer,
        };
        log(&mut self.calls, entry);
        result_of(answer, call)
    }

    /// Overwrites one byte of an object behind everybody's back, with zeros between its old end and
    /// `offset`. No call is counted, and the version that it keeps stays.
    pub fn rot(&mut self, object: u32, offset: u64, byte: u8) -> Result<(), RotError>
        requires end { offset + 1 < 2 ^ 40 }
        ensures answer { IsRotAnswer (kept_at self.old object) result }
        ensures after { IsAfterRot self.old result (after_rot self.old object offset byte) self.new }
        ensures others { (q : ℕ) → q ≢ object → kept_at self.new q ≡ kept_at self.old q }
    {
        if !self.objects.keeps(object) {
            return Err(RotError::NoObject);
        }
        self.objects.write(object, offset, &[byte])?;
        Ok(())
    }

    /// The calls so far, in their order.
    pub fn calls(&self) -> &[CallEntry]
        ensures same { result.now ≡ self.now.calls }
    {
        self.calls.as_slice()
    }

    /// The version that an object keeps, 0 for one that was never written, fenced or reset.
    pub fn version(&self, object: u32) -> u32
        ensures kept { result ≡ version_at self.now object }
    {
        self.objects.version(object)
    }

    /// The bytes of an object. None where it was never written, fenced or reset.
    pub fn content(&self, object: u32) -> Option<&Content>
        ensures kept { option_copied result ≡ option_map (λ kept. kept.content) (kept_at self.now object) }
    {
        self.objects.content(object)
    }
}

/// What a call answers that is listed to fail so, and that is older than the kept version or not.
fn answer_to(fail: Option<FailKind>, is_old: bool, kept: u32) -> CallAnswer
    ensures { result ≡ answer_by fail is_old kept }
{
    match fail {
        Some(_) => CallAnswer::Failed,
        None if is_old => CallAnswer::Old { kept },
        None => CallAnswer::Ok,
    }
}

/// Whether such a call does what it is for.
fn takes_effect(fail: Option<FailKind>, is_old: bool) -> bool
    ensures { result ≡ has_effect fail is_old }
{
    match fail {
        Some(FailKind::Refused) => false,
        Some(FailKind::Lost) | None => !is_old,
    }
}

/// The answer of the call with this number, as the caller gets it.
fn result_of(answer: CallAnswer, call: u32) -> Result<(), TargetError>
    ensures { result ≡ call_result answer call }
{
    match answer {
        CallAnswer::Ok => Ok(()),
        CallAnswer::Old { kept } => Err(TargetError::Old { kept }),
        CallAnswer::Failed => Err(TargetError::Failed { call }),
    }
}

/// Appends an entry, for which there is room.
fn log(calls: &mut Vec<CallEntry>, entry: CallEntry)
    requires room { vec_len calls.old < vec_capacity calls.old }
    ensures appended { calls.new.items ≡ calls.old.items ++ entry ∷ [] }
{
    let _pushed = calls.push(entry);
}
