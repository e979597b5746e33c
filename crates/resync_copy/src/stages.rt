ghost use Rattle.std.specs.Prelude.{◌≡◌, ◌+◌, ◌≤◌, ◌++◌, ◌∷◌, [], ℕ, List, IfOk, Some, filter, length, option_map, position};
ghost use Rattle.flr_base.specs.Bytes.{zeros};
ghost use Rattle.extent_lock.specs.declared.lock.Lock.{Lock};
ghost use Rattle.object_target.specs.TargetState.{TargetState};
ghost use Rattle.meta_server.specs.Conditions.{HasGenerationRoom};
ghost use Rattle.meta_server.specs.Files.{MetaView};
ghost use Rattle.call_steps.specs.Servers.{servers, AreThere, CanCall};
ghost use Rattle.call_steps.specs.Steps.{HasMemory, Steps};
ghost use Rattle.resync_copy.specs.Copies.{chunks_from, copies_from, copy_by, fences_from, first_writer, leaves_at, resets_from, settled_objects, settles_from, stage_at};
ghost use Rattle.resync_copy.specs.Fitting.{IsChunk, IsCopying, IsSoundCopy, IsSoundStage, StageFits, StageTakesNoMemory};
ghost use Rattle.resync_copy.specs.Sizes.{IsSmall};
ghost use Rattle.resync_copy.specs.Parts.{is_open, overlaps_kept};
ghost use Rattle.resync_copy.specs.Views.{resets_of};
ghost use Rattle.resync_copy.specs.declared.phase.CopyAt.TheVariants as at;
ghost use Rattle.resync_copy.specs.declared.phase.CopyStage.TheVariants as stage;

use crate::calls::{fence, read, reset, write};
use crate::chunks::{bytes_of, chunks_from, copies_from, settled_from, spot_from, spot_to};
use crate::copy::CopyCall;
use crate::copying::Copying;
use crate::done::{clears, clears_none};
use crate::parts::{CopyObject, Destination, all_left, is_open, overlaps_kept};
use crate::phase::{Asked, Chunk, CopyStage};
use extent_lock::ExtentLocks;
use flr_base::{FailedCall, Ids, Lefts, NoMemory, ObjectId, Octets, Progress, Reply, Takes};
use layout_lease::LeaseKey;
use meta_server::{DoneStop, Meta};
use object_target::{TargetError, Targets};
use std::alloc::Global;

impl Asked {
    /// Makes the step of this stage.
    pub(crate) fn stage(
        self,
        stage: CopyStage,
        meta: &mut Meta,
        targets: &mut Targets,
        locks: &ExtentLocks,
    ) -> Progress<CopyCall>
        requires sound { IsSoundCopy (copy_by self (at.Copy stage)) }
        requires calls { CanCall targets.old }
        requires fits { StageFits stage (copy_by self (at.Copy stage)) (servers meta.old targets.old locks.now) }
        ensures step { Steps (copy_by self (at.Copy stage)) (servers meta.old targets.old locks.now) result (servers meta.new targets.new locks.now) (stage_at stage (copy_by self (at.Copy stage)) (servers meta.old targets.old locks.now)) }
        ensures free { StageTakesNoMemory stage → HasMemory result }
    {
        match stage {
            CopyStage::Fence { copying, next } => self.fence(copying, next, targets),
            CopyStage::Reset { copying, next } => self.reset(copying, next, targets),
            CopyStage::Settle { copying } => self.settle(copying, meta, locks),
            CopyStage::Take { chunk } => self.take(chunk, targets),
            CopyStage::Put { chunk, bytes } => self.put(chunk, bytes, targets),
            CopyStage::Done { key, cleared, left } => self.done(key, cleared, left, meta),
        }
    }

    /// Fences an object.
    fn fence(self, copying: Copying, next: usize, targets: &mut Targets) -> Progress<CopyCall>
        requires sound { IsSoundCopy (copy_by self (at.Copy (stage.Fence copying next))) }
        requires calls { CanCall targets.old }
        requires there { AreThere targets.old copying.side.layout.components }
        ensures step { (meta : MetaView) (locks : List Lock) → Steps (copy_by self (at.Copy (stage.Fence copying next))) (servers meta targets.old locks) result (servers meta targets.new locks) (stage_at (stage.Fence copying next) (copy_by self (at.Copy (stage.Fence copying next))) (servers meta targets.old locks)) }
    {
        let mut copying = copying;
        let part = copying.fence_at(next);
        let version = copying.version();
        match fence(targets, part.object, version) {
            Ok(()) => Progress::Going(self.call(fences_from(copying, next + 1))),
            Err(TargetError::Failed { call }) => {
                copying.leave_over(part.extent, failed_call(part.object, call));
                Progress::Going(self.call(fences_from(copying, next + 1)))
            }
            Err(TargetError::NoMemory) => {
                Progress::NoMemory(self.call(CopyStage::Fence { copying, next }))
            }
            Err(TargetError::Old { .. }) => unreachable!(),
        }
    }

    /// Resets an object.
    fn reset(self, copying: Copying, next: usize, targets: &mut Targets) -> Progress<CopyCall>
        requires sound { IsSoundCopy (copy_by self (at.Copy (stage.Reset copying next))) }
        requires calls { CanCall targets.old }
        requires there { AreThere targets.old copying.side.layout.components }
        ensures step { (meta : MetaView) (locks : List Lock) → Steps (copy_by self (at.Copy (stage.Reset copying next))) (servers meta targets.old locks) result (servers meta targets.new locks) (stage_at (stage.Reset copying next) (copy_by self (at.Copy (stage.Reset copying next))) (servers meta targets.old locks)) }
    {
        let mut copying = copying;
        let part = copying.reset_at(next);
        let version = copying.version();
        match reset(targets, part.object, version) {
            Ok(()) => Progress::Going(self.call(resets_from(copying, next + 1))),
            Err(TargetError::Old { kept: _ }) => {
                let next = clears_none(self.alloc, copying);
                Progress::Going(self.call(next))
            }
            Err(TargetError::Failed { call }) => {
                copying.leave_with(part.component, failed_call(part.object, call));
                Progress::Going(self.call(resets_from(copying, next + 1)))
            }
            Err(TargetError::NoMemory) => {
                Progress::NoMemory(self.call(CopyStage::Reset { copying, next }))
            }
        }
    }

    /// Waits until nobody else writes to a source, and reads the size of the file.
    fn settle(self, copying: Copying, meta: &Meta, locks: &ExtentLocks) -> Progress<CopyCall>
        requires sound { IsSoundCopy (copy_by self (at.Copy (stage.Settle copying))) }
        requires small { IsSmall copying.side.file meta.now }
        ensures step { (targets : List TargetState) → Steps (copy_by self (at.Copy (stage.Settle copying))) (servers meta.now targets locks.now) result (servers meta.now targets locks.now) (stage_at (stage.Settle copying) (copy_by self (at.Copy (stage.Settle copying))) (servers meta.now targets locks.now)) }
        ensures free { HasMemory result }
    {
        match first_writer(self.client, &copying, locks) {
            Some(holder) => Progress::Blocked {
                call: self.call(CopyStage::Settle { copying }),
                holder,
            },
            None => {
                let size = meta.size_of(copying.file());
                let next = settled_from(self.alloc, copying, size);
                Progress::Going(self.call(next))
            }
        }
    }

    /// Reads a chunk from its source.
    fn take(self, chunk: Chunk, targets: &mut Targets) -> Progress<CopyCall>
        requires sound { IsSoundCopy (copy_by self (at.Copy (stage.Take chunk))) }
        requires calls { CanCall targets.old }
        requires there { AreThere targets.old chunk.copying.side.layout.components }
        ensures step { (meta : MetaView) (locks : List Lock) → Steps (copy_by self (at.Copy (stage.Take chunk))) (servers meta targets.old locks) result (servers meta targets.new locks) (stage_at (stage.Take chunk) (copy_by self (at.Copy (stage.Take chunk))) (servers meta targets.old locks)) }
    {
        let range = bytes_of(&chunk);
        let spot = spot_from(&chunk);
        let Ok(failed) = with_failed(self.alloc, &chunk.failed, spot.component) else {
            return Progress::NoMemory(self.call(CopyStage::Take { chunk }));
        };
        let Ok(mut bytes) = zeros(self.alloc, (range.end - range.start) as usize) else {
            return Progress::NoMemory(self.call(CopyStage::Take { chunk }));
        };
        match read(targets, spot.object, spot.offset, &mut bytes) {
            Ok(()) => {
                let bytes = Octets::from_vec(bytes);
                Progress::Going(self.call(CopyStage::Put { chunk, bytes }))
            }
            Err(TargetError::Failed { call }) => {
                let chunk = again(chunk, failed, failed_call(spot.object, call));
                let next = chunks_from(self.alloc, chunk);
                Progress::Going(self.call(next))
            }
            Err(TargetError::NoMemory) => Progress::NoMemory(self.call(CopyStage::Take { chunk })),
            Err(TargetError::Old { .. }) => unreachable!(),
        }
    }

    /// Writes a chunk to its destination.
    fn put(self, chunk: Chunk, bytes: Octets, targets: &mut Targets) -> Progress<CopyCall>
        requires sound { IsSoundCopy (copy_by self (at.Copy (stage.Put chunk bytes))) }
        requires calls { CanCall targets.old }
        requires there { AreThere targets.old chunk.copying.side.layout.components }
        ensures step { (meta : MetaView) (locks : List Lock) → Steps (copy_by self (at.Copy (stage.Put chunk bytes))) (servers meta targets.old locks) result (servers meta targets.new locks) (stage_at (stage.Put chunk bytes) (copy_by self (at.Copy (stage.Put chunk bytes))) (servers meta targets.old locks)) }
    {
        let spot = spot_to(&chunk);
        let version = chunk.copying.version();
        match write(targets, spot.object, spot.offset, bytes.as_slice(), version) {
            Ok(()) => {
                let next = behind(self.alloc, chunk);
                Progress::Going(self.call(next))
            }
            Err(TargetError::Old { kept: _ }) => {
                let next = clears_none(self.alloc, chunk.copying);
                Progress::Going(self.call(next))
            }
            Err(TargetError::Failed { call }) => {
                let next = leaves(self.alloc, chunk, failed_call(spot.object, call));
                Progress::Going(self.call(next))
            }
            Err(TargetError::NoMemory) => {
                Progress::NoMemory(self.call(CopyStage::Put { chunk, bytes }))
            }
        }
    }

    /// Clears these destinations, and answers.
    fn done(self, key: LeaseKey, cleared: Ids, left: Lefts, meta: &mut Meta) -> Progress<CopyCall>
        requires sound { IsSoundCopy (copy_by self (at.Copy (stage.Done key cleared left))) }
        requires generations { HasGenerationRoom meta.old }
        ensures step { (targets : List TargetState) (locks : List Lock) → Steps (copy_by self (at.Copy (stage.Done key cleared left))) (servers meta.old targets locks) result (servers meta.new targets locks) (stage_at (stage.Done key cleared left) (copy_by self (at.Copy (stage.Done key cleared left))) (servers meta.old targets locks)) }
        ensures free { HasMemory result }
    {
        match meta.copy_done(key, &cleared) {
            Ok(()) => Progress::Answered {
                reply: Reply::Copied { cleared, left },
                takes: Takes::new(self.alloc),
            },
            Err(DoneStop::Broken { step }) => Progress::Answered {
                reply: Reply::Broken(step),
                takes: Takes::new(self.alloc),
            },
            Err(DoneStop::Blocked { key, holder }) => Progress::Blocked {
                call: self.call(CopyStage::Done { key, cleared, left }),
                holder,
            },
        }
    }
}

/// With the fences up to this one made: this one, or behind the last the resets.
pub(crate) fn fences_from(copying: Copying, next: usize) -> CopyStage
    ensures next { result ≡ fences_from copying next }
    ensures sound { IsCopying copying → IsSoundStage result }
{
    if next < copying.fences().len() {
        CopyStage::Fence { copying, next }
    } else {
        resets_from(copying, 0)
    }
}

/// With the resets up to this one made: the next one of a destination that isn't left.
fn resets_from(copying: Copying, place: usize) -> CopyStage
    requires { place ≤ length (resets_of copying) }
    ensures next { result ≡ resets_from copying place }
    ensures sound { IsCopying copying → IsSoundStage result }
{
    let (_, rest) = copying.resets().split_at(place);
    match first_open(rest, copying.destinations()) {
        Some(behind) => CopyStage::Reset {
            copying,
            next: place + behind,
        },
        None => settles_from(copying),
    }
}

/// The place of the first object whose component isn't left.
fn first_open(objects: &[CopyObject], destinations: &[Destination]) -> Option<usize>
    ensures { result ≡ position (λ o. is_open destinations.now o.component) objects.now }
{
    objects
        .iter()
        .position(|object| is_open(destinations, object.component))
}

/// With all resets made: settle, unless every destination is left.
fn settles_from(copying: Copying) -> CopyStage
    ensures next { result ≡ settles_from copying }
    ensures sound { IsCopying copying → IsSoundStage result }
{
    if all_left(copying.destinations()) {
        clears(copying)
    } else {
        CopyStage::Settle { copying }
    }
}

/// The holder of the first of another client's PW, by object, on the objects of components that
/// overlap a destination that isn't left.
fn first_writer(client: u8, copying: &Copying, locks: &ExtentLocks) -> Option<u8>
    ensures { result ≡ option_map (λ told. told.0) (first_writer locks.now client (settled_objects copying.now)) }
{
    writer_among(client, copying.fences(), copying.destinations(), locks)
}

/// The same, of these objects and destinations.
fn writer_among(
    client: u8,
    objects: &[CopyObject],
    destinations: &[Destination],
    locks: &ExtentLocks,
) -> Option<u8>
    ensures { result ≡ option_map (λ told. told.0) (first_writer locks.now client (filter (λ o. overlaps_kept destinations.now o.extent) objects.now)) }
{
    for object in objects {
        if overlaps_kept(destinations, object.extent) {
            if let Some((holder, _)) = locks.writer_but(client, object.object) {
                return Some(holder);
            }
        }
    }
    None
}

/// The components that failed, and one more.
pub(crate) fn with_failed(alloc: Global, failed: &Ids, component: u32) -> Result<Ids, NoMemory>
    ensures { IfOk result (λ ids. ids ≡ failed.now ++ component ∷ []) }
{
    let mut ids = failed.copy()?;
    ids.push(component)?;
    Ok(ids)
}

/// So many zeros.
pub(crate) fn zeros(alloc: Global, length: usize) -> Result<Vec<u8>, NoMemory>
    ensures { IfOk result (λ bytes. bytes.items ≡ zeros length) }
{
    let mut bytes = Vec::new(alloc);
    bytes.resize(length, 0)?;
    Ok(bytes)
}

/// The call of the target that has the object.
pub(crate) fn failed_call(object: ObjectId, call: u32) -> FailedCall
    ensures { result ≡ record { target = object.target; call = call } }
{
    FailedCall {
        target: object.target,
        call,
    }
}

/// The chunk once more, without the components that failed.
fn again(chunk: Chunk, failed: Ids, call: FailedCall) -> Chunk
    ensures { result ≡ record chunk { failed = failed; last = Some call } }
{
    let Chunk {
        copying,
        size,
        place,
        number,
        failed: _,
        last: _,
    } = chunk;
    Chunk {
        copying,
        size,
        place,
        number,
        failed,
        last: Some(call),
    }
}

/// What comes next behind this chunk.
fn behind(alloc: Global, chunk: Chunk) -> CopyStage
    requires sound { IsChunk chunk }
    ensures next { result ≡ chunks_from chunk.size chunk.place chunk.failed chunk.last (chunk.number + 1) chunk.copying }
    ensures sound { IsSoundStage result }
{
    let Chunk {
        copying,
        size,
        place,
        number,
        failed,
        last,
    } = chunk;
    let number = number + 1;
    let chunk = Chunk {
        copying,
        size,
        place,
        number,
        failed,
        last,
    };
    chunks_from(alloc, chunk)
}

/// What comes next with the chunk's destination left for this call.
fn leaves(alloc: Global, chunk: Chunk, call: FailedCall) -> CopyStage
    requires sound { IsChunk chunk }
    ensures next { result ≡ copies_from chunk.size (chunk.place + 1) (leaves_at chunk.copying chunk.place call) }
    ensures sound { IsSoundStage result }
{
    let Chunk {
        mut copying,
        size,
        place,
        number: _,
        failed: _,
        last: _,
    } = chunk;
    copying.leave_at(place, call);
    copies_from(alloc, copying, size, place + 1)
}
