//! The calls of targets that a copy makes.

ghost use Rattle.std.specs.Prelude.{◌≡◌, ◌+◌, ◌^◌, ◌<◌, ◌≤◌, OnOk, length};
ghost use Rattle.flr_base.specs.Bytes.{piece};
ghost use Rattle.object_target.specs.TargetState.{bytes_at, next_call};
ghost use Rattle.object_target.specs.Calls.{after_fence, after_read, after_reset, after_write, fence_answer, read_answer, reset_answer, write_answer};
ghost use Rattle.object_target.specs.Results.{IsAnswer};
ghost use Rattle.call_steps.specs.Servers.{CanCall, target_at};
ghost use Rattle.resync_copy.specs.TargetCalls.{IsAfterOn};

use flr_base::ObjectId;
use object_target::{TargetError, Targets};

/// Fences an object: it keeps this version from then on.
pub(crate) fn fence(
    targets: &mut Targets,
    object: ObjectId,
    version: u32,
) -> Result<(), TargetError>
    requires there { object.target < length targets.old }
    requires calls { CanCall targets.old }
    ensures answer { IsAnswer (fence_answer (target_at targets.old object.target)) (next_call (target_at targets.old object.target)) result }
    ensures after { IsAfterOn targets.old object.target result (after_fence (target_at targets.old object.target) object.number version) targets.new }
{
    let target = targets.at_mut(object.target);
    target.fence(object.number, version)
}

/// Resets an object: it has no bytes, and keeps this version from then on.
pub(crate) fn reset(
    targets: &mut Targets,
    object: ObjectId,
    version: u32,
) -> Result<(), TargetError>
    requires there { object.target < length targets.old }
    requires calls { CanCall targets.old }
    ensures answer { IsAnswer (reset_answer (target_at targets.old object.target) object.number version) (next_call (target_at targets.old object.target)) result }
    ensures after { IsAfterOn targets.old object.target result (after_reset (target_at targets.old object.target) object.number version) targets.new }
{
    let target = targets.at_mut(object.target);
    target.reset(object.number, version)
}

/// Reads the bytes of an object from the offset on over these.
pub(crate) fn read(
    targets: &mut Targets,
    object: ObjectId,
    offset: u64,
    bytes: &mut Vec<u8>,
) -> Result<(), TargetError>
    requires there { object.target < length targets.old }
    requires calls { CanCall targets.old }
    requires some { 0 < length bytes.old.items }
    requires most { length bytes.old.items ≤ 1048576 }
    ensures answer { IsAnswer (read_answer (target_at targets.old object.target)) (next_call (target_at targets.old object.target)) result }
    ensures after { IsAfterOn targets.old object.target result (after_read (target_at targets.old object.target) object.number offset (length bytes.old.items)) targets.new }
    ensures over { OnOk result (bytes.new.items ≡ piece (bytes_at (target_at targets.old object.target) object.number) offset (length bytes.old.items)) }
    ensures long { length bytes.new.items ≡ length bytes.old.items }
{
    let target = targets.at_mut(object.target);
    target.read(object.number, offset, bytes.as_mut_slice())
}

/// Writes these bytes over those of an object from the offset on.
pub(crate) fn write(
    targets: &mut Targets,
    object: ObjectId,
    offset: u64,
    bytes: &[u8],
    version: u32,
) -> Result<(), TargetError>
    requires there { object.target < length targets.old }
    requires calls { CanCall targets.old }
    requires some { 0 < length bytes.now }
    requires most { length bytes.now ≤ 1048576 }
    requires end { offset + length bytes.now < 2 ^ 40 }
    ensures answer { IsAnswer (write_answer (target_at targets.old object.target) object.number version) (next_call (target_at targets.old object.target)) result }
    ensures after { IsAfterOn targets.old object.target result (after_write (target_at targets.old object.target) object.number offset bytes.now version) targets.new }
{
    let target = targets.at_mut(object.target);
    target.write(object.number, offset, bytes, version)
}
