ghost use Rattle.std.specs.Prelude.{◌≡◌, ◌+◌, ◌^◌, ◌<◌, true, length, IfOk, OnOk, OnErr};
ghost use Rattle.mirror_admin.specs.Rotting.{is_kept, rot_reply, rotted};

use flr_base::{NoMemory, ObjectId, Reply};
use object_target::{RotError, Targets};

/// Overwrites one byte of an object behind everybody's back, with zeros between its old end and the
/// offset, in bytes. No call of the target is counted, and the version that the object keeps stays.
///
/// The answer is `NoObject` exactly where the object's target keeps no such object, and nothing
/// changes then; else it is `Rotted`. Want of memory comes only where the object is kept.
pub fn rot(
    targets: &mut Targets,
    object: ObjectId,
    offset: u64,
    byte: u8,
) -> Result<Reply, NoMemory>
    requires there { object.target < length targets.old }
    requires end { offset + 1 < 2 ^ 40 }
    ensures answered { IfOk result (λ reply. reply ≡ rot_reply (is_kept object targets.old)) }
    ensures rotted { OnOk result (targets.new ≡ rotted object offset byte targets.old) }
    ensures kept { OnErr result (is_kept object targets.old ≡ true) }
    ensures unchanged { OnErr result (targets.new ≡ targets.old) }
{
    match targets
        .at_mut(object.target)
        .rot(object.number, offset, byte)
    {
        Ok(()) => Ok(Reply::Rotted),
        Err(RotError::NoObject) => Ok(Reply::NoObject),
        Err(RotError::NoMemory) => Err(NoMemory),
    }
}
