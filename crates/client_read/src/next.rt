ghost use Rattle.std.specs.Prelude.{◌≡◌, ◌≤◌, length};
ghost use Rattle.flr_base.specs.declared.reply.Range.{Range as AnyRange};
ghost use Rattle.client_read.specs.Fitting.{HasPieces, IsSoundAt};
ghost use Rattle.client_read.specs.Pieces.{next_object};
ghost use Rattle.client_read.specs.Reads.{ids_of, locks_from, takes_from};

use crate::got::next_object;
use crate::phase::{ReadAt, Reading};

/// What comes next with the pieces up to this one locked.
pub(crate) fn locks_from(reading: Reading, place: usize) -> ReadAt
    requires { place ≤ length reading.pieces }
    ensures next { result ≡ locks_from reading (next_object reading.pieces place) }
    ensures sound { (range : AnyRange) → HasPieces range reading.opened.layout (ids_of reading.failed) reading.pieces → IsSoundAt result range }
{
    let next = next_object(reading.pieces.as_slice(), place);
    if next < reading.pieces.len() {
        ReadAt::Lock { reading, next }
    } else {
        takes_from(reading, 0)
    }
}

/// What comes next with the pieces up to this one read.
pub(crate) fn takes_from(reading: Reading, place: usize) -> ReadAt
    requires { place ≤ length reading.pieces }
    ensures next { result ≡ takes_from reading (next_object reading.pieces place) }
    ensures sound { (range : AnyRange) → HasPieces range reading.opened.layout (ids_of reading.failed) reading.pieces → IsSoundAt result range }
{
    let next = next_object(reading.pieces.as_slice(), place);
    if next < reading.pieces.len() {
        ReadAt::Take { reading, next }
    } else {
        ReadAt::Confirm { reading }
    }
}
