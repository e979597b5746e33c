ghost use Rattle.std.specs.Prelude.{◌≡◌};
ghost use Rattle.object_target.specs.declared.call.TargetError.TheVariants as error;
ghost use Rattle.object_target.specs.declared.call.RotError.TheVariants as rot;

use flr_base::NoMemory;
use std::alloc::AllocError;

/// What a call of a target is for.
#[derive(Clone, Copy, Debug, PartialEq, Eq)]
pub enum CallKind {
    /// Reads bytes of an object.
    Read,
    /// Writes bytes into an object.
    Write,
    /// Raises the version that an object keeps, so that older calls are refused.
    Fence,
    /// Empties an object, and sets the version that it keeps.
    Reset,
    /// Cuts an object.
    Punch,
}

/// What a target answered, as its log has it.
#[derive(Clone, Copy, Debug, PartialEq, Eq)]
pub enum CallAnswer {
    /// The call did what it is for.
    Ok,
    /// The object keeps this version, which is greater than the one sent. The call did nothing.
    Old { kept: u32 },
    /// The call is listed to fail.
    Failed,
}

/// A call in a target's log. The first entry is call 1.
#[derive(Clone, Copy, Debug, PartialEq, Eq)]
pub struct CallEntry {
    pub kind: CallKind,
    /// The object's number on this target.
    pub object: u32,
    /// The first byte that was asked for, or the length of a cut; 0 where the kind has none.
    pub offset: u64,
    /// How many bytes were read or sent; 0 where the kind has none.
    pub length: u32,
    /// The layout version that was sent; 0 for a read, which sends none.
    pub version: u32,
    pub answer: CallAnswer,
}

/// Why a target's call wasn't done, or isn't known to be.
#[derive(Clone, Copy, Debug, PartialEq, Eq)]
pub enum TargetError {
    /// The object keeps this version, which is greater than the one sent. The call did nothing.
    Old { kept: u32 },
    /// The call with this number is listed to fail. It did nothing, or its answer is lost.
    Failed { call: u32 },
    /// Memory ran out. No call is counted and nothing has changed.
    NoMemory,
}

/// Why a byte of an object wasn't overwritten.
#[derive(Clone, Copy, Debug, PartialEq, Eq)]
pub enum RotError {
    /// The target keeps no such object.
    NoObject,
    /// Memory ran out, and the object is kept. Nothing has changed.
    NoMemory,
}

impl From<NoMemory> for TargetError {
    ghost from_gives = { λ _ e. e ≡ error.NoMemory };

    fn from(_refused: NoMemory) -> TargetError {
        TargetError::NoMemory
    }
}

impl From<AllocError> for TargetError {
    ghost from_gives = { λ _ e. e ≡ error.NoMemory };

    fn from(_refused: AllocError) -> TargetError {
        TargetError::NoMemory
    }
}

impl From<NoMemory> for RotError {
    ghost from_gives = { λ _ e. e ≡ rot.NoMemory };

    fn from(_refused: NoMemory) -> RotError {
        RotError::NoMemory
    }
}
