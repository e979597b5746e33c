ghost use Rattle.std.specs.Prelude.{◌≡◌};
ghost use Rattle.flr_base.specs.declared.runs.fault.RunsError.TheVariants as errors;

use crate::memory::NoMemory;
use std::alloc::{AllocError, AllocFailed};

/// Why a text was not read as runs.
#[derive(Clone, Copy, Debug, PartialEq, Eq)]
pub enum RunsError {
    /// The text spells no bytes: the first byte with which it begins no spelling, counted from 0,
    /// or its length where it ends early.
    Bad { at: usize },
    /// The text spells more bytes than were asked for.
    TooLong,
    /// Memory ran out.
    NoMemory,
}

impl From<AllocError> for RunsError {
    ghost from_gives = { λ _ e. e ≡ errors.NoMemory };

    fn from(_refused: AllocError) -> RunsError {
        RunsError::NoMemory
    }
}

impl<T: Drop> From<AllocFailed<T>> for RunsError {
    ghost from_gives = { λ _ e. e ≡ errors.NoMemory };

    fn from(_refused: AllocFailed<T>) -> RunsError {
        RunsError::NoMemory
    }
}

impl From<NoMemory> for RunsError {
    ghost from_gives = { λ _ e. e ≡ errors.NoMemory };

    fn from(_refused: NoMemory) -> RunsError {
        RunsError::NoMemory
    }
}
