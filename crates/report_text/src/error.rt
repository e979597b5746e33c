ghost use Rattle.std.specs.Prelude.{◌≡◌};
ghost use Rattle.report_text.specs.declared.error.WriteError.TheVariants as errors;

use flr_base::{Failed, NoMemory};
use std::alloc::AllocError;

/// Why a report isn't written whole.
#[derive(Clone, Copy, Debug, PartialEq, Eq)]
pub enum WriteError {
    /// The sink failed.
    Failed,
    /// Memory ran out.
    NoMemory,
}

impl From<Failed> for WriteError {
    ghost from_gives = { λ _ e. e ≡ errors.Failed };

    fn from(_failed: Failed) -> WriteError {
        WriteError::Failed
    }
}

impl From<NoMemory> for WriteError {
    ghost from_gives = { λ _ e. e ≡ errors.NoMemory };

    fn from(_refused: NoMemory) -> WriteError {
        WriteError::NoMemory
    }
}

impl From<AllocError> for WriteError {
    ghost from_gives = { λ _ e. e ≡ errors.NoMemory };

    fn from(_refused: AllocError) -> WriteError {
        WriteError::NoMemory
    }
}
