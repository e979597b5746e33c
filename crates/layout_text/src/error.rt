ghost use Rattle.std.specs.Prelude.{◌≡◌};
ghost use Rattle.layout_text.specs.declared.error.TextError.TheVariants as errors;

use flr_base::NoMemory;
use std::alloc::{AllocError, AllocFailed};

/// Why a text isn't read as a layout.
#[derive(Clone, Copy, Debug, PartialEq, Eq)]
pub enum TextError {
    /// The first line, counted from 1, at which no valid layout's text goes on. Where the text ends
    /// early, it is the line after the last.
    Bad { line: u32 },
    /// Memory ran out.
    NoMemory,
}

impl From<AllocError> for TextError {
    ghost from_gives = { λ _ e. e ≡ errors.NoMemory };

    fn from(_refused: AllocError) -> TextError {
        TextError::NoMemory
    }
}

impl<T: Drop> From<AllocFailed<T>> for TextError {
    ghost from_gives = { λ _ e. e ≡ errors.NoMemory };

    fn from(_refused: AllocFailed<T>) -> TextError {
        TextError::NoMemory
    }
}

impl From<NoMemory> for TextError {
    ghost from_gives = { λ _ e. e ≡ errors.NoMemory };

    fn from(_refused: NoMemory) -> TextError {
        TextError::NoMemory
    }
}
