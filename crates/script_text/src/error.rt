//! Why an input isn't read.

ghost use Rattle.std.specs.Prelude.{◌≡◌, ◌≢◌, ◌<◌, ◌^◌, ◌-◌};
ghost use Rattle.lfs_values.specs.declared.cause.Cause.TheVariants as causes;
ghost use Rattle.script_text.specs.Answers.{error_at};
ghost use Rattle.script_text.specs.declared.error.LineError.TheVariants as faults;
ghost use Rattle.script_text.specs.declared.error.ScriptError.TheVariants as errors;

use flr_base::NoMemory;
use lfs_values::Cause;
use script_values::What;
use std::alloc::{AllocError, AllocFailed};

/// Why an input is no script, or no script with a schedule.
#[derive(Clone, Copy, Debug, PartialEq, Eq)]
pub enum ScriptError {
    /// The first line with a cause. Lines are counted from 1.
    Bad { line: u32, cause: Cause },
    /// The script has more than 1048576 bytes, or the whole input more than 67108864.
    TooLong,
    /// There are too many of these.
    TooMany { what: What },
    /// No line begins a schedule.
    NoSchedule,
    /// Memory ran out.
    NoMemory,
}

/// Why a line isn't read. Want of memory is a cause here.
#[derive(Clone, Copy, Debug, PartialEq, Eq)]
pub(crate) enum LineError {
    Bad(Cause),
    TooMany(What),
}

impl From<NoMemory> for LineError {
    ghost from_gives = { λ _ e. e ≡ faults.Bad causes.Memory };

    fn from(_refused: NoMemory) -> LineError {
        LineError::Bad(Cause::Memory)
    }
}

impl From<AllocError> for LineError {
    ghost from_gives = { λ _ e. e ≡ faults.Bad causes.Memory };

    fn from(_refused: AllocError) -> LineError {
        LineError::Bad(Cause::Memory)
    }
}

impl<T: Drop> From<AllocFailed<T>> for LineError {
    ghost from_gives = { λ _ e. e ≡ faults.Bad causes.Memory };

    fn from(_refused: AllocFailed<T>) -> LineError {
        LineError::Bad(Cause::Memory)
    }
}

impl From<NoMemory> for ScriptError {
    ghost from_gives = { λ _ e. e ≡ errors.NoMemory };

    fn from(_refused: NoMemory) -> ScriptError {
        ScriptError::NoMemory
    }
}

/// Why an input is refused whose line at this place, counted from 0, is.
pub(crate) fn error_at(at: u32, error: LineError) -> ScriptError
    requires { at < 2 ^ 32 - 1 }
    ensures memory { error ≡ faults.Bad causes.Memory → result ≡ errors.NoMemory }
    ensures value { result ≢ errors.NoMemory → result ≡ error_at at error }
{
    match error {
        LineError::Bad(Cause::Memory) => ScriptError::NoMemory,
        LineError::Bad(cause) => ScriptError::Bad {
            line: at + 1,
            cause,
        },
        LineError::TooMany(what) => ScriptError::TooMany { what },
    }
}
