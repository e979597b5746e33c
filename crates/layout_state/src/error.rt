use flr_base::{NoMemory, Range};
use std::alloc::AllocError;

/// Why a layout isn't changed, or isn't asked.
#[derive(Clone, Copy, Debug, PartialEq, Eq)]
pub enum StateError {
    /// No mirror can take a write of this range.
    NoPrimary { range: Range },
    /// The layout would be left without a wholly fresh mirror if this mirror were taken from it.
    LastFresh { mirror: u16 },
    /// There is no mirror of this id.
    NoMirrorId { id: u16 },
    /// There is no component of this id.
    NoComponent { id: u32 },
    /// The file would have more mirrors than it may have.
    TooManyMirrors,
    /// A component would get a number above 65535.
    TooManyComponents,
    /// Memory ran out.
    NoMemory,
}

impl From<NoMemory> for StateError {
    ghost use Rattle.std.specs.Prelude.{◌≡◌};
    ghost use Rattle.layout_state.specs.declared.error.StateError.TheVariants as errors;

    ghost from_gives = { λ _ e. e ≡ errors.NoMemory };

    fn from(_refused: NoMemory) -> StateError {
        StateError::NoMemory
    }
}

impl From<AllocError> for StateError {
    ghost use Rattle.std.specs.Prelude.{◌≡◌};
    ghost use Rattle.layout_state.specs.declared.error.StateError.TheVariants as errors;

    ghost from_gives = { λ _ e. e ≡ errors.NoMemory };

    fn from(_refused: AllocError) -> StateError {
        StateError::NoMemory
    }
}
