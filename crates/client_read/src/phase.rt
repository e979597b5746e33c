use crate::got::Got;
use flr_base::{FailedCall, Listed, Name, NoMemory, Range};
use meta_server::Opened;
use mirror_select::Pieces;
use std::alloc::Global;

/// What a read asks for.
#[derive(Drop)]
pub(crate) struct Asked {
    pub alloc: Global,
    pub client: u8,
    pub name: Name,
    pub range: Range,
}

/// A take that failed: the component that was to answer, and the call that failed.
#[derive(Clone, Copy)]
pub struct FailedTake {
    pub component: u32,
    pub call: FailedCall,
}

/// Takes that failed, in their order.
pub type FailedTakes = Listed<FailedTake>;

/// What a read has since it opened its file.
#[derive(Drop)]
pub struct Reading {
    pub opened: Opened,
    /// The takes that failed.
    pub failed: FailedTakes,
    /// The pieces of the range without the components that failed.
    pub pieces: Pieces,
    /// What it has got of the first pieces.
    pub got: Got,
}

/// What a read does next.
#[derive(Drop)]
pub enum ReadAt {
    /// Opens its file.
    Open,
    /// Asks for the extent lock of this piece.
    Lock { reading: Reading, next: usize },
    /// Reads this piece from its object.
    Take { reading: Reading, next: usize },
    /// A take failed: gives the extent locks back, and looks who else has the bytes.
    Again { reading: Reading },
    /// Fixes its bytes, unless its cookie was lost.
    Confirm { reading: Reading },
    /// Gives the extent locks back, and opens its file again.
    UnlockAgain,
    /// Gives the extent locks back, and ends.
    Unlock,
}

/// Why a read has no pieces.
#[derive(Drop)]
pub(crate) enum Unread {
    /// Nobody is left to answer this byte.
    Unanswered { byte: u64 },
    /// Memory ran out.
    NoMemory,
}

impl From<NoMemory> for Unread {
    ghost use Rattle.std.specs.Prelude.{◌≡◌};
    ghost use Rattle.client_read.specs.declared.phase.Unread.TheVariants as unread;

    ghost from_gives = { λ _ e. e ≡ unread.NoMemory };

    fn from(_refused: NoMemory) -> Unread {
        Unread::NoMemory
    }
}
