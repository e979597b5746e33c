use crate::cutting::Cutting;
use crate::writing::Writing;
use flr_base::{FailedCall, Name, Octets};
use std::alloc::Global;

/// What a write asks for.
#[derive(Drop)]
pub(crate) struct Asked {
    pub alloc: Global,
    pub client: u8,
    pub name: Name,
    pub offset: u64,
    pub bytes: Octets,
}

/// What a truncate asks for.
#[derive(Drop)]
pub(crate) struct CutAsked {
    pub alloc: Global,
    pub client: u8,
    pub name: Name,
    pub size: u64,
}

/// What has become of the pieces of a write, or the tails of a truncate, before its commit.
#[derive(Clone, Copy)]
pub enum Sent {
    /// All are accepted.
    All,
    /// So many are accepted, and this call of the next one failed.
    Failed { accepted: usize, call: FailedCall },
    /// So many are accepted, and the next one was too old: this step evicted the client.
    Old { accepted: usize, step: u32 },
}

/// What came of a call of a target.
#[derive(Clone, Copy)]
pub enum Came {
    /// The call did what it is for.
    Accepted,
    /// The object keeps a greater generation.
    TooOld,
    /// This call failed.
    Failed { call: FailedCall },
}

/// What a write does next.
#[derive(Drop)]
pub enum WriteAt {
    /// Opens its file.
    Open,
    /// Asks for the extent lock of this piece.
    Lock {
        writing: Writing,
        next: usize,
    },
    /// Sends this piece to its object.
    Send {
        writing: Writing,
        next: usize,
    },
    /// Raises the size to this end, and fixes its answer.
    Commit {
        writing: Writing,
        end: u64,
        sent: Sent,
    },
    /// Gives the extent locks back, and opens its file again.
    UnlockAgain,
    /// Gives the extent locks back, and ends.
    Unlock,
}

/// What a truncate does next.
#[derive(Drop)]
pub enum CutAt {
    /// Opens its file.
    Open,
    /// Asks for the extent locks of all tails.
    Lock { cutting: Cutting },
    /// Cuts the object of this tail.
    Punch { cutting: Cutting, next: usize },
    /// Sets the size where all is cut, and fixes its answer.
    Commit { cutting: Cutting, sent: Sent },
    /// Gives the extent locks back, and opens its file again.
    UnlockAgain,
    /// Gives the extent locks back, and ends.
    Unlock,
}
