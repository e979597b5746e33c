use crate::copying::Copying;
use crate::merge_phase::MergeStage;
use flr_base::{FailedCall, Ids, Lefts, Name, Octets};
use layout_lease::LeaseKey;
use meta_server::{CopyWhat, Side};
use std::alloc::Global;

/// What a copy asks for.
#[derive(Drop)]
pub(crate) struct Asked {
    pub alloc: Global,
    pub client: u8,
    pub name: Name,
    pub what: CopyWhat,
}

/// A chunk of 65536 bytes of a destination.
#[derive(Drop)]
pub struct Chunk {
    pub copying: Copying,
    /// The size of the file as it was settled, in bytes.
    pub size: u64,
    /// The place of the destination.
    pub place: usize,
    /// The chunk's number in the file, counted from 0.
    pub number: u64,
    /// The components whose takes for this destination failed.
    pub failed: Ids,
    /// The last of these takes.
    pub last: Option<FailedCall>,
}

/// What a copy does next, once it has begun.
#[derive(Drop)]
pub enum CopyStage {
    /// Fences this object.
    Fence {
        copying: Copying,
        next: usize,
    },
    /// Resets this object.
    Reset {
        copying: Copying,
        next: usize,
    },
    /// Waits until nobody else writes to a source, and reads the size of the file.
    Settle {
        copying: Copying,
    },
    /// Reads this chunk from its source.
    Take {
        chunk: Chunk,
    },
    /// Writes these bytes of the chunk to its destination.
    Put {
        chunk: Chunk,
        bytes: Octets,
    },
    /// Clears these destinations, and answers.
    Done {
        key: LeaseKey,
        cleared: Ids,
        left: Lefts,
    },
}

/// What a copy does next.
#[derive(Drop)]
pub enum CopyAt {
    /// Begins.
    Begin,
    /// Goes on with a copy that has begun.
    Copy(CopyStage),
    /// Goes on with a merge that has begun.
    Merge(MergeStage),
}

/// What a call keeps of what it does next. What is to be fenced and reset is listed at the step after
/// the begin: once the begin is made, no memory may be wanting.
#[derive(Drop)]
pub(crate) enum Phase {
    /// It begins.
    Begin,
    /// A copy has begun, and nothing is listed yet.
    Begun { side: Side, ids: Ids },
    /// A copy goes on.
    Copy(CopyStage),
    /// A merge has begun that has objects to fence, and nothing is listed yet.
    Compared { ours: Side, theirs: Side },
    /// A merge goes on.
    Merge(MergeStage),
}
