use crate::comparing::Comparing;
use flr_base::{FailedCall, Ids, Octets, Reply};
use layout_lease::LeaseKey;

/// A chunk of 65536 bytes of two files that are compared.
#[derive(Drop)]
pub struct Pair {
    pub comparing: Comparing,
    /// The size of both files as it was settled, in bytes.
    pub size: u64,
    /// The chunk's number in the files, counted from 0.
    pub number: u64,
    /// The components of our file whose takes failed, at whatever chunk.
    pub our_failed: Ids,
    /// The components of theirs whose takes failed, at whatever chunk.
    pub their_failed: Ids,
    /// The last of these takes.
    pub last: Option<FailedCall>,
}

/// What an extend by a victim does next, once it has begun.
#[derive(Drop)]
pub enum MergeStage {
    /// Fences this object, by its place among those of our file and then those of theirs.
    Fence {
        comparing: Comparing,
        next: usize,
    },
    /// Waits until nobody else writes to a fenced object, and reads the sizes of both files.
    Settle {
        comparing: Comparing,
    },
    /// Reads this chunk of our file.
    TakeOurs {
        pair: Pair,
    },
    /// Reads this chunk of their file, to compare it with ours; where we have a hole there are no
    /// bytes.
    TakeTheirs {
        pair: Pair,
        ours: Option<Octets>,
    },
    /// Gives up both keys and answers this refusal; where there is none, takes their file in.
    Done {
        ours: LeaseKey,
        theirs: LeaseKey,
        refusal: Option<Reply>,
    },
}
