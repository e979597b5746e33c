//! A copy of a file's bytes to its stale components, or a comparing of two files of which one is taken
//! in by the other, one step at a time.
#![tactic(auto)]

mod asking;
mod calls;
mod chunks;
mod comparing;
mod copy;
mod copying;
mod done;
mod laws;
mod lists;
mod merge_phase;
mod merge_stages;
mod merging;
mod pairs;
mod parts;
mod phase;
mod stages;

pub use comparing::Comparing;
pub use copy::CopyCall;
pub use copying::Copying;
pub use laws::nothing_is_cleared_of_a_broken_copy;
pub use merge_phase::{MergeStage, Pair};
pub use parts::{CopyObject, Destination};
pub use phase::{Chunk, CopyAt, CopyStage};
