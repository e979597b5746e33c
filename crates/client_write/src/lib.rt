//! A write to a file and a truncate of one, one step at a time.
#![tactic(auto)]

mod asking;
mod cutting;
mod laws;
mod phase;
mod pieces;
mod tails;
mod truncate;
mod write;
mod writing;

pub use cutting::Cutting;
pub use laws::{
    a_step_of_a_truncate_lowers_what_is_left, a_step_of_a_write_lowers_what_is_left,
    a_truncate_is_answered_at_its_commit_or_open,
    a_truncate_is_begun_again_only_with_nothing_accepted, a_truncate_punches_its_tails_in_order,
    a_write_is_answered_at_its_commit_or_open, a_write_is_begun_again_only_with_nothing_accepted,
    a_write_sends_its_pieces_in_order,
};
pub use phase::{Came, CutAt, Sent, WriteAt};
pub use truncate::TruncateCall;
pub use write::WriteCall;
pub use writing::Writing;
