//! A read of a file, one step at a time.
#![tactic(auto)]

mod again;
mod confirm;
mod got;
mod laws;
mod next;
mod opening;
mod phase;
mod read;
mod take;

pub use got::Got;
pub use laws::{
    a_read_ends_at_once, a_read_tells_what_it_took, a_read_tells_which_calls_failed,
    a_step_lowers_what_is_left,
};
pub use phase::{FailedTake, FailedTakes, ReadAt, Reading};
pub use read::ReadCall;
