//! What a copy has done by the time that it hands over what it cleared: laws over the run of one call.
#![tactic(auto)]

mod laws;

pub use laws::{
    a_cleared_destination_was_copied_whole, a_left_destination_has_its_cause,
    a_merge_takes_in_what_is_the_same,
};
