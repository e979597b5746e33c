//! How many steps a copy has left, and what it hands over to be cleared once it has lost its file.
#![tactic(auto)]

mod laws;

pub use laws::{
    a_copy_that_lost_its_file_clears_nothing, a_merge_has_so_many_steps, a_step_lowers_what_is_left,
};
