//! That the answers and the commands of a run have a text, and how many answers there are: theorems alone.
#![tactic(auto)]

mod laws;

pub use laws::{answers_can_be_printed, commands_can_be_printed, entries_are_few};
