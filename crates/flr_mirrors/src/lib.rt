//! How many mirrors the files of a run have, and how many copies its verifies take: theorems alone.
#![tactic(auto)]

mod laws;

pub use laws::{files_have_few_mirrors, verifies_are_short};
