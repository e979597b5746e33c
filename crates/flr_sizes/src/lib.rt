//! How long the files of a run are: theorems alone.
#![tactic(auto)]

mod laws;

pub use laws::files_are_short;
