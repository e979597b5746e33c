//! How the program's calls end: their statuses, and what they have written by then. The statuses are
//! this project's own.
#![tactic(auto)]

mod ending;

pub use ending::written;
