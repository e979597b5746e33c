//! How many objects the truncates and copies of a run have in hand, against the stripes that commands name:
//! theorems alone.
#![tactic(auto)]

mod laws;

pub use laws::{copies_hold_few, truncates_are_short};
