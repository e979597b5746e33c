//! How many pieces the reads and writes of a run have in hand, and when a part of a write or of a truncate
//! is too old: theorems alone.
#![tactic(auto)]

mod laws;

pub use laws::{old_only_with_the_cookie_lost, pieces_are_few};
