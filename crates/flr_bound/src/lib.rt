//! How far the numbers of a run rise: theorems alone.
#![tactic(auto)]

mod numbers;

pub use numbers::{numbers_are_within, scripts_name_few, short_runs_have_room, stripes_are_named};
