//! What holds of the metadata server after any run of its calls.
#![tactic(auto)]

mod layouts;
mod numbers;
mod outcomes;
mod sound;

pub use layouts::calls_explain_layouts;
pub use numbers::{no_number_falls, objects_are_used_once};
pub use outcomes::calls_leave_their_outcomes;
pub use sound::runs_are_sound;
