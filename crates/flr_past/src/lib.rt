//! How the answered calls stand in every state of a run: each within its interval, at a point of its own and
//! in its client's order; whose are still open; and that where nobody has a command left, each has its answer.
#![tactic(auto)]

mod laws;

pub use laws::{
    answers_are_fixed_once, entries_are_in_order, finished_runs_are_whole, one_call_is_open,
};
