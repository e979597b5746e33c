//! Which run of a script is meant: the state of the whole, its next step, the state after a schedule, and
//! what every call did on its way. Here are definitions and laws of them, and the types of which the state
//! is made; no code runs here.
#![tactic(auto)]

mod client;
mod laws;
mod run_laws;

pub use client::{Client, Note, Running};
pub use laws::{each_step_is_one_of_these, runs_go_on, runs_stop, what_was_stays};
pub use run_laws::{
    calls_are_own, each_place_is_a_step, fronts_are_runs, holds_beside, holds_of_runs,
    runs_keep_the_script, steps_are_these, steps_are_traced, steps_leave_so_much, stops_are_these,
    traces_go_on, traces_stand_beside, unfinished_is_lowest,
};
