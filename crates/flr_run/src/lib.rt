//! `flr run`: each client of a script makes its steps on a thread of its own, and the report of that run is
//! written, with the schedule that came about.
#![tactic(auto)]

mod crew;
mod main_call;
mod together;

pub use main_call::run_main;
