//! Runs along schedules that a generator of numbers makes. `flr soak`: a script that it makes too, in one line
//! of counts. `flr random`: a script that is read, with the report of its run.
#![tactic(auto)]

mod counting;
mod draw;
mod line;
mod main_call;
mod random_call;
mod soaking;

pub use main_call::soak_main;
pub use random_call::random_main;
