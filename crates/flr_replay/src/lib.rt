//! `flr replay`: a script is played along its schedule, and the report of that run is written.
#![tactic(auto)]

mod follow;
mod good;
mod lines;
mod main_call;
mod play;

pub use good::good_inputs_are_taken;
pub use main_call::replay_main;
