//! No run is longer than the work of its script, and each of its steps finds room: theorems alone.
#![tactic(auto)]

mod laws;

pub use laws::{
    each_next_step_finds_what_it_wants, everybody_always_holds_what_is_his, runs_are_short,
    runs_have_room,
};
