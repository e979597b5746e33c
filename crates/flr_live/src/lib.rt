//! Never stuck: in every run, while some client has a command left, some client can make its next step, no
//! clients wait for one another in a circle, and so every run can be led to its end. Theorems alone.
#![tactic(auto)]

mod laws;

pub use laws::{each_run_can_end, each_wait_ends, never_stuck};
