//! No run is longer than the work of its script, where what the bound takes as known holds: theorems alone.
#![tactic(auto)]

mod runs;

pub use runs::runs_end;
