//! A crew of threads, one for each client, that step one value in turns.
//!
//! Each worker has a seat of the value's cell. It tries until it gets the turn, asks the value for its
//! client's next step, and gives the turn up, until the client has no command left. Nothing is claimed
//! of when a worker gets a turn, nor that two of them run at the same time.
#![tactic(auto)]

mod crew;
mod gate;
mod tried;
mod worker;

pub use crew::run_crew;
pub use gate::{FreeGate, Gate};
pub use tried::{Tried, step_as};
