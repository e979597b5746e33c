//! What the steps of all calls share: the servers, what a step comes to, the relation that ties a
//! call's step to its definition, and a run of one call.
#![tactic(auto)]

mod asking;
mod laws;

pub use asking::{are_there, can_call, holds_none};
pub use laws::{places_ascend, runs_are_joined, wider_steps};
