//! Which extent locks are held, in every state of a run: those of a client are exactly the ones that the
//! phase of its call lists, and no two that are held conflict.
#![tactic(auto)]

mod laws;

pub use laws::locks_are_those_of_the_calls;
