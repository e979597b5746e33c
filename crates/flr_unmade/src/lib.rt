//! Objects that were never made, in every state of a run: no target keeps one, so it has no bytes.
#![tactic(auto)]

mod laws;

pub use laws::objects_never_made_are_empty;
