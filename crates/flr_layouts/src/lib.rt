//! The layouts of files, in every state of a run: each is valid and has a wholly fresh mirror, and each comes
//! from what was there before the last step.
#![tactic(auto)]

mod laws;

pub use laws::{layouts_are_sound, steps_explain_layouts};
