//! What copies can't change any more, in every state of a run: where an object that a copy resets stands in a
//! fresh component, it keeps a version above the generation that the copy got at begin.
#![tactic(auto)]

mod laws;

pub use laws::{copies_are_kept_off, copies_are_too_old};
