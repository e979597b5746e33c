//! The shapes of objects, in every state of a run: an object has one extent, one size and count of stripes and
//! one place among them, in whatever file it stands and in whatever layout a call has in hand, and no step
//! changes it.
#![tactic(auto)]

mod laws;

pub use laws::{layouts_in_hand_agree, objects_keep_their_shapes};
