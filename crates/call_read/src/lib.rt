//! The lines of one call of a report, read exactly as they are printed.
#![tactic(auto)]

mod call;
mod following;
mod front;
mod head;

pub use call::read_call;
pub use following::read_following;
pub use head::{Head, Places, read_head};
