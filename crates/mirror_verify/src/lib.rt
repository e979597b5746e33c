//! A verify of a file, one step at a time: the copies that its mirrors hold of each block are compared.
#![tactic(auto)]

mod blocks;
mod copies;
mod differ;
mod found;
mod laws;
mod phase;
mod verify;

pub use copies::{BlockCopies, BlockCopy};
pub use found::Found;
pub use laws::{a_step_lowers_what_is_left, a_verify_tells_what_it_compared};
pub use phase::{VerifyAt, Verifying};
pub use verify::VerifyCall;
