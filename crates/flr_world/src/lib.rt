//! The world: the clients of a script, and the servers that they step on.
#![tactic(auto)]

mod member;
mod notes;
mod report;
mod status;
mod world;

pub use status::reported;
pub use world::World;
