//! The commands of one step, evictions, and bytes that rot.
#![tactic(auto)]

mod answer;
mod commands;
mod eviction;
mod names;
mod rotting;
mod split;

pub use answer::Admin;
pub use commands::admin;
pub use eviction::evict;
pub use rotting::rot;
