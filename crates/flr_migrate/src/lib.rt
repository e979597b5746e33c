//! Scripts of either version are written in the newest: the call of `flr migrate`.
#![tactic(auto)]

mod main_call;
mod migrate;

pub use main_call::migrate_main;
