//! Of which command each running call is.
#![tactic(auto)]

mod laws;

pub use laws::calls_are_of_their_commands;
