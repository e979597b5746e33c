//! What is claimed of every run, in the words of those who use files and mirrors. Here are definitions and
//! laws of them; no code runs here.
#![tactic(auto)]

mod answers;
mod blocking;
mod bytes;
mod copies;
mod names;
mod refused;
mod splits;

pub use answers::{answers_are_of_commands, evictions_name_their_client, refusals_are_alone};
pub use blocking::blocked_where_waiting;
pub use bytes::{held_bytes_are_striped, landed_parts_were_sent};
pub use copies::whole_is_put;
pub use names::names_are_left;
pub use refused::refused_exactly;
pub use splits::split_files_have_the_bytes;
