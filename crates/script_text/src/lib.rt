//! Scripts and replay inputs as text: every spelling is read as the script that it spells, and every
//! other input is refused by its one cause. The format is this project's own.
#![tactic(auto)]

mod command_lines;
mod error;
mod evictions;
mod fails;
mod head_lines;
mod laws;
mod lead;
mod lines;
mod read;
mod refusal;
mod replay;
mod round_trip;
mod runs;
mod schedule;
mod slots;
mod state;
mod step;

pub use error::ScriptError;
pub use laws::{replay_causes, script_causes};
pub use read::read_script;
pub use refusal::print_refusal;
pub use replay::read_replay;
pub use round_trip::{printed_script, through_text};
pub use script_values::What;
