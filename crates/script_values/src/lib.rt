//! Scripts as values: which targets fail which calls, and what each client does, all within the
//! limits. With their commands come the one printed form of each, the work of a script, and the
//! scripts that a generator of numbers makes.
#![tactic(auto)]

mod bases;
mod command;
mod generator;
mod listing;
mod make;
mod measure;
mod print;
mod read;
mod round_trip;
mod runs;
mod script;
mod what;

pub use bases::work;
pub use command::{Command, Commands};
pub use generator::Generator;
pub use lfs_words::spelled_facts;
pub use listing::print_script;
pub use make::{draw_script, make_script};
pub use print::{print_command, put_command};
pub use read::read_command;
pub use round_trip::{printed_commands, through_command};
pub use runs::{ClientRun, Runs};
pub use script::{Clients, Fails, Script};
pub use what::What;
