//! The words of the `lfs` commands that make, extend, split, delete, resync and verify mirrors, after
//! the lfs manual pages. Which commands and options there are, and how they are spelt, is this
//! project's own.
#![tactic(auto)]

mod asked;
mod check;
mod command;
mod facts;
mod options;
mod parts;
mod print;
mod read;
mod round_trip;
mod stands;
mod step;
mod takes;

pub use command::{LfsCommand, SplitTo};
pub use facts::spelled_facts;
pub use lfs_values::{Cause, put_cause};
pub use print::{print_lfs, printed_spells};
pub use read::read_lfs;
pub use round_trip::through_text;
