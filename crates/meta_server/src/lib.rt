//! The metadata server: the files by name, with their sizes, layouts, layout locks and leases.
//!
//! Contracts see it as plain data, and each call is one definition over that data: what it answers
//! and what is afterwards. A call is one step of the system, so it does all that it does at once, or
//! it changes nothing.
#![tactic(auto)]

mod answers;
mod change;
mod close;
mod copy;
mod create;
mod done;
mod extend;
mod files;
mod laws;
mod meta;
mod offline;
mod open;
mod room;
mod shapes;
mod victim;

pub use answers::{Begun, CopyWhat, DoneStop, Gone, Lost, MergeStop, MetaStop, Opened, Side};
pub use laws::files_stay_sound;
pub use meta::Meta;
