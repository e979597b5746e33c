//! What every crate of the project stands on: lists, replies and entries, runs of bytes, and the
//! ends through which bytes come in and go out.
#![tactic(auto)]

mod adapters;
mod digits;
mod list;
mod mem_ends;
mod memory;
mod outside;
mod reply;
mod runs;
mod streams;

pub use adapters::{FromRead, ToWrite};
pub use digits::{put_decimal, put_hex};
pub use list::{Calls, Diffs, Ids, Lefts, Listed, Name, Objects, Octets, Takes};
pub use mem_ends::{MemSink, MemSource};
pub use memory::NoMemory;
pub use outside::{Failed, Sink, Source};
pub use reply::{
    Diff, EOF, Entry, FailedCall, Left, ObjectId, Progress, Range, Reply, Stripe, Take, TakeFrom,
};
pub use runs::{Run, RunsError, print_runs, read_runs, runs_of};
pub use streams::{ReadError, read_all, write_all};
