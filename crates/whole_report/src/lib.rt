//! Whole reports, read exactly as they are written: the first line, the calls, the files and the
//! schedule.
#![tactic(auto)]

mod calls;
mod files;
mod last;
mod lines;
mod read;
mod round_trip;

pub use read::read_report;
pub use round_trip::through_text;
