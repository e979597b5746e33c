//! Reports of runs as text: each call with its answer, each file with its layout, and who stepped.
#![tactic(auto)]

mod answers;
mod calls;
mod error;
mod report;
mod schedules;
mod write;

pub use calls::print_call;
pub use error::WriteError;
pub use report::{Call, CallList, FileLine, FileLines, Report};
pub use write::{write_call, write_file, write_head, write_report, write_schedule};
