//! The parts of a report behind its calls, read exactly as they are printed: files with their layouts,
//! and the schedule.
#![tactic(auto)]

mod file;
mod schedule;

pub use file::{FileHead, read_file, read_file_head};
pub use schedule::read_schedule;
