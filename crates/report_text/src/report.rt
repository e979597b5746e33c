use composite_layout::Layout;
use flr_base::{Entry, Listed, Name, Octets};
use script_values::Command;

/// A call: its entry, and the command that it answers.
#[derive(Debug, Drop)]
pub struct Call {
    pub entry: Entry,
    pub command: Command,
}

/// A file as it is at the end of a run, its size in bytes.
#[derive(Debug, Drop)]
pub struct FileLine {
    pub name: Name,
    pub size: u64,
    pub layout: Layout,
}

/// Calls in the order of their points.
pub type CallList = Listed<Call>;

/// Files in order of creation.
pub type FileLines = Listed<FileLine>;

/// What a run came to: its calls, its files, and its schedule, a client for each place.
#[derive(Debug, Drop)]
pub struct Report {
    pub calls: CallList,
    pub files: FileLines,
    pub schedule: Octets,
}
