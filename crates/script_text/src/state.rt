//! What the lines of a script have said so far.

use script_values::{Clients, Commands, Fails};

/// A version of the format.
#[derive(Clone, Copy, Debug, PartialEq, Eq)]
pub(crate) enum Version {
    One,
    Two,
}

/// What stands before the commands.
#[derive(Debug, Drop)]
pub(crate) struct Head {
    pub(crate) version: Version,
    pub(crate) targets: u8,
    pub(crate) most: u8,
    pub(crate) fails: Fails,
}

/// A head and clients with their commands. More commands of the last client may follow.
#[derive(Debug, Drop)]
pub(crate) struct Body {
    pub(crate) head: Head,
    /// The clients before the last.
    pub(crate) done: Clients,
    /// The commands of the last client.
    pub(crate) own: Commands,
    /// How many commands all clients have.
    pub(crate) commands: u32,
}

/// What the lines so far are, and so which may stand next.
#[derive(Debug, Drop)]
pub(crate) enum State {
    /// No line: `flr-script` comes.
    Start,
    /// The line `flr-script`: `targets` comes.
    Version(Version),
    /// The line `targets` of version 2: `mirrors` comes.
    Targets(u8),
    /// The head: lines `fail`, and then the first line `client`, may come.
    Fails(Head),
    /// A line `client`: commands and the next line `client` may come.
    Commands(Body),
}

/// What all lines of a script have said, its clients with their commands.
#[derive(Debug, Drop)]
pub(crate) struct Part {
    pub(crate) head: Head,
    pub(crate) clients: Clients,
}
