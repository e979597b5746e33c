/// What a script has too many of.
#[derive(Clone, Copy, Debug, PartialEq, Eq)]
pub enum What {
    /// More than 64 targets.
    Targets,
    /// More than 16 clients.
    Clients,
    /// More than 4096 calls that are listed to fail.
    Fails,
    /// More than 4096 commands.
    Commands,
    /// More than 67108864 bytes that are read or written.
    Bytes,
    /// More than 8388608 of work, the bound on the steps of its runs.
    Work,
}
