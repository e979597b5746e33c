use client_read::ReadCall;
use client_write::{TruncateCall, WriteCall};
use flr_base::Entry;
use mirror_verify::VerifyCall;
use resync_copy::CopyCall;

/// The call that a client has under way.
#[derive(Drop)]
pub enum Running {
    /// None: its next step begins its next command.
    Idle,
    /// A read.
    Read(ReadCall),
    /// A write.
    Write(WriteCall),
    /// A truncate.
    Truncate(TruncateCall),
    /// A resync or an extend.
    Copy(CopyCall),
    /// A verify.
    Verify(VerifyCall),
}

/// A client: how many of its commands are done, the place at which its last call began, and the call that
/// it has under way.
#[derive(Drop)]
pub struct Client {
    pub done: u32,
    pub first: u32,
    pub call: Running,
}

/// What the list of calls is to learn of a step.
#[derive(Drop)]
pub enum Note {
    /// Nothing.
    Nothing,
    /// The answer of a call is fixed.
    Adds(Entry),
    /// The client's call, whose answer was fixed before, has ended.
    Closes,
}
