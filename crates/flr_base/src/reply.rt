use crate::list::{Calls, Diffs, Ids, Lefts, Name, Octets, Takes};

/// The end of an extent that has none, in bytes.
pub const EOF: u64 = u64::MAX;

/// The bytes from `start` up to `end`, without `end`.
#[derive(Clone, Copy, Debug, PartialEq, Eq)]
pub struct Range {
    pub start: u64,
    pub end: u64,
}

/// How a component is striped: bytes in a stripe unit, and stripes.
#[derive(Clone, Copy, Debug, PartialEq, Eq)]
pub struct Stripe {
    pub size: u64,
    pub count: u32,
}

/// An object: its target, counted from 0, and its number there, counted from 1.
#[derive(Clone, Copy, Debug, PartialEq, Eq)]
pub struct ObjectId {
    pub target: u8,
    pub number: u32,
}

/// A call of a target that failed: the target, and the call's number there, counted from 1.
#[derive(Clone, Copy, Debug, PartialEq, Eq)]
pub struct FailedCall {
    pub target: u8,
    pub call: u32,
}

/// A component that a copy left stale, and the failed call for which it did.
#[derive(Clone, Copy, Debug, PartialEq, Eq)]
pub struct Left {
    pub component: u32,
    pub call: FailedCall,
}

/// The lowest byte of a block at which two components differ.
#[derive(Clone, Copy, Debug, PartialEq, Eq)]
pub struct Diff {
    pub first: u32,
    pub second: u32,
    pub offset: u64,
    pub ours: u8,
    pub theirs: u8,
}

/// Where the bytes of a piece came from.
#[derive(Clone, Copy, Debug, PartialEq, Eq)]
pub enum TakeFrom {
    /// The component has no objects yet, so the bytes are zeros.
    Hole,
    /// A read of an object, by the number of the call on its target.
    Object { object: ObjectId, call: u32 },
}

/// One piece of a read: the bytes of the file, the component that answered them, and from where.
#[derive(Clone, Copy, Debug, PartialEq, Eq)]
pub struct Take {
    pub range: Range,
    pub component: u32,
    pub from: TakeFrom,
}

/// What a command answers.
#[derive(Debug, Drop)]
pub enum Reply {
    /// The file is made.
    Created,
    /// The text of the layout.
    Layout(Octets),
    /// The flags of a component are changed.
    Set,
    /// A mirror is split off, to the file of this name.
    Split(Name),
    /// The mirror with this id is taken away.
    Removed(u16),
    /// The locks and leases of this client are taken.
    EvictedClient(u8),
    /// The bytes that were read.
    Bytes(Octets),
    /// The bytes are written.
    Written,
    /// The file has the asked size.
    Truncated,
    /// The copy is done: the components that lost `stale`, and those that were left.
    Copied { cleared: Ids, left: Lefts },
    /// A file is taken in, its mirrors under these ids.
    Merged(Ids),
    /// So many blocks were compared, and all were the same.
    Same(u32),
    /// The blocks that differ.
    Differ(Diffs),
    /// A byte of an object is overwritten.
    Rotted,
    /// There is no file of this name.
    NoFile(Name),
    /// There is a file of this name already.
    Exists(Name),
    /// There are as many files as there may be.
    TooManyFiles,
    /// The write would end past the greatest size of a file.
    TooBig,
    /// No mirror may take a write of these bytes.
    NoPrimary(Range),
    /// Every fresh component over this byte is `offline`.
    AllOffline(u64),
    /// No component is left to read this byte from, after these failed calls.
    Fault { byte: u64, calls: Calls },
    /// This call of the write failed.
    WriteFault(FailedCall),
    /// The client was evicted at this place, in the midst of a write.
    Evicted(u32),
    /// This client has a lease of the file.
    Busy(u8),
    /// The lease was broken at this place.
    Broken(u32),
    /// This is the last mirror that is wholly fresh.
    LastFresh(u16),
    /// This mirror isn't wholly fresh.
    StaleMirror(u16),
    /// There is no mirror with this id.
    NoMirrorId(u16),
    /// There is no component with this id.
    NoComponent(u32),
    /// The file would have more mirrors than it may.
    TooManyMirrors,
    /// The file has used up its component ids.
    TooManyComponents,
    /// The files differ, first at this byte.
    DifferAt { offset: u64, ours: u8, theirs: u8 },
    /// The files have different sizes.
    Sizes { ours: u64, theirs: u64 },
    /// This call of a copy by a victim failed.
    CopyFault(FailedCall),
    /// This call of a verify failed.
    VerifyFault(FailedCall),
    /// The target keeps no such object.
    NoObject,
}

/// A call that took effect: its client, its number among that client's commands, counted from 1,
/// the places of its first step, of its point and of its last step (0 until it is answered), what
/// it answered, and who answered each piece of a read.
#[derive(Debug, Drop)]
pub struct Entry {
    pub client: u8,
    pub number: u32,
    pub first: u32,
    pub at: u32,
    pub last: u32,
    pub reply: Reply,
    pub takes: Takes,
}

/// What one step of a call came to.
#[derive(Debug, Drop)]
pub enum Progress<C> {
    /// The call goes on, its answer still open.
    Going(C),
    /// The answer is fixed at this step, and the call goes on.
    Fixed { call: C, reply: Reply, takes: Takes },
    /// This was the last step of a call whose answer was fixed before.
    Ended,
    /// This was the last step, and it fixed the answer.
    Answered { reply: Reply, takes: Takes },
    /// Another client holds what the step needs. Nothing has changed.
    Blocked { call: C, holder: u8 },
    /// Memory ran out. Nothing has changed.
    NoMemory(C),
}
