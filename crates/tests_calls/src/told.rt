//! What a call is told to answer.

use flr_base::{Diff, Entry, FailedCall, Left, Reply, Take};

/// An answer. Bytes are told by runs of the same byte, and with who answered each piece.
#[derive(Clone, Copy)]
pub enum Told {
    Created,
    Set,
    Written,
    Truncated,
    Rotted,
    TooBig,
    TooManyMirrors,
    Layout(&'static [u8]),
    Split(&'static [u8]),
    NoFile(&'static [u8]),
    Exists(&'static [u8]),
    Removed(u16),
    LastFresh(u16),
    StaleMirror(u16),
    NoMirrorId(u16),
    Same(u32),
    Evicted(u32),
    Broken(u32),
    AllOffline(u64),
    NoPrimary(u64, u64),
    DifferAt(u64, u8, u8),
    WriteFault(FailedCall),
    Bytes(&'static [(u8, usize)], &'static [Take]),
    Fault(u64, &'static [FailedCall]),
    Copied(&'static [u32], &'static [Left]),
    Merged(&'static [u32]),
    Differ(&'static [Diff]),
}

/// Whether the call has answered so.
pub fn is_told(entry: &Entry, told: &Told) -> bool {
    match (&entry.reply, told) {
        (Reply::Created, Told::Created) => true,
        (Reply::Set, Told::Set) => true,
        (Reply::Written, Told::Written) => true,
        (Reply::Truncated, Told::Truncated) => true,
        (Reply::Rotted, Told::Rotted) => true,
        (Reply::TooBig, Told::TooBig) => true,
        (Reply::TooManyMirrors, Told::TooManyMirrors) => true,
        (Reply::Bytes(bytes), Told::Bytes(runs, takes)) => {
            are_runs(bytes.as_slice(), *runs) && entry.takes.as_slice() == *takes
        }
        (Reply::Layout(text), Told::Layout(wanted)) => text.as_slice() == *wanted,
        (Reply::Split(name), Told::Split(wanted)) => name.as_slice() == *wanted,
        (Reply::NoFile(name), Told::NoFile(wanted)) => name.as_slice() == *wanted,
        (Reply::Exists(name), Told::Exists(wanted)) => name.as_slice() == *wanted,
        (reply, told) => is_numbered(reply, told) || is_listed(reply, told),
    }
}

/// Whether it is this answer, with these numbers.
fn is_numbered(reply: &Reply, told: &Told) -> bool {
    match (reply, told) {
        (Reply::Removed(id), Told::Removed(wanted)) => *id == *wanted,
        (Reply::LastFresh(id), Told::LastFresh(wanted)) => *id == *wanted,
        (Reply::StaleMirror(id), Told::StaleMirror(wanted)) => *id == *wanted,
        (Reply::NoMirrorId(id), Told::NoMirrorId(wanted)) => *id == *wanted,
        (Reply::Same(count), Told::Same(wanted)) => *count == *wanted,
        (Reply::Evicted(place), Told::Evicted(wanted)) => *place == *wanted,
        (Reply::Broken(place), Told::Broken(wanted)) => *place == *wanted,
        (Reply::AllOffline(byte), Told::AllOffline(wanted)) => *byte == *wanted,
        (Reply::WriteFault(call), Told::WriteFault(wanted)) => *call == *wanted,
        (Reply::NoPrimary(range), Told::NoPrimary(start, end)) => {
            range.start == *start && range.end == *end
        }
        (
            Reply::DifferAt {
                offset,
                ours,
                theirs,
            },
            Told::DifferAt(at, first, second),
        ) => *offset == *at && *ours == *first && *theirs == *second,
        _ => false,
    }
}

/// Whether it is this answer, with these lists.
fn is_listed(reply: &Reply, told: &Told) -> bool {
    match (reply, told) {
        (Reply::Fault { byte, calls }, Told::Fault(wanted, listed)) => {
            *byte == *wanted && calls.as_slice() == *listed
        }
        (Reply::Copied { cleared, left }, Told::Copied(ids, lefts)) => {
            cleared.as_slice() == *ids && left.as_slice() == *lefts
        }
        (Reply::Merged(ids), Told::Merged(wanted)) => ids.as_slice() == *wanted,
        (Reply::Differ(diffs), Told::Differ(wanted)) => diffs.as_slice() == *wanted,
        _ => false,
    }
}

/// Whether the bytes are these runs.
fn are_runs(bytes: &[u8], runs: &[(u8, usize)]) -> bool {
    let mut rest = bytes;
    for (byte, count) in runs {
        if rest.len() < *count {
            return false;
        }
        let (run, more) = rest.split_at(*count);
        if !run.iter().all(|found| *found == *byte) {
            return false;
        }
        rest = more;
    }
    rest.is_empty()
}
