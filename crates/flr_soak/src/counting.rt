//! What a soak counts.

ghost use Rattle.std.specs.Prelude.{◌≡◌, ◌<◌, ◌^◌, length};
ghost use Rattle.std.specs.List.{AllByRecursion};
ghost use Rattle.flr_base.specs.declared.reply.Entry.{Entry as AnEntry};
ghost use Rattle.report_text.specs.Answers.{IsPrintable};
ghost use Rattle.flr_soak.specs.Counts.{bytes_in, bytes_of, count_of};
ghost use Rattle.flr_soak.specs.Kinds.{is_of};

use flr_base::{Entry, Reply};

/// The kinds of calls that are counted by their answers.
#[derive(Clone, Copy, Debug, PartialEq, Eq)]
pub(crate) enum Kind {
    Read,
    Write,
    Copy,
    Verify,
}

fn is_of(kind: Kind, reply: &Reply) -> bool
    ensures { result ≡ is_of kind reply.now }
{
    match (kind, reply) {
        (Kind::Read, Reply::Bytes(_)) => true,
        (Kind::Write, Reply::Written) => true,
        (Kind::Copy, Reply::Copied { .. }) => true,
        (Kind::Verify, Reply::Same(_)) => true,
        _ => false,
    }
}

/// How many calls have an answer of this kind.
pub(crate) fn count(entries: &[Entry], kind: Kind) -> u64
    ensures { result ≡ count_of (is_of kind) entries.now }
{
    let mut found = 0;
    for entry in entries {
        if is_of(kind, &entry.reply) {
            found += 1;
        }
    }
    found
}

fn bytes_in(reply: &Reply) -> u64
    requires { IsPrintable reply.now }
    ensures bytes { result ≡ bytes_in reply.now }
    ensures few { result < 2 ^ 32 }
{
    match reply {
        Reply::Bytes(bytes) => bytes.len() as u64,
        _ => 0,
    }
}

/// How many bytes were read in all.
pub(crate) fn bytes_read(entries: &[Entry]) -> u64
    requires few { length entries.now < 2 ^ 31 }
    requires printable { AllByRecursion (λ (e : AnEntry). IsPrintable e.reply) entries.now }
    ensures { result ≡ bytes_of entries.now }
{
    let mut sum = 0;
    for entry in entries {
        sum += bytes_in(&entry.reply);
    }
    sum
}
