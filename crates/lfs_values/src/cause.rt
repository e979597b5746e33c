//! Why a line isn't read. The causes and their texts are this project's own.

ghost use Rattle.flr_base.specs.Puts.{Puts};
ghost use Rattle.std.specs.Prelude.{◌≡◌, ◌++◌, ◌∷◌, OnOk, codes};
ghost use Rattle.std.specs.Fmt.{decimal};
ghost use Rattle.text_words.specs.Sizes.{end_text};
ghost use Rattle.lfs_values.specs.Causes.{cause_at, cause_text};
ghost use Rattle.lfs_values.specs.declared.cause.Stop.TheVariants as stops;

use flr_base::NoMemory;
use std::alloc::AllocFailed;
use text_words::{put_end, put_number};

/// Why a line is no line of a script or no command: the first word that fits no form which the words
/// before it allow, or what is wrong with the whole. Places count the line's words from 1.
#[derive(Clone, Copy, Debug, PartialEq, Eq)]
pub enum Cause {
    /// The last line has no byte 10 at its end.
    NoNewline,
    /// A byte isn't in 32 to 126.
    NotText,
    /// The line may not stand here.
    Misplaced,
    /// The word is nothing that may stand at its place.
    UnknownWord { place: u32 },
    /// The line ends where a form needs a word.
    Missing,
    /// The word stands behind the last word of the form.
    Extra { place: u32 },
    /// The word isn't a number, size, end or id of its form, or is out of its range.
    BadNumber { place: u32 },
    /// The word isn't a name.
    BadName { place: u32 },
    /// The word doesn't spell bytes.
    BadBytes { place: u32 },
    /// An option, an id or a flag stands twice.
    Repeated { place: u32 },
    /// The word contradicts one before it.
    Conflict { place: u32 },
    /// The other file of the command is the file itself.
    SameFile,
    /// New mirrors are asked for, and none is named.
    NoMirror,
    /// More mirrors are asked for than a file may have.
    TooManyMirrors,
    /// More than 64 parts are asked for in one mirror.
    TooManyParts,
    /// An end or a stripe size, in bytes, isn't a multiple of 65536.
    Unaligned { at: u64 },
    /// An end, in bytes, isn't greater than the one before, or it is the last and isn't EOF.
    Gap { at: u64 },
    /// Memory ran out.
    Memory,
}

/// What is wrong with a word of an `lfs` command, wherever it stands.
#[derive(Clone, Copy, Debug, PartialEq, Eq)]
pub enum Fault {
    /// It is nothing that may stand there.
    UnknownWord,
    /// It stands behind the last word of the form.
    Extra,
    /// It isn't a number of its form, or is out of its range.
    BadNumber,
    /// It isn't a name.
    BadName,
    /// It, or an item of it, stood before.
    Repeated,
    /// It contradicts one before it.
    Conflict,
}

/// Why a word has no value.
#[derive(Clone, Copy, Debug, PartialEq, Eq)]
pub enum Stop {
    /// The word is at fault.
    Word(Fault),
    /// Memory ran out.
    NoMemory,
}

impl From<NoMemory> for Stop {
    ghost from_gives = { λ _ e. e ≡ stops.NoMemory };

    fn from(_refused: NoMemory) -> Stop {
        Stop::NoMemory
    }
}

impl<T: Drop> From<AllocFailed<T>> for Stop {
    ghost from_gives = { λ _ e. e ≡ stops.NoMemory };

    fn from(_refused: AllocFailed<T>) -> Stop {
        Stop::NoMemory
    }
}

/// The cause that a fault of the word at this place is.
pub fn cause_at(fault: Fault, place: u32) -> Cause
    ensures value { result ≡ cause_at fault place }
{
    match fault {
        Fault::UnknownWord => Cause::UnknownWord { place },
        Fault::Extra => Cause::Extra { place },
        Fault::BadNumber => Cause::BadNumber { place },
        Fault::BadName => Cause::BadName { place },
        Fault::Repeated => Cause::Repeated { place },
        Fault::Conflict => Cause::Conflict { place },
    }
}

#[tactic(auto, using(flr_base::proofs::Puts::puts))]
fn put_text(out: &mut Vec<u8>, text: &[u8]) -> Result<(), NoMemory>
    ensures { Puts out.old.items out.new.items result (text.now) }
{
    out.extend_from_slice(text)?;
    Ok(())
}

#[tactic(auto, using(flr_base::proofs::Puts::puts))]
fn put_placed(out: &mut Vec<u8>, text: &[u8], place: u32) -> Result<(), NoMemory>
    ensures { Puts out.old.items out.new.items result (text.now ++ 32 ∷ decimal place) }
{
    put_text(out, text)?;
    put_number(out, u64::from(place))
}

#[tactic(auto, using(flr_base::proofs::Puts::puts))]
fn put_bytes(out: &mut Vec<u8>, text: &[u8], at: u64) -> Result<(), NoMemory>
    ensures { Puts out.old.items out.new.items result (text.now ++ 32 ∷ end_text (codes "EOF") at) }
{
    put_text(out, text)?;
    out.push(b' ')?;
    put_end(out, at)
}

/// Appends the text of the cause. Want of memory has none. Without memory the text may have grown by a
/// front of it.
#[tactic(auto, using(flr_base::proofs::Puts::puts))]
pub fn put_cause(out: &mut Vec<u8>, cause: Cause) -> Result<(), NoMemory>
    ensures appended { Puts out.old.items out.new.items result (cause_text cause) }
{
    match cause {
        Cause::NoNewline => put_text(out, b"no newline"),
        Cause::NotText => put_text(out, b"not text"),
        Cause::Misplaced => put_text(out, b"misplaced"),
        Cause::UnknownWord { place } => put_placed(out, b"unknown word", place),
        Cause::Missing => put_text(out, b"missing word"),
        Cause::Extra { place } => put_placed(out, b"extra word", place),
        Cause::BadNumber { place } => put_placed(out, b"bad number", place),
        Cause::BadName { place } => put_placed(out, b"bad name", place),
        Cause::BadBytes { place } => put_placed(out, b"bad bytes", place),
        Cause::Repeated { place } => put_placed(out, b"repeated", place),
        Cause::Conflict { place } => put_placed(out, b"conflict", place),
        Cause::SameFile => put_text(out, b"same file"),
        Cause::NoMirror => put_text(out, b"no mirror"),
        Cause::TooManyMirrors => put_text(out, b"too many mirrors"),
        Cause::TooManyParts => put_text(out, b"too many parts"),
        Cause::Unaligned { at } => put_bytes(out, b"unaligned", at),
        Cause::Gap { at } => put_bytes(out, b"gap", at),
        Cause::Memory => Ok(()),
    }
}
