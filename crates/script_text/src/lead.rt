//! What the first word of a line begins.

ghost use Rattle.std.specs.Prelude.{◌≡◌};
ghost use Rattle.script_text.specs.Leads.{verb_of, head_of, lead_of, is_comment, unplaced};

use crate::error::LineError;
use lfs_values::Cause;

/// A command.
#[derive(Clone, Copy, Debug, PartialEq, Eq)]
pub(crate) enum Verb {
    Read,
    Write,
    Truncate,
    Lfs,
    Evict,
    Rot,
}

/// What a first word begins.
#[derive(Clone, Copy, Debug, PartialEq, Eq)]
pub(crate) enum Lead {
    Script,
    Targets,
    Mirrors,
    Fail,
    Client,
    Command(Verb),
    Schedule,
    /// No line.
    Other,
}

#[tactic(auto, unfolding(crate::specs::Leads::verb_of))]
fn verb_of(word: &[u8]) -> Option<Verb>
    ensures { result ≡ verb_of word.now }
{
    if word == b"read".as_slice() {
        Some(Verb::Read)
    } else if word == b"write".as_slice() {
        Some(Verb::Write)
    } else if word == b"truncate".as_slice() {
        Some(Verb::Truncate)
    } else if word == b"lfs".as_slice() {
        Some(Verb::Lfs)
    } else if word == b"evict".as_slice() {
        Some(Verb::Evict)
    } else if word == b"rot".as_slice() {
        Some(Verb::Rot)
    } else {
        None
    }
}

#[tactic(auto, unfolding(crate::specs::Leads::head_of))]
fn head_of(word: &[u8]) -> Lead
    ensures { result ≡ head_of word.now }
{
    if word == b"flr-script".as_slice() {
        Lead::Script
    } else if word == b"targets".as_slice() {
        Lead::Targets
    } else if word == b"mirrors".as_slice() {
        Lead::Mirrors
    } else if word == b"fail".as_slice() {
        Lead::Fail
    } else if word == b"client".as_slice() {
        Lead::Client
    } else if word == b"schedule".as_slice() {
        Lead::Schedule
    } else {
        Lead::Other
    }
}

pub(crate) fn lead_of(word: &[u8]) -> Lead
    ensures { result ≡ lead_of word.now }
{
    match verb_of(word) {
        Some(verb) => Lead::Command(verb),
        None => head_of(word),
    }
}

/// Whether lines whose first word this is are skipped.
pub(crate) fn is_comment(word: &[u8]) -> bool
    ensures { result ≡ is_comment word.now }
{
    match word {
        [] => false,
        [byte, ..] => *byte == b'#',
    }
}

/// Why a line that begins so may not stand.
pub(crate) fn unplaced(knows_mirrors: bool, lead: Lead) -> LineError
    ensures { result ≡ unplaced knows_mirrors lead }
{
    match lead {
        Lead::Other => LineError::Bad(Cause::UnknownWord { place: 1 }),
        Lead::Mirrors if !knows_mirrors => LineError::Bad(Cause::UnknownWord { place: 1 }),
        _ => LineError::Bad(Cause::Misplaced),
    }
}
