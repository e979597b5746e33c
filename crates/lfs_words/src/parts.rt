//! The parts of a mirror, as their options come.

ghost use Rattle.std.specs.Prelude.{◌≡◌, ◌++◌, ◌∷◌, [], None, IfOk};
ghost use Rattle.lfs_values.specs.Answers.{Gives};
ghost use Rattle.lfs_words.specs.Parts.{no_parts, part_stands, ended_part, parts_of, parts_before, part_value};

use composite_layout::{Part, Parts};
use flr_base::{EOF, NoMemory};
use lfs_values::{Fault, Key, Stop, stripe_count, stripe_size};
use std::alloc::Global;
use text_words::end;

/// The parts that are ended, and the options of the last one.
#[derive(Debug, Drop)]
pub(crate) struct Draft {
    pub done: Parts,
    pub end: Option<u64>,
    pub size: Option<u64>,
    pub count: Option<i32>,
}

pub(crate) fn no_parts(alloc: Global) -> Draft
    ensures { result ≡ no_parts }
{
    Draft {
        done: Parts::new(alloc),
        end: None,
        size: None,
        count: None,
    }
}

/// Whether the option may stand behind those that stand.
pub(crate) fn part_stands(draft: &Draft, key: Key) -> Result<(), Fault>
    ensures { result ≡ part_stands draft.now key }
{
    match key {
        Key::End => {
            if draft.end.is_none() && (draft.size.is_some() || draft.count.is_some()) {
                Err(Fault::Conflict)
            } else {
                Ok(())
            }
        }
        Key::Size => {
            if draft.size.is_some() {
                Err(Fault::Repeated)
            } else {
                Ok(())
            }
        }
        Key::Count => {
            if draft.count.is_some() {
                Err(Fault::Repeated)
            } else {
                Ok(())
            }
        }
        _ => Err(Fault::UnknownWord),
    }
}

/// The last part, with what doesn't stand left open.
fn ended_part(draft: &Draft) -> Part
    ensures { result ≡ ended_part draft.now }
{
    Part {
        end: draft.end.unwrap_or(EOF),
        size: draft.size.unwrap_or(0),
        count: draft.count.unwrap_or(0),
    }
}

/// All parts, with the last one.
pub(crate) fn parts_of(draft: Draft) -> Result<Parts, NoMemory>
    ensures { IfOk result (λ parts. parts ≡ parts_of draft) }
{
    let last = ended_part(&draft);
    let mut parts = draft.done;
    parts.push(last)?;
    Ok(parts)
}

/// The parts before a new one: the last one too, where it has an end.
fn parts_before(draft: Draft) -> Result<Parts, NoMemory>
    ensures { IfOk result (λ parts. parts ≡ parts_before draft) }
{
    if draft.end.is_some() {
        return parts_of(draft);
    }
    Ok(draft.done)
}

/// The parts with one more option.
pub(crate) fn part_value(draft: Draft, key: Key, word: &[u8]) -> Result<Draft, Stop>
    ensures { Gives result (part_value draft key word.now) }
{
    match key {
        Key::End => match end(word) {
            Some(end) => {
                let done = parts_before(draft)?;
                Ok(Draft {
                    done,
                    end: Some(end),
                    size: None,
                    count: None,
                })
            }
            None => Err(Stop::Word(Fault::BadNumber)),
        },
        Key::Size => match stripe_size(word) {
            Some(size) => Ok(Draft {
                size: Some(size),
                ..draft
            }),
            None => Err(Stop::Word(Fault::BadNumber)),
        },
        Key::Count => match stripe_count(word) {
            Some(count) => Ok(Draft {
                count: Some(count),
                ..draft
            }),
            None => Err(Stop::Word(Fault::BadNumber)),
        },
        _ => Err(Stop::Word(Fault::UnknownWord)),
    }
}
