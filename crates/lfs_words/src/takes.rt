//! What an option adds to what is asked for.

ghost use Rattle.std.specs.Prelude.{◌≡◌, ◌++◌, ◌∷◌, IfOk};
ghost use Rattle.lfs_values.specs.Answers.{Gives};
ghost use Rattle.lfs_words.specs.Options.{name_of, id_of, ended_mirror, ended_mirrors, next_mirror, take_last, take_set, take_change, take_open, take_mirrors, take_extend, take_split, take_value, bars_dash, begins_with_dash, take};

use crate::asked::{Asked, Changed, MirrorAsk, MirrorAsks, Mirrors, OpenMirror};
use crate::command::SplitTo;
use crate::parts::{Draft, no_parts, part_value, parts_of};
use flr_base::{Ids, Name, NoMemory};
use lfs_values::{Fault, Key, Stop, component_id, mirror_id, read_flags, read_ids};
use std::alloc::Global;
use text_words::{is_name, number_in};

const NOTHING: Changed = Changed {
    named: false,
    id: None,
    change: None,
};

/// The bytes of the word.
pub(crate) fn copied(alloc: Global, word: &[u8]) -> Result<Name, NoMemory>
    ensures { IfOk result (λ name. name ≡ word.now) }
{
    let name = Vec::from_slice(alloc, word)?;
    Ok(Name::from_vec(name))
}

/// The name that the word is.
fn name_of(alloc: Global, word: &[u8]) -> Result<Name, Stop>
    ensures { Gives result (name_of word.now) }
{
    if !is_name(word) {
        return Err(Stop::Word(Fault::BadName));
    }
    Ok(copied(alloc, word)?)
}

/// The id of a mirror that the word is.
fn id_of(word: &[u8]) -> Result<u16, Stop>
    ensures { Gives result (id_of word.now) }
{
    match mirror_id(word) {
        Some(id) => Ok(id),
        None => Err(Stop::Word(Fault::BadNumber)),
    }
}

fn take_change(alloc: Global, changed: Changed, key: Key, word: &[u8]) -> Result<Asked, Stop>
    ensures { Gives result (take_change changed key word.now) }
{
    match key {
        Key::CompSet => Ok(Asked::CompSet(Changed {
            named: true,
            ..changed
        })),
        Key::Id => match component_id(word) {
            Some(id) => Ok(Asked::CompSet(Changed {
                id: Some(id),
                ..changed
            })),
            None => Err(Stop::Word(Fault::BadNumber)),
        },
        Key::CompFlags => {
            let change = read_flags(alloc, word)?;
            Ok(Asked::CompSet(Changed {
                change: Some(change),
                ..changed
            }))
        }
        _ => Err(Stop::Word(Fault::UnknownWord)),
    }
}

fn take_set(alloc: Global, parts: Draft, key: Key, word: &[u8]) -> Result<Asked, Stop>
    ensures { Gives result (take_set parts key word.now) }
{
    match key {
        Key::CompSet | Key::Id | Key::CompFlags => take_change(alloc, NOTHING, key, word),
        _ => {
            let parts = part_value(parts, key, word)?;
            Ok(Asked::SetStripe(parts))
        }
    }
}

/// The mirror with nothing left open.
fn ended_mirror(mirror: OpenMirror) -> Result<MirrorAsk, NoMemory>
    ensures { IfOk result (λ ask. ask ≡ ended_mirror mirror) }
{
    let OpenMirror {
        count,
        prefer,
        parts,
    } = mirror;
    let parts = parts_of(parts)?;
    Ok(MirrorAsk {
        count: count.unwrap_or(1),
        prefer,
        parts,
    })
}

/// All mirrors, the last one ended.
pub(crate) fn ended_mirrors(mirrors: Mirrors) -> Result<MirrorAsks, NoMemory>
    ensures { IfOk result (λ all. all ≡ ended_mirrors mirrors) }
{
    let Mirrors { mut done, last } = mirrors;
    if let Some(last) = last {
        let ask = ended_mirror(last)?;
        done.push(ask)?;
    }
    Ok(done)
}

fn next_mirror(alloc: Global, mirrors: Mirrors, count: Option<u8>) -> Result<Mirrors, NoMemory>
    ensures { IfOk result (λ next. next ≡ next_mirror mirrors count) }
{
    let done = ended_mirrors(mirrors)?;
    Ok(Mirrors {
        done,
        last: Some(OpenMirror {
            count,
            prefer: false,
            parts: no_parts(alloc),
        }),
    })
}

fn take_open(mirror: OpenMirror, key: Key, word: &[u8]) -> Result<OpenMirror, Stop>
    ensures { Gives result (take_open mirror key word.now) }
{
    let OpenMirror {
        count,
        prefer,
        parts,
    } = mirror;
    match key {
        Key::Prefer => Ok(OpenMirror {
            count,
            prefer: true,
            parts,
        }),
        _ => {
            let parts = part_value(parts, key, word)?;
            Ok(OpenMirror {
                count,
                prefer,
                parts,
            })
        }
    }
}

fn take_last(mirrors: Mirrors, key: Key, word: &[u8]) -> Result<Mirrors, Stop>
    ensures { Gives result (take_last mirrors key word.now) }
{
    let Mirrors { done, last } = mirrors;
    match last {
        None => Err(Stop::Word(Fault::UnknownWord)),
        Some(last) => {
            let last = take_open(last, key, word)?;
            Ok(Mirrors {
                done,
                last: Some(last),
            })
        }
    }
}

fn take_mirrors(
    alloc: Global,
    mirrors: Mirrors,
    key: Key,
    word: &[u8],
    most: u8,
) -> Result<Mirrors, Stop>
    ensures { Gives result (take_mirrors most mirrors key word.now) }
{
    match key {
        Key::Mirror => Ok(next_mirror(alloc, mirrors, None)?),
        Key::Mirrors => match number_in(word, 1, u64::from(most)) {
            Some(count) => Ok(next_mirror(alloc, mirrors, Some(count as u8))?),
            None => Err(Stop::Word(Fault::BadNumber)),
        },
        _ => take_last(mirrors, key, word),
    }
}

fn take_extend(
    alloc: Global,
    mirrors: Mirrors,
    key: Key,
    word: &[u8],
    most: u8,
) -> Result<Asked, Stop>
    ensures { Gives result (take_extend most mirrors key word.now) }
{
    match key {
        Key::File => {
            let victim = name_of(alloc, word)?;
            Ok(Asked::ExtendBy {
                mirror: mirrors.last.is_some(),
                victim,
            })
        }
        _ => {
            let mirrors = take_mirrors(alloc, mirrors, key, word, most)?;
            Ok(Asked::Extend(mirrors))
        }
    }
}

fn take_split(
    alloc: Global,
    mirror: Option<u16>,
    to: SplitTo,
    key: Key,
    word: &[u8],
) -> Result<Asked, Stop>
    ensures { Gives result (take_split mirror to key word.now) }
{
    match key {
        Key::MirrorId | Key::MirrorIdIs => {
            let id = id_of(word)?;
            Ok(Asked::Split {
                mirror: Some(id),
                to,
            })
        }
        Key::Destroy => Ok(Asked::Split {
            mirror,
            to: SplitTo::Destroy,
        }),
        Key::File => {
            let name = name_of(alloc, word)?;
            Ok(Asked::Split {
                mirror,
                to: SplitTo::Named(name),
            })
        }
        _ => Err(Stop::Word(Fault::UnknownWord)),
    }
}

fn take_value(alloc: Global, asked: Asked, key: Key, word: &[u8], most: u8) -> Result<Asked, Stop>
    ensures { Gives result (take_value most asked key word.now) }
{
    match asked {
        Asked::GetStripe => Err(Stop::Word(Fault::UnknownWord)),
        Asked::Verify => Err(Stop::Word(Fault::UnknownWord)),
        Asked::SetStripe(parts) => take_set(alloc, parts, key, word),
        Asked::CompSet(changed) => take_change(alloc, changed, key, word),
        Asked::Create(mirrors) => {
            let mirrors = take_mirrors(alloc, mirrors, key, word, most)?;
            Ok(Asked::Create(mirrors))
        }
        Asked::Extend(mirrors) => take_extend(alloc, mirrors, key, word, most),
        Asked::ExtendBy { mirror: _, victim } => Ok(Asked::ExtendBy {
            mirror: true,
            victim,
        }),
        Asked::Split { mirror, to } => take_split(alloc, mirror, to, key, word),
        Asked::Delete { mirror: _ } => {
            let id = id_of(word)?;
            Ok(Asked::Delete { mirror: Some(id) })
        }
        Asked::Resync { only: _ } => {
            let ids = read_ids(alloc, word)?;
            Ok(Asked::Resync { only: Some(ids) })
        }
    }
}

/// Whether a word that begins with a dash is no value of the option, but another option.
fn bars_dash(key: Key) -> bool
    ensures { result ≡ bars_dash key }
{
    match key {
        Key::Size | Key::Id | Key::File | Key::MirrorId | Key::Only => true,
        _ => false,
    }
}

fn begins_with_dash(word: &[u8]) -> bool
    ensures { result ≡ begins_with_dash word.now }
{
    match word {
        [b'-', ..] => true,
        _ => false,
    }
}

/// What is asked for with one more option, that has this value.
pub(crate) fn take(
    alloc: Global,
    asked: Asked,
    key: Key,
    word: &[u8],
    most: u8,
) -> Result<Asked, Stop>
    ensures { Gives result (take most asked key word.now) }
{
    if bars_dash(key) && begins_with_dash(word) {
        return Err(Stop::Word(Fault::UnknownWord));
    }
    take_value(alloc, asked, key, word, most)
}
