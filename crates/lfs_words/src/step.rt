//! One word of a command.

ghost use Rattle.std.specs.Prelude.{◌≡◌, ◌≢◌};
ghost use Rattle.lfs_values.specs.Answers.{Gives};
ghost use Rattle.lfs_values.specs.declared.cause.Stop.TheVariants as stops;
ghost use Rattle.lfs_words.specs.Options.{is_apart, is_complete};
ghost use Rattle.lfs_words.specs.Reading.{start, after_lfs, after_mirror, file, given, opened, option, word_of, step, IsOpen};
ghost use Rattle.lfs_words.specs.Options.{no_mirrors};

use crate::asked::{Asked, Changed, MirrorAsks, Mirrors};
use crate::command::SplitTo;
use crate::parts::no_parts;
use crate::stands::may_stand;
use crate::takes::{copied, take};
use flr_base::Name;
use lfs_values::{Fault, Key, Stop, key_of, value_of};
use std::alloc::Global;
use text_words::is_name;

/// What the words so far are.
#[derive(Debug, Drop)]
pub(crate) enum State {
    Start,
    /// `lfs`.
    Lfs,
    /// `lfs mirror`.
    Mirror,
    /// A form and options behind it.
    Options(Asked),
    /// The same and an option whose value comes next.
    Value { asked: Asked, key: Key },
    /// The same and the file.
    Done { asked: Asked, name: Name },
}

#[tactic(auto, unfolding(crate::specs::Reading::start))]
fn start(word: &[u8]) -> Result<State, Stop>
    ensures gives { Gives result (start word.now) }
    ensures words { result ≢ Err stops.NoMemory }
{
    if word == b"lfs".as_slice() {
        Ok(State::Lfs)
    } else {
        Err(Stop::Word(Fault::UnknownWord))
    }
}

#[tactic(auto, unfolding(crate::specs::Reading::after_lfs))]
fn after_lfs(alloc: Global, word: &[u8]) -> Result<State, Stop>
    ensures gives { Gives result (after_lfs word.now) }
    ensures words { result ≢ Err stops.NoMemory }
{
    if word == b"mirror".as_slice() {
        Ok(State::Mirror)
    } else if word == b"setstripe".as_slice() {
        Ok(State::Options(Asked::SetStripe(no_parts(alloc))))
    } else if word == b"getstripe".as_slice() {
        Ok(State::Options(Asked::GetStripe))
    } else {
        Err(Stop::Word(Fault::UnknownWord))
    }
}

fn no_mirrors(alloc: Global) -> Mirrors
    ensures { result ≡ no_mirrors }
{
    Mirrors {
        done: MirrorAsks::new(alloc),
        last: None,
    }
}

#[tactic(auto, unfolding(crate::specs::Reading::after_mirror))]
fn after_mirror(alloc: Global, word: &[u8]) -> Result<State, Stop>
    ensures gives { Gives result (after_mirror word.now) }
    ensures words { result ≢ Err stops.NoMemory }
{
    if word == b"create".as_slice() {
        Ok(State::Options(Asked::Create(no_mirrors(alloc))))
    } else if word == b"extend".as_slice() {
        Ok(State::Options(Asked::Extend(no_mirrors(alloc))))
    } else if word == b"split".as_slice() {
        Ok(State::Options(Asked::Split {
            mirror: None,
            to: SplitTo::Default,
        }))
    } else if word == b"delete".as_slice() {
        Ok(State::Options(Asked::Delete { mirror: None }))
    } else if word == b"resync".as_slice() {
        Ok(State::Options(Asked::Resync { only: None }))
    } else if word == b"verify".as_slice() {
        Ok(State::Options(Asked::Verify))
    } else {
        Err(Stop::Word(Fault::UnknownWord))
    }
}

/// Whether no option is missing.
fn is_complete(asked: &Asked) -> bool
    ensures { result ≡ is_complete asked.now }
{
    match asked {
        Asked::CompSet(Changed { named, id, change }) => {
            *named && id.is_some() && change.is_some()
        }
        Asked::Split { mirror, to: _ } => mirror.is_some(),
        Asked::Delete { mirror } => mirror.is_some(),
        _ => true,
    }
}

/// Whether the option's value is the next word.
fn is_apart(key: Key) -> bool
    ensures { result ≡ is_apart key }
{
    match key {
        Key::End | Key::Size | Key::Count | Key::File | Key::Id | Key::MirrorId | Key::Only => true,
        _ => false,
    }
}

fn file(alloc: Global, asked: Asked, word: &[u8]) -> Result<State, Stop>
    ensures { Gives result (file asked word.now) }
{
    if !is_complete(&asked) {
        return Err(Stop::Word(Fault::UnknownWord));
    }
    if !is_name(word) {
        return Err(Stop::Word(Fault::BadName));
    }
    let name = copied(alloc, word)?;
    Ok(State::Done { asked, name })
}

/// A value.
fn given(alloc: Global, asked: Asked, key: Key, word: &[u8], most: u8) -> Result<State, Stop>
    ensures { Gives result (given most asked key word.now) }
{
    let asked = take(alloc, asked, key, word, most)?;
    Ok(State::Options(asked))
}

/// An option that may stand.
fn opened(alloc: Global, asked: Asked, key: Key, word: &[u8], most: u8) -> Result<State, Stop>
    ensures { Gives result (opened most asked key word.now) }
{
    if is_apart(key) {
        return Ok(State::Value { asked, key });
    }
    given(alloc, asked, key, value_of(word, key), most)
}

/// An option.
fn option(alloc: Global, asked: Asked, key: Key, word: &[u8], most: u8) -> Result<State, Stop>
    ensures { Gives result (option most asked key word.now) }
{
    match may_stand(&asked, key) {
        Ok(()) => opened(alloc, asked, key, word, most),
        Err(fault) => Err(Stop::Word(fault)),
    }
}

/// An option or the file.
fn word_of(alloc: Global, asked: Asked, word: &[u8], most: u8) -> Result<State, Stop>
    ensures { Gives result (word_of most asked word.now) }
{
    match key_of(word) {
        Key::Plain => file(alloc, asked, word),
        key => option(alloc, asked, key, word, most),
    }
}

/// One more word.
pub(crate) fn step(alloc: Global, state: State, word: &[u8], most: u8) -> Result<State, Stop>
    ensures gives { Gives result (step most state word.now) }
    // Memory is taken for what stands behind a form alone.
    ensures memory { result ≡ Err stops.NoMemory → IsOpen state }
{
    match state {
        State::Start => start(word),
        State::Lfs => after_lfs(alloc, word),
        State::Mirror => after_mirror(alloc, word),
        State::Options(asked) => word_of(alloc, asked, word, most),
        State::Value { asked, key } => given(alloc, asked, key, word, most),
        State::Done { asked: _, name: _ } => Err(Stop::Word(Fault::Extra)),
    }
}
