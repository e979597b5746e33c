//! The command that words are.

ghost use Rattle.std.specs.Prelude.{◌≡◌, ◌<◌, ◌≤◌, map, IfOk, OnErr, MatchResult};
ghost use Rattle.flr_base.specs.Reading.{reads};
ghost use Rattle.lfs_words.specs.declared.command.LfsCommand.{LfsCommand};
ghost use Rattle.lfs_words.specs.declared.step.State.TheVariants as state;
ghost use Rattle.lfs_words.specs.Goodness.{IsGoodState};
ghost use Rattle.lfs_words.specs.Grammar.{Spells, IsCause, IsBehindForm};
ghost use Rattle.lfs_words.specs.Reading.{step, place_at, ends, read_of, IsDone, Answers};
ghost use Rattle.lfs_values.specs.declared.cause.Cause.TheVariants as causes;

use crate::check::checked;
use crate::command::LfsCommand;
use crate::step::{State, step};
use flr_base::NoMemory;
use lfs_values::{Cause, Fault, Stop, cause_at};
use std::alloc::Global;

/// The state behind the words, or the first word at fault, counted from 0.
#[tactic(auto, using(flr_base::proofs::Reader::reader, crate::proofs::Wanting::stands_more))]
fn read_words(
    alloc: Global,
    words: &[&[u8]],
    most: u8,
) -> Result<Result<State, (usize, Fault)>, NoMemory>
    ensures exact { IfOk result (λ found. found ≡ reads (step most) 0 state.Start (map (λ word. word.now) words.now)) }
    ensures memory { OnErr result (IsBehindForm (map (λ word. word.now) words.now)) }
{
    let mut state = State::Start;
    for (at, word) in words.iter().enumerate() {
        match step(alloc, state, *word, most) {
            Ok(after) => state = after,
            Err(Stop::Word(fault)) => return Ok(Err((at, fault))),
            Err(Stop::NoMemory) => return Err(NoMemory),
        }
    }
    Ok(Ok(state))
}

fn place_at(at: usize) -> u32
    ensures { result ≡ place_at at }
{
    if at < u32::MAX as usize {
        at as u32 + 1
    } else {
        u32::MAX
    }
}

/// The command, where the words end behind the file.
fn ended(alloc: Global, state: State, most: u8) -> Result<LfsCommand, Cause>
    requires most { (0 < most) × (most ≤ 32) }
    requires good { IsGoodState state }
    ensures exact { Answers result (ends most state) }
    ensures memory { result ≡ Err causes.Memory → IsDone state }
{
    match state {
        State::Start => Err(Cause::Missing),
        State::Lfs => Err(Cause::Missing),
        State::Mirror => Err(Cause::Missing),
        State::Options(_) => Err(Cause::Missing),
        State::Value { asked: _, key: _ } => Err(Cause::Missing),
        State::Done { asked, name } => checked(alloc, asked, name, most),
    }
}

fn read(alloc: Global, words: &[&[u8]], most: u8) -> Result<LfsCommand, Cause>
    requires { (0 < most) × (most ≤ 32) }
    ensures exact { Answers result (read_of most (map (λ word. word.now) words.now)) }
    ensures memory { result ≡ Err causes.Memory → IsBehindForm (map (λ word. word.now) words.now) }
{
    let Ok(found) = read_words(alloc, words, most) else {
        return Err(Cause::Memory);
    };
    match found {
        Ok(state) => ended(alloc, state, most),
        Err((at, fault)) => Err(cause_at(fault, place_at(at))),
    }
}

/// The command that the words are, of which the first is `lfs`. A file may have at most `most` mirrors,
/// and so may a command. The words are read from the left, and the first that fits no form which the
/// words before it allow is the cause; places count from 1. Behind the words come the causes of the
/// whole: the same file twice, no mirror or too many, too many parts, ends and sizes in their order.
pub fn read_lfs(alloc: Global, words: &[&[u8]], most: u8) -> Result<LfsCommand, Cause>
    requires { (0 < most) × (most ≤ 32) }
    // What is read is spelt so. A refusal names the first word with which the words begin no command.
    // Memory is wanted for what stands behind a form alone.
    ensures read { MatchResult result (λ command. Spells most (map (λ word. word.now) words.now) command) (IsCause most (map (λ word. word.now) words.now)) }
    // What is spelt so is read, unless memory runs out.
    ensures again { (command : LfsCommand) → Spells most (map (λ word. word.now) words.now) command → MatchResult result (λ found. found ≡ command) (λ cause. cause ≡ causes.Memory) }
    // Which refusal it is.
    ensures exact { Answers result (read_of most (map (λ word. word.now) words.now)) }
{
    read(alloc, words, most)
}
