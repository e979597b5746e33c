//! One more line of a script.

ghost use Rattle.std.specs.Prelude.{◌≡◌, ◌<◌, ◌≤◌, ◌∷◌, length, IfOk};
ghost use Rattle.text_words.specs.Pieces.{words_of};
ghost use Rattle.script_text.specs.Answers.{Gives, texts};
ghost use Rattle.script_text.specs.Keeping.{IsGoodHead, IsGoodBody, IsGood};
ghost use Rattle.script_text.specs.Step.{knows_mirrors, counted, with_fails, with_command, few_clients, few_commands, behind_start, behind_version, behind_targets, behind_head, client_behind, command_behind, behind_client, said, words_line, line_of};
ghost use Rattle.script_text.specs.declared.lead.Lead.TheVariants as leads;

use crate::command_lines::command_by;
use crate::error::LineError;
use crate::fails::fail_line;
use crate::head_lines::{client_line, mirrors_line, targets_line, version_line};
use crate::lead::{Lead, Verb, is_comment, lead_of, unplaced};
use crate::lines::as_text;
use crate::state::{Body, Head, State, Version};
use script_values::{Clients, Commands, Fails, What};
use std::alloc::Global;
use text_words::line_words;

/// How many mirrors a file may have in a script of version 1.
const MIRRORS_OF_ONE: u8 = 16;

const MOST_CLIENTS: usize = 16;

const MOST_COMMANDS: u32 = 4096;

/// Whether the version has lines `mirrors`.
pub(crate) fn knows_mirrors(version: Version) -> bool
    ensures { result ≡ knows_mirrors version }
{
    match version {
        Version::One => false,
        Version::Two => true,
    }
}

fn behind_start(lead: Lead, words: &[&[u8]]) -> Result<State, LineError>
    ensures { result ≡ behind_start lead (texts words.now) }
{
    match lead {
        Lead::Script => Ok(State::Version(version_line(words)?)),
        _ => Err(unplaced(true, lead)),
    }
}

fn counted(alloc: Global, version: Version, targets: u8) -> State
    ensures { result ≡ counted version targets }
{
    match version {
        Version::One => State::Fails(Head {
            version,
            targets,
            most: MIRRORS_OF_ONE,
            fails: Fails::new(alloc),
        }),
        Version::Two => State::Targets(targets),
    }
}

fn behind_version(
    alloc: Global,
    version: Version,
    lead: Lead,
    words: &[&[u8]],
) -> Result<State, LineError>
    ensures { result ≡ behind_version version lead (texts words.now) }
{
    match lead {
        Lead::Targets => Ok(counted(alloc, version, targets_line(words)?)),
        _ => Err(unplaced(knows_mirrors(version), lead)),
    }
}

fn behind_targets(
    alloc: Global,
    targets: u8,
    lead: Lead,
    words: &[&[u8]],
) -> Result<State, LineError>
    ensures { result ≡ behind_targets targets lead (texts words.now) }
{
    match lead {
        Lead::Mirrors => Ok(State::Fails(Head {
            version: Version::Two,
            targets,
            most: mirrors_line(words)?,
            fails: Fails::new(alloc),
        })),
        _ => Err(unplaced(true, lead)),
    }
}

fn with_fails(head: Head, words: &[&[u8]]) -> Result<State, LineError>
    requires { IsGoodHead head }
    ensures { Gives result (behind_head head leads.Fail (texts words.now)) }
{
    let Head {
        version,
        targets,
        most,
        mut fails,
    } = head;
    fail_line(&mut fails, version, targets, words)?;
    Ok(State::Fails(Head {
        version,
        targets,
        most,
        fails,
    }))
}

fn behind_head(alloc: Global, head: Head, lead: Lead, words: &[&[u8]]) -> Result<State, LineError>
    requires { IsGoodHead head }
    ensures { Gives result (behind_head head lead (texts words.now)) }
{
    match lead {
        Lead::Fail => with_fails(head, words),
        Lead::Client => {
            client_line(words, 1)?;
            Ok(State::Commands(Body {
                head,
                done: Clients::new(alloc),
                own: Commands::new(alloc),
                commands: 0,
            }))
        }
        _ => Err(unplaced(knows_mirrors(head.version), lead)),
    }
}

fn few_clients(before: usize) -> Result<(), LineError>
    ensures value { result ≡ few_clients before }
    ensures few { IfOk result (λ _. before < 16) }
{
    if before < MOST_CLIENTS {
        Ok(())
    } else {
        Err(LineError::TooMany(What::Clients))
    }
}

fn few_commands(before: u32) -> Result<(), LineError>
    ensures value { result ≡ few_commands before }
    ensures few { IfOk result (λ _. before < 4096) }
{
    if before < MOST_COMMANDS {
        Ok(())
    } else {
        Err(LineError::TooMany(What::Commands))
    }
}

/// A line `client` behind another.
fn client_behind(alloc: Global, body: Body, words: &[&[u8]]) -> Result<State, LineError>
    requires { IsGoodBody body }
    ensures { Gives result (client_behind body (texts words.now)) }
{
    let Body {
        head,
        mut done,
        own,
        commands,
    } = body;
    let count = done.len() + 1;
    few_clients(count)?;
    client_line(words, count as u64 + 1)?;
    done.push(own)?;
    Ok(State::Commands(Body {
        head,
        done,
        own: Commands::new(alloc),
        commands,
    }))
}

/// A line of a command, of all these words.
fn command_behind(
    alloc: Global,
    body: Body,
    verb: Verb,
    words: &[&[u8]],
    behind: &[&[u8]],
) -> Result<State, LineError>
    requires { IsGoodBody body }
    ensures { Gives result (command_behind body verb (texts words.now) (texts behind.now)) }
{
    let Body {
        head,
        done,
        mut own,
        commands,
    } = body;
    few_commands(commands)?;
    let command = command_by(alloc, head.targets, head.most, verb, words, behind)?;
    own.push(command)?;
    Ok(State::Commands(Body {
        head,
        done,
        own,
        commands: commands + 1,
    }))
}

fn behind_client(
    alloc: Global,
    body: Body,
    lead: Lead,
    words: &[&[u8]],
    behind: &[&[u8]],
) -> Result<State, LineError>
    requires { IsGoodBody body }
    ensures { Gives result (behind_client body lead (texts words.now) (texts behind.now)) }
{
    match lead {
        Lead::Client => client_behind(alloc, body, behind),
        Lead::Command(verb) => command_behind(alloc, body, verb, words, behind),
        _ => Err(unplaced(knows_mirrors(body.head.version), lead)),
    }
}

/// A line of words of which the first begins this.
fn said(
    alloc: Global,
    state: State,
    lead: Lead,
    words: &[&[u8]],
    behind: &[&[u8]],
) -> Result<State, LineError>
    requires { IsGood state }
    ensures { Gives result (said state lead (texts words.now) (texts behind.now)) }
{
    match state {
        State::Start => behind_start(lead, behind),
        State::Version(version) => behind_version(alloc, version, lead, behind),
        State::Targets(targets) => behind_targets(alloc, targets, lead, behind),
        State::Fails(head) => behind_head(alloc, head, lead, behind),
        State::Commands(body) => behind_client(alloc, body, lead, words, behind),
    }
}

fn words_line(alloc: Global, state: State, words: &[&[u8]]) -> Result<State, LineError>
    requires { IsGood state }
    ensures { Gives result (words_line state (texts words.now)) }
{
    match words {
        [] => Ok(state),
        [word, behind @ ..] => {
            if is_comment(word) {
                Ok(state)
            } else {
                said(alloc, state, lead_of(word), words, behind)
            }
        }
    }
}

/// One more line.
#[tactic(auto, unfolding(crate::specs::Step::line_of))]
pub(crate) fn line_of(
    alloc: Global,
    state: State,
    text: &[u8],
    ended: bool,
) -> Result<State, LineError>
    requires { IsGood state }
    ensures { Gives result (line_of state (record { text = text.now; ended = ended })) }
{
    as_text(text, ended)?;
    let words = line_words(alloc, text)?;
    words_line(alloc, state, &words)
}
