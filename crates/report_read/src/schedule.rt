//! The line of who stepped.

ghost use Rattle.std.specs.Prelude.{◌≡◌, ◌↔◌, List, ℕ, Some, None, IfOk, MatchOption, OnOk, replicate, ◌++◌};
ghost use Rattle.std.specs.Option.{option_map};
ghost use Rattle.flr_base.specs.Runs.{bytes_of};
ghost use Rattle.layout_text.specs.LineWords.{slices};
ghost use Rattle.report_read.specs.Schedules.{IsSchedule, run_in, runs_in, schedule_line, schedule_of, schedule_words};

use flr_base::{NoMemory, Octets, Run};
use std::alloc::Global;
use text_words::{cut, number_in, parts};

/// The run that the word is: `CLIENT*TIMES`.
#[tactic(auto, unfolding(crate::specs::Schedules::run_in))]
fn run_in(word: &[u8]) -> Option<Run>
    ensures { result ≡ run_in word.now }
{
    let (client, times) = cut(word, b'*')?;
    let client = number_in(client, 1, 16)?;
    let times = number_in(times, 1, 4294967295)?;
    Some(Run {
        byte: client as u8,
        count: times as u32,
    })
}

/// The runs that the words are, neighbours of different clients.
#[tactic(auto, using(crate::proofs::RunWords::run_words))]
fn runs_in(alloc: Global, words: &[&[u8]]) -> Result<Option<Vec<Run>>, NoMemory>
    ensures { IfOk result (λ found. MatchOption found (runs_in 0 (slices words.now) ≡ None) (λ runs. runs_in 0 (slices words.now) ≡ Some runs.items)) }
{
    let mut runs = Vec::new(alloc);
    let mut last: u8 = 0;
    let mut left = words;
    while let [first, rest @ ..] = left {
        let Some(run) = run_in(first) else {
            return Ok(None);
        };
        if run.byte == last {
            return Ok(None);
        }
        last = run.byte;
        runs.push(run)?;
        left = rest;
    }
    Ok(Some(runs))
}

/// Appends the places of a run.
fn push_run(places: &mut Vec<u8>, run: Run) -> Result<(), NoMemory>
    ensures { OnOk result (places.new.items ≡ places.old.items ++ replicate run.count run.byte) }
{
    for _ in 0..run.count {
        places.push(run.byte)?;
    }
    Ok(())
}

/// The client of each place.
fn places(alloc: Global, runs: &[Run]) -> Result<Octets, NoMemory>
    ensures { IfOk result (λ found. found ≡ bytes_of runs.now) }
{
    let mut places = Vec::new(alloc);
    for run in runs {
        push_run(&mut places, *run)?;
    }
    Ok(Octets::from_vec(places))
}

fn places_in(alloc: Global, words: &[&[u8]]) -> Result<Option<Octets>, NoMemory>
    ensures { IfOk result (λ found. found ≡ option_map bytes_of (runs_in 0 (slices words.now))) }
{
    let Some(runs) = runs_in(alloc, words)? else {
        return Ok(None);
    };
    let found = places(alloc, &runs)?;
    Ok(Some(found))
}

fn schedule_words(alloc: Global, words: &[&[u8]]) -> Result<Option<Octets>, NoMemory>
    ensures { IfOk result (λ found. found ≡ schedule_words (slices words.now)) }
{
    match words {
        [first, rest @ ..] if *first == b"schedule".as_slice() => places_in(alloc, rest),
        _ => Ok(None),
    }
}

#[tactic(auto, unfolding(crate::specs::Schedules::schedule_of))]
fn schedule_of(alloc: Global, line: &[u8]) -> Result<Option<Octets>, NoMemory>
    ensures { IfOk result (λ found. found ≡ schedule_of line.now) }
{
    let words = parts(alloc, line, b' ')?;
    schedule_words(alloc, &words)
}

/// The client of each place of a run, as the line says: `schedule` and the runs `CLIENT*TIMES`,
/// neighbours of different clients. There is none where the line isn't one of a report.
pub fn read_schedule(alloc: Global, line: &[u8]) -> Result<Option<Octets>, NoMemory>
    ensures value { IfOk result (λ found. found ≡ schedule_of line.now) }
    ensures spelled { IfOk result (λ found. (schedule : List ℕ) → ((found ≡ Some schedule) ↔ (IsSchedule schedule × (line.now ≡ schedule_line schedule)))) }
{
    schedule_of(alloc, line)
}
