//! The runs of a schedule line.

ghost use Rattle.std.specs.Prelude.{◌≡◌, ◌<◌, ◌^◌, ◌-◌, length};
ghost use Rattle.text_words.specs.Pieces.{words_of};
ghost use Rattle.script_text.specs.Answers.{Gives};
ghost use Rattle.script_text.specs.Schedules.{client_run, run_of, runs_in};

use crate::error::LineError;
use lfs_values::Cause;
use script_values::{ClientRun, Runs};
use std::alloc::Global;
use text_words::{cut, next_word, number_in, number_to};

const MOST: u64 = 4294967295;

fn client_run(times: u32, word: &[u8]) -> Option<ClientRun>
    ensures { result ≡ client_run times word.now }
{
    let client = number_to(word, MOST)?;
    Some(ClientRun {
        client: client as u32,
        times,
    })
}

/// The run that the word is: `C`, or `C*N`.
#[tactic(auto, unfolding(crate::specs::Schedules::run_of))]
fn run_of(word: &[u8]) -> Option<ClientRun>
    ensures { result ≡ run_of word.now }
{
    match cut(word, b'*') {
        Some((client, times)) => {
            let times = number_in(times, 1, MOST)?;
            client_run(times as u32, client)
        }
        None => client_run(1, word),
    }
}

/// How many words the line has.
#[tactic(auto, using(crate::proofs::WordCounts::counting))]
fn count_words(line: &[u8]) -> usize
    ensures { result ≡ length (words_of line.now) }
{
    let mut count = 0;
    let mut is_in_word = false;
    for byte in line {
        if *byte == b' ' {
            is_in_word = false;
        } else {
            if !is_in_word {
                count += 1;
            }
            is_in_word = true;
        }
    }
    count
}

/// The runs that the words are, of which the first has place 2 in its line. They are counted first, so
/// that their room is taken once.
pub(crate) fn runs_in(alloc: Global, words: &[u8]) -> Result<Runs, LineError>
    requires { length (words_of words.now) < 2 ^ 32 - 3 }
    ensures { Gives result (runs_in 2 (words_of words.now)) }
{
    let mut runs = Vec::with_capacity(alloc, count_words(words))?;
    let mut place = 2;
    let mut rest = words;
    while let Some((word, behind)) = next_word(rest) {
        let Some(run) = run_of(word) else {
            return Err(LineError::Bad(Cause::BadNumber { place }));
        };
        runs.push(run)?;
        rest = behind;
        place += 1;
    }
    Ok(Runs::from_vec(runs))
}
