//! The words of the program.

ghost use Rattle.std.specs.Prelude.{◌≡◌, ◌∷◌, [], ℕ, List, Some, codes, map, string_bytes, IfOk};
ghost use Rattle.std.specs.List.{list_any};
ghost use Rattle.clap.specs.Words.{Row, first_of, first_value, found_of, subcommand_rows_of};
ghost use Rattle.flr_words.specs.CommandLine.{is_flag};
ghost use Rattle.flr_words.specs.Words.{AskFor, AsksFor};

use crate::command_line::matched;
use clap::ArgMatches;
use flr_base::NoMemory;
use std::alloc::Global;
use text_words::{number_in, number_to};

const MOST_SEED: u64 = 2147483647;

const MOST_CLIENTS: u64 = 16;

const MOST_CALLS: u64 = 255;

/// What the words behind the program's name ask for.
#[derive(Clone, Copy, Debug, PartialEq, Eq)]
pub enum Words {
    /// The one word `run`.
    Run,
    /// The one word `replay`.
    Replay,
    /// The one word `migrate`.
    Migrate,
    /// The words `soak SEED CLIENTS CALLS`.
    Soak { seed: u32, clients: u8, calls: u8 },
    /// The words `random SEED`.
    Random { seed: u32 },
    /// Nothing that is known.
    Other,
}

/// Whether the word begins with a hyphen.
fn is_flag(word: &String) -> bool
    ensures { result ≡ is_flag (string_bytes word.now) }
{
    matches!(word.as_bytes(), [b'-', ..])
}

/// Whether some word does.
fn has_flag(words: &[String]) -> bool
    ensures { result ≡ list_any is_flag (map string_bytes words.now) }
{
    for word in words {
        if is_flag(word) {
            return true;
        }
    }
    false
}

/// The numbers behind the word `soak`, in decimal.
fn soak(seed: &str, clients: &str, calls: &str) -> Words
    ensures { AskFor (codes "soak" ∷ seed.now ∷ clients.now ∷ calls.now ∷ []) result }
{
    let Some(seed) = number_to(seed.as_bytes(), MOST_SEED) else {
        return Words::Other;
    };
    let Some(clients) = number_in(clients.as_bytes(), 1, MOST_CLIENTS) else {
        return Words::Other;
    };
    let Some(calls) = number_in(calls.as_bytes(), 1, MOST_CALLS) else {
        return Words::Other;
    };
    Words::Soak {
        seed: seed as u32,
        clients: clients as u8,
        calls: calls as u8,
    }
}

/// The same, of the words that `clap` found to be the numbers.
fn soak_of(matches: &ArgMatches<'_>) -> Words
    ensures { (seed clients calls : List ℕ)
        → first_value (found_of matches.now) (codes "seed") ≡ Some seed
        → first_value (found_of matches.now) (codes "clients") ≡ Some clients
        → first_value (found_of matches.now) (codes "calls") ≡ Some calls
        → AskFor (codes "soak" ∷ seed ∷ clients ∷ calls ∷ []) result }
{
    let Some(seed) = matches.get_str("seed") else {
        return Words::Other;
    };
    let Some(clients) = matches.get_str("clients") else {
        return Words::Other;
    };
    let Some(calls) = matches.get_str("calls") else {
        return Words::Other;
    };
    soak(seed, clients, calls)
}

/// The number behind the word `random`, in decimal.
fn random(seed: &str) -> Words
    ensures { AskFor (codes "random" ∷ seed.now ∷ []) result }
{
    let Some(seed) = number_to(seed.as_bytes(), MOST_SEED) else {
        return Words::Other;
    };
    Words::Random { seed: seed as u32 }
}

/// What the form `random` asks for, by the number that `clap` found.
fn random_of(matches: &ArgMatches<'_>) -> Words
    ensures { (seed : List ℕ) → first_value (found_of matches.now) (codes "seed") ≡ Some seed → AskFor (codes "random" ∷ seed ∷ []) result }
{
    let Some(seed) = matches.get_str("seed") else {
        return Words::Other;
    };
    random(seed)
}

/// What the form asks for that `clap` found.
fn asked(matches: &ArgMatches<'_>) -> Words
    ensures run { (rows : List Row) → subcommand_rows_of matches.now ≡ Some (codes "run", rows) → result ≡ Words.Run }
    ensures replay { (rows : List Row) → subcommand_rows_of matches.now ≡ Some (codes "replay", rows) → result ≡ Words.Replay }
    ensures migrate { (rows : List Row) → subcommand_rows_of matches.now ≡ Some (codes "migrate", rows) → result ≡ Words.Migrate }
    ensures soak { (rows : List Row) (seed clients calls : List ℕ)
        → subcommand_rows_of matches.now ≡ Some (codes "soak", rows)
        → first_of (codes "seed") rows ≡ Some seed → first_of (codes "clients") rows ≡ Some clients
        → first_of (codes "calls") rows ≡ Some calls
        → AskFor (codes "soak" ∷ seed ∷ clients ∷ calls ∷ []) result }
    ensures random { (rows : List Row) (seed : List ℕ) → subcommand_rows_of matches.now ≡ Some (codes "random", rows)
        → first_of (codes "seed") rows ≡ Some seed → AskFor (codes "random" ∷ seed ∷ []) result }
{
    match matches.subcommand() {
        Some(("run", _)) => Words::Run,
        Some(("replay", _)) => Words::Replay,
        Some(("migrate", _)) => Words::Migrate,
        Some(("soak", numbers)) => soak_of(numbers),
        Some(("random", number)) => random_of(number),
        _ => Words::Other,
    }
}

/// What the words behind the program's name ask for. A word that begins with a hyphen is never known,
/// and `clap` isn't asked about it.
pub fn read_words(alloc: Global, words: &[String]) -> Result<Words, NoMemory>
    ensures { IfOk result (AsksFor words.now) }
{
    if has_flag(words) {
        return Ok(Words::Other);
    }
    match matched(alloc, words)? {
        Some(matches) => Ok(asked(&matches)),
        None => Ok(Words::Other),
    }
}
