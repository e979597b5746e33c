//! The text of a schedule, run by run.

ghost use Rattle.std.specs.Prelude.{◌≡◌, ◌≢◌, ◌++◌, ◌<◌, ◌≤◌, ◌∷◌, replicate, take, length, get_or, OnOk, IfOk};
ghost use Rattle.report_text.specs.Texts.{run_word, runs_words};

use flr_base::{NoMemory, put_decimal};
use std::alloc::Global;
use text_words::put_number;

/// At how many bytes a piece of the text is full.
const PIECE: usize = 4096;

/// How often in a row the client steps first.
fn times(schedule: &[u8], client: u8) -> usize
    ensures within { result ≤ length schedule.now }
    ensures same { take result schedule.now ≡ replicate result client }
    ensures next { result < length schedule.now → get_or schedule.now result 0 ≢ client }
{
    for (at, next) in schedule.iter().enumerate() {
        if *next != client {
            return at;
        }
    }
    schedule.len()
}

/// Appends the word of a client that steps so often in a row.
fn put_run(out: &mut Vec<u8>, client: u8, times: u64) -> Result<(), NoMemory>
    ensures { OnOk result (out.new.items ≡ out.old.items ++ run_word (record { byte = client; count = times })) }
{
    put_number(out, u64::from(client))?;
    out.push(b'*')?;
    put_decimal(out, times)?;
    Ok(())
}

/// The words of the first places, until a piece is full, and the places that are left.
pub(crate) fn runs_piece(alloc: Global, schedule: &[u8]) -> Result<(Vec<u8>, &[u8]), NoMemory>
    ensures words { IfOk result (λ found. runs_words schedule.now ≡ found.0.items ++ runs_words found.1.now) }
    ensures fewer { IfOk result (λ found. 0 < length schedule.now → length found.1.now < length schedule.now) }
{
    let mut piece = Vec::new(alloc);
    let mut rest = schedule;
    while let [client, ..] = rest {
        let count = times(rest, *client);
        put_run(&mut piece, *client, count as u64)?;
        let (_, after) = rest.split_at(count);
        rest = after;
        if piece.len() >= PIECE {
            break;
        }
    }
    Ok((piece, rest))
}
