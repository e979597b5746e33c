ghost use Rattle.std.specs.Prelude.{◌≡◌, ◌≢◌, ◌<◌, ◌≤◌, ◌^◌, ◌∷◌, length, replicate, slice_index, take, IfOk};
ghost use Rattle.std.specs.List.{flat_map};
ghost use Rattle.flr_base.specs.Puts.{Puts};
ghost use Rattle.flr_base.specs.Runs.{AreRuns, Spells, run_text, runs_text, bytes_of, runs_of, text_of_bytes};

use crate::digits::{digit_glyph, put_decimal, put_hex};
use crate::list::Octets;
use crate::memory::NoMemory;
use crate::runs::run::Run;
use std::alloc::Global;

/// How many bytes are compared at once.
const BLOCK: usize = 64;

/// How many of the bytes at the front are this byte, as whole blocks.
fn blocks_of(bytes: &[u8], byte: u8) -> usize
    ensures within { result ≤ length bytes.now }
    ensures same { take result bytes.now ≡ replicate result byte }
{
    let block = [byte; BLOCK];
    let mut done = 0;
    while bytes.len() - done >= BLOCK && &bytes[done..done + BLOCK] == block.as_slice() {
        done += BLOCK;
    }
    done
}

/// How many of the bytes at the front are this byte.
fn stretch(bytes: &[u8], byte: u8) -> usize
    ensures within { result ≤ length bytes.now }
    ensures same { take result bytes.now ≡ replicate result byte }
    ensures end { result < length bytes.now → slice_index bytes.now result ≢ byte }
{
    let mut done = blocks_of(bytes, byte);
    while done < bytes.len() && bytes[done] == byte {
        done += 1;
    }
    done
}

/// The runs of the bytes, neighbours of different bytes.
fn group(alloc: Global, bytes: &[u8]) -> Result<Vec<Run>, NoMemory>
    requires { length bytes.now < 2 ^ 32 }
    ensures { IfOk result (λ runs. AreRuns runs.items × (bytes.now ≡ bytes_of runs.items)) }
{
    let mut runs: Vec<Run> = Vec::new(alloc);
    let mut done = 0;
    while done < bytes.len() {
        let byte = bytes[done];
        let count = stretch(&bytes[done..], byte);
        runs.push(Run {
            byte,
            count: count as u32,
        })?;
        done += count;
    }
    Ok(runs)
}

#[tactic(auto, using(crate::proofs::Puts::puts))]
fn put_run(out: &mut Vec<u8>, run: Run) -> Result<(), NoMemory>
    ensures { Puts out.old.items out.new.items result (run_text run) }
{
    put_hex(out, run.byte)?;
    out.push(b'*')?;
    put_decimal(out, u64::from(run.count))?;
    Ok(())
}

/// Appends a plus and a run of less than ten bytes, all at once.
#[tactic(auto, using(crate::proofs::Puts::puts, std::proofs::lemmas::Fmt::decimal_digit))]
fn put_short(out: &mut Vec<u8>, run: Run) -> Result<(), NoMemory>
    requires { run.count < 10 }
    ensures { Puts out.old.items out.new.items result (43 ∷ run_text run) }
{
    let high = digit_glyph(run.byte / 16);
    let low = digit_glyph(run.byte % 16);
    let text = [b'+', high, low, b'*', b'0' + run.count as u8];
    out.extend_from_slice(text.as_slice())?;
    Ok(())
}

/// Appends a plus and a run.
#[tactic(auto, using(crate::proofs::Puts::puts))]
fn put_next(out: &mut Vec<u8>, run: Run) -> Result<(), NoMemory>
    ensures { Puts out.old.items out.new.items result (43 ∷ run_text run) }
{
    if run.count < 10 {
        return put_short(out, run);
    }
    out.push(b'+')?;
    put_run(out, run)
}

/// Appends the runs, each behind a plus.
fn put_more(out: &mut Vec<u8>, runs: &[Run]) -> Result<(), NoMemory>
    ensures { Puts out.old.items out.new.items result (flat_map (λ x. 43 ∷ run_text x) runs.now) }
{
    for run in runs {
        put_next(out, *run)?;
    }
    Ok(())
}

/// Appends the spelling of the runs.
#[tactic(auto, using(crate::proofs::Puts::puts))]
fn put_runs(out: &mut Vec<u8>, runs: &[Run]) -> Result<(), NoMemory>
    ensures { Puts out.old.items out.new.items result (runs_text runs.now) }
{
    match runs {
        [] => {
            out.push(b'-')?;
            Ok(())
        }
        [first, others @ ..] => {
            put_run(out, *first)?;
            put_more(out, others)
        }
    }
}

/// The runs of the bytes: the longest stretches of one byte, in their order.
#[tactic(auto, using(crate::proofs::RunLists::group_is))]
pub fn runs_of(alloc: Global, bytes: &[u8]) -> Result<Vec<Run>, NoMemory>
    requires { length bytes.now < 2 ^ 32 }
    ensures runs { IfOk result (λ runs. runs.items ≡ runs_of bytes.now) }
    ensures apart { IfOk result (λ runs. AreRuns runs.items) }
    ensures bytes { IfOk result (λ runs. bytes.now ≡ bytes_of runs.items) }
{
    let runs = group(alloc, bytes)?;
    Ok(runs)
}

/// The one spelling of the bytes, as `read_runs` reads it.
#[tactic(auto, using(crate::proofs::RunLists::runs_spell))]
pub fn print_runs(alloc: Global, bytes: &Octets) -> Result<Octets, NoMemory>
    requires { length bytes.now < 2 ^ 32 }
    ensures spelling { IfOk result (λ text. Spells text bytes.now) }
    ensures exact { IfOk result (λ text. text ≡ text_of_bytes bytes.now) }
{
    let runs = runs_of(alloc, bytes.as_slice())?;
    let mut text = Vec::new(alloc);
    put_runs(&mut text, &runs)?;
    Ok(Octets::from_vec(text))
}
