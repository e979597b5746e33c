ghost use Rattle.std.specs.Prelude.{◌≡◌, ◌<◌, ◌≤◌, ◌↔◌, ◌++◌, IsTrue, List, ℕ, length, replicate, IfOk, OnOk, MatchResult};
ghost use Rattle.flr_base.specs.Runs.{AreRuns, Spells, runs_text, bytes_of};
ghost use Rattle.flr_base.specs.RunsAnswers.{IsBad, IsRunsFault, IsNoMemory};

use crate::list::Octets;
use crate::memory::NoMemory;
use crate::runs::fault::RunsError;
use crate::runs::run::Run;
use crate::runs::scan::{Move, Phase, next};
use std::alloc::Global;

/// The runs that the text spells.
fn scan(alloc: Global, text: &[u8]) -> Result<Vec<Run>, RunsError>
    ensures { MatchResult result (λ runs. AreRuns runs.items × (text.now ≡ runs_text runs.items)) (IsBad text.now) }
{
    let mut runs: Vec<Run> = Vec::new(alloc);
    let mut last = None;
    let mut phase = Phase::Start;
    for (at, byte) in text.iter().enumerate() {
        match next(last, phase, *byte) {
            Move::Go(after) => phase = after,
            Move::Close(run) => {
                last = Some(run.byte);
                runs.push(run)?;
                phase = Phase::High;
            }
            Move::Stop => return Err(RunsError::Bad { at }),
        }
    }
    match phase {
        Phase::Dash => Ok(runs),
        Phase::Count { byte, count } => {
            runs.push(Run { byte, count })?;
            Ok(runs)
        }
        _ => Err(RunsError::Bad { at: text.len() }),
    }
}

/// Whether the runs stand for more bytes than `most`.
fn is_longer(runs: &[Run], most: u64) -> bool
    ensures { IsTrue result ↔ (most < length (bytes_of runs.now)) }
{
    let mut left = most;
    for run in runs {
        if u64::from(run.count) > left {
            return true;
        }
        left -= u64::from(run.count);
    }
    false
}

/// Appends the bytes of a run.
fn push_run(bytes: &mut Vec<u8>, run: Run) -> Result<(), NoMemory>
    ensures { OnOk result (bytes.new.items ≡ bytes.old.items ++ replicate run.count run.byte) }
{
    bytes.resize(bytes.len() + run.count as usize, run.byte)?;
    Ok(())
}

/// The bytes that the runs stand for.
fn expand(alloc: Global, runs: &[Run]) -> Result<Octets, NoMemory>
    ensures { IfOk result (λ bytes. bytes ≡ bytes_of runs.now) }
{
    let mut bytes = Vec::new(alloc);
    for run in runs {
        push_run(&mut bytes, *run)?;
    }
    Ok(Octets::from_vec(bytes))
}

fn read(alloc: Global, text: &[u8], most: u64) -> Result<Octets, RunsError>
    ensures { MatchResult result (λ bytes. Spells text.now bytes × (length bytes ≤ most)) (IsRunsFault text.now most) }
{
    let runs = scan(alloc, text)?;
    if is_longer(&runs, most) {
        return Err(RunsError::TooLong);
    }
    Ok(expand(alloc, &runs)?)
}

/// The bytes that the text spells, at most `most`: `-` for none, else runs `HH*N` joined by `+`, with
/// a byte as two lower-case hexadecimal digits and its count from 1 to 4294967295, neighbours of
/// different bytes. The spelling is this project's own.
///
/// `Bad` comes exactly where the text spells nothing, and `TooLong` exactly where it spells more bytes
/// than `most`.
pub fn read_runs(alloc: Global, text: &[u8], most: u64) -> Result<Octets, RunsError>
    // What is read is spelled so; a refusal has its cause.
    ensures read { MatchResult result (λ bytes. Spells text.now bytes × (length bytes ≤ most)) (IsRunsFault text.now most) }
    // What is spelled so is read, unless memory runs out.
    ensures again { (bytes : List ℕ) → Spells text.now bytes → length bytes ≤ most → MatchResult result (λ found. found ≡ bytes) IsNoMemory }
{
    read(alloc, text, most)
}
