//! Reads a replay input from standard input and tells how many clients its script and how many
//! stretches its schedule has. Only `bench/run` starts it, to time the reader alone.
#![tactic(auto)]

ghost use Rattle.std.specs.Prelude.{◌≡◌, length, IfOk};
ghost use Rattle.bench_replay_input.specs.Counts.{counts_line};

use flr_base::{FromRead, NoMemory, ToWrite, put_decimal, read_all, write_all};
use script_text::read_replay;
use script_values::{Runs, Script};
use std::alloc::Global;
use std::io;
use std::process::ExitCode;

/// How many bytes a replay input may have.
const MOST: u32 = 67108864;

fn line_of(alloc: Global, clients: u64, stretches: u64) -> Result<Vec<u8>, NoMemory>
    ensures { IfOk result (λ text. text.items ≡ counts_line clients stretches) }
{
    let mut out = Vec::new(alloc);
    out.extend_from_slice(b"clients ")?;
    put_decimal(&mut out, clients)?;
    out.extend_from_slice(b" stretches ")?;
    put_decimal(&mut out, stretches)?;
    out.push(b'\n')?;
    Ok(out)
}

/// The line that tells of a script and its schedule.
fn counts(alloc: Global, script: &Script, runs: &Runs) -> Result<Vec<u8>, NoMemory>
    ensures { IfOk result (λ text. text.items ≡ counts_line (length script.now.clients) (length runs.now)) }
{
    line_of(alloc, u64::from(script.clients()), runs.len() as u64)
}

fn main(rt: HostRuntime) -> ExitCode {
    let mut input = FromRead::new(rt.reader());
    let Ok(bytes) = read_all(rt.alloc(), &mut input, MOST) else {
        return ExitCode::FAILURE;
    };
    let Ok((script, runs)) = read_replay(rt.alloc(), bytes.as_slice()) else {
        return ExitCode::FAILURE;
    };
    let Ok(line) = counts(rt.alloc(), &script, &runs) else {
        return ExitCode::FAILURE;
    };
    match write_all(&mut ToWrite::new(io::writer(&rt)), line.as_slice()) {
        Ok(()) => ExitCode::SUCCESS,
        Err(_) => ExitCode::FAILURE,
    }
}
