//! Reads a report from standard input and tells how many calls and files it has and how many places its
//! schedule. Only `bench/run` starts it, to time the reader alone.
#![tactic(auto)]

ghost use Rattle.std.specs.Prelude.{◌≡◌, length, IfOk};
ghost use Rattle.bench_report.specs.Counts.{counts_line};

use flr_base::{FromRead, NoMemory, ToWrite, put_decimal, read_all, write_all};
use report_text::Report;
use std::alloc::Global;
use std::io;
use std::process::ExitCode;
use whole_report::read_report;

/// How many bytes a report may have here.
const MOST: u32 = 67108864;

fn line_of(alloc: Global, calls: u64, files: u64, places: u64) -> Result<Vec<u8>, NoMemory>
    ensures { IfOk result (λ text. text.items ≡ counts_line calls files places) }
{
    let mut out = Vec::new(alloc);
    out.extend_from_slice(b"calls ")?;
    put_decimal(&mut out, calls)?;
    out.extend_from_slice(b" files ")?;
    put_decimal(&mut out, files)?;
    out.extend_from_slice(b" places ")?;
    put_decimal(&mut out, places)?;
    out.push(b'\n')?;
    Ok(out)
}

/// The line that tells of a report.
fn counts(alloc: Global, report: &Report) -> Result<Vec<u8>, NoMemory>
    ensures { IfOk result (λ text. text.items ≡ counts_line (length report.now.calls) (length report.now.files) (length report.now.schedule)) }
{
    line_of(
        alloc,
        report.calls.len() as u64,
        report.files.len() as u64,
        report.schedule.len() as u64,
    )
}

fn main(rt: HostRuntime) -> ExitCode {
    let mut input = FromRead::new(rt.reader());
    let Ok(text) = read_all(rt.alloc(), &mut input, MOST) else {
        return ExitCode::FAILURE;
    };
    let Ok(report) = read_report(rt.alloc(), text.as_slice()) else {
        return ExitCode::FAILURE;
    };
    let Ok(line) = counts(rt.alloc(), &report) else {
        return ExitCode::FAILURE;
    };
    match write_all(&mut ToWrite::new(io::writer(&rt)), line.as_slice()) {
        Ok(()) => ExitCode::SUCCESS,
        Err(_) => ExitCode::FAILURE,
    }
}
