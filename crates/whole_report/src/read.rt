//! Reports from their texts.

ghost use Rattle.std.specs.Prelude.{◌≡◌, IfOk, MatchResult};
ghost use Rattle.std.specs.Result.{IfErr};
ghost use Rattle.std.specs.List.{AllByRecursion};
ghost use Rattle.layout_text.specs.Spelling.{IsNoMemory};
ghost use Rattle.report_text.specs.Texts.{IsWritable};
ghost use Rattle.report_text.specs.declared.report.Report.{Report};
ghost use Rattle.whole_report.specs.Coming.{CallsCome};
ghost use Rattle.whole_report.specs.Fronts.{IsBody};
ghost use Rattle.whole_report.specs.Reports.{FaultsAt, IsReportFault, Spells};

use crate::calls::read_calls;
use crate::files::read_files;
use crate::last::last_line;
use crate::lines::further;
use layout_text::TextError;
use report_text::Report;
use std::alloc::Global;
use text_words::next_line;

/// What stands behind the first line.
fn body(alloc: Global, text: &[u8]) -> Result<Report, TextError>
    ensures { MatchResult result (IsBody text.now) (FaultsAt (CallsCome 0 0) text.now) }
{
    let ((calls, top), behind) = read_calls(alloc, text)?;
    match read_files(alloc, behind) {
        Ok(told) => {
            let (files, rest) = told;
            match last_line(alloc, top, rest) {
                Ok(schedule) => Ok(Report {
                    calls,
                    files,
                    schedule,
                }),
                Err(error) => Err(further(text, rest, error)),
            }
        }
        Err(error) => Err(further(text, behind, error)),
    }
}

fn read(alloc: Global, text: &[u8]) -> Result<Report, TextError>
    ensures { MatchResult result (Spells text.now) (IsReportFault text.now) }
{
    let Some((line, rest)) = next_line(text) else {
        return Err(TextError::Bad { line: 1 });
    };
    if line != b"flr-report 1".as_slice() {
        return Err(TextError::Bad { line: 1 });
    }
    match body(alloc, rest) {
        Ok(report) => Ok(report),
        Err(error) => Err(further(text, rest, error)),
    }
}

/// The report that the text spells, as `write_report` writes it: the line `flr-report 1`; for each call
/// in ascending order of its point its lines; for each file its lines; and the line of who stepped. The
/// first step, the point and the last step of a call are in order and within the schedule. Nothing is
/// asked of what the calls say of each other. An error tells the first line, counted from 1, at which no
/// report's text goes on; the count stands still at its last value.
pub fn read_report(alloc: Global, text: &[u8]) -> Result<Report, TextError>
    // What is read is spelled so, and within its limits.
    ensures read { IfOk result (λ report. Spells text.now report) }
    // It can be written again.
    ensures writable { IfOk result (λ report. AllByRecursion IsWritable report.calls) }
    // A refusal names the first line at which no report's text goes on.
    ensures bad { IfErr result (IsReportFault text.now) }
    // What is spelled so is read, unless memory runs out.
    ensures again { (report : Report) → Spells text.now report → MatchResult result (λ found. found ≡ report) IsNoMemory }
{
    read(alloc, text)
}
