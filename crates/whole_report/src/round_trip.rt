ghost use Rattle.std.specs.Prelude.{◌≡◌, IfOk, MatchResult};
ghost use Rattle.std.specs.List.{AllByRecursion};
ghost use Rattle.layout_text.specs.Spelling.{IsNoMemory};
ghost use Rattle.report_text.specs.Texts.{IsWritable, text_of_report};
ghost use Rattle.whole_report.specs.Reports.{IsReport};

use crate::read::read_report;
use flr_base::{Ids, MemSink, NoMemory, Octets};
use layout_text::TextError;
use report_text::{Report, write_report};
use std::alloc::Global;

/// The text of the report, held whole.
fn print_report(alloc: Global, report: &Report) -> Result<Octets, NoMemory>
    requires { AllByRecursion IsWritable report.now.calls }
    ensures { IfOk result (λ text. text ≡ text_of_report report.now) }
{
    let mut sink = MemSink::new(alloc, Ids::new(alloc));
    match write_report(alloc, &mut sink, report) {
        Ok(()) => Ok(sink.into_bytes()),
        // This sink fails no call, so it fails only where memory runs out.
        Err(_) => Err(NoMemory),
    }
}

/// The report that is read from the text written of this one, which is within its limits: the same,
/// unless memory runs out.
pub fn through_text(alloc: Global, report: &Report) -> Result<Report, TextError>
    requires { IsReport report.now }
    ensures same { MatchResult result (λ found. found ≡ report.now) IsNoMemory }
{
    let text = print_report(alloc, report)?;
    read_report(alloc, text.as_slice())
}
