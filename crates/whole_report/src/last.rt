//! The last line of a report.

ghost use Rattle.std.specs.Prelude.{MatchResult};
ghost use Rattle.whole_report.specs.Coming.{ScheduleComes};
ghost use Rattle.whole_report.specs.Fronts.{IsLastLine};
ghost use Rattle.whole_report.specs.Reports.{FaultsAt};

use flr_base::Octets;
use layout_text::TextError;
use report_read::read_schedule;
use std::alloc::Global;
use text_words::next_line;

/// The schedule, with at least so many places, whose line the text is.
pub(crate) fn last_line(alloc: Global, top: u32, text: &[u8]) -> Result<Octets, TextError>
    ensures { MatchResult result (IsLastLine top text.now) (FaultsAt (ScheduleComes top) text.now) }
{
    let Some((line, rest)) = next_line(text) else {
        return Err(TextError::Bad { line: 1 });
    };
    let Some(schedule) = read_schedule(alloc, line)? else {
        return Err(TextError::Bad { line: 1 });
    };
    if schedule.len() < top as usize {
        return Err(TextError::Bad { line: 1 });
    }
    if !rest.is_empty() {
        return Err(TextError::Bad { line: 2 });
    }
    Ok(schedule)
}
