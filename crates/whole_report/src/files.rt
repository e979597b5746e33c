//! The files of a report.

ghost use Rattle.std.specs.Prelude.{MatchResult};
ghost use Rattle.whole_report.specs.Fronts.{FileFault, FilesStand};

use crate::lines::{begins, further};
use layout_text::TextError;
use report_read::read_file;
use report_text::FileLines;
use std::alloc::Global;

/// The files that stand first, as many as there are, and what stands behind them.
pub(crate) fn read_files(alloc: Global, text: &[u8]) -> Result<(FileLines, &[u8]), TextError>
    ensures { MatchResult result (λ found. FilesStand text.now found.0 found.1.now) (FileFault text.now) }
{
    let mut files = FileLines::new(alloc);
    let mut rest = text;
    while begins(rest, b'f') {
        match read_file(alloc, rest) {
            Ok(told) => {
                let (file, more) = told;
                files.push(file)?;
                rest = more;
            }
            Err(error) => return Err(further(text, rest, error)),
        }
    }
    Ok((files, rest))
}
