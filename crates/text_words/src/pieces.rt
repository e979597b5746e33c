ghost use Rattle.std.specs.Prelude.{◌≡◌, map, IfOk};
ghost use Rattle.text_words.specs.Pieces.{parts_of, words_of};

use flr_base::NoMemory;
use std::alloc::{AllocError, Global};

fn collect_parts<'a>(alloc: Global, text: &'a [u8], sep: u8) -> Result<Vec<&'a [u8]>, AllocError>
    ensures { IfOk result (λ v. map (λ part. part.now) v.items ≡ parts_of sep text.now) }
{
    text.split(|byte| *byte == sep).collect(alloc)
}

/// The parts between the bytes `sep`, of which some may be empty: one more than there are such bytes.
pub fn parts<'a>(alloc: Global, text: &'a [u8], sep: u8) -> Result<Vec<&'a [u8]>, NoMemory>
    ensures parts { IfOk result (λ v. map (λ part. part.now) v.items ≡ parts_of sep text.now) }
{
    Ok(collect_parts(alloc, text, sep)?)
}

/// The words of a line: they are parted by one or more spaces, and spaces at either end are ignored.
pub fn line_words<'a>(alloc: Global, line: &'a [u8]) -> Result<Vec<&'a [u8]>, NoMemory>
    ensures words { IfOk result (λ v. map (λ word. word.now) v.items ≡ words_of line.now) }
{
    let all = collect_parts(alloc, line, b' ')?;
    let mut words = Vec::new(alloc);
    for part in &all {
        if !part.is_empty() {
            words.push(*part)?;
        }
    }
    Ok(words)
}
