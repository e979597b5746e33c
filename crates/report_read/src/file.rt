//! The lines of a file.

ghost use Rattle.std.specs.Prelude.{◌≡◌, ◌↔◌, ◌++◌, List, ℕ, drop, map, Some, IfOk, MatchResult};
ghost use Rattle.std.specs.Result.{IfErr};
ghost use Rattle.layout_text.specs.Spelling.{StandsFirst, IsNoMemory};
ghost use Rattle.report_text.specs.Texts.{text_of_file};
ghost use Rattle.report_text.specs.declared.report.FileLine.{FileLine};
ghost use Rattle.reply_read.specs.declared.answer.Answer.TheVariants as answers;
ghost use Rattle.call_read.specs.Following.{Follow, StopsAt, line_on};
ghost use Rattle.report_read.specs.declared.file.FileHead.{FileHead};
ghost use Rattle.report_read.specs.Files.{AreFileLines, FileStands, IsFile, IsFileHead, file_line, head_behind, head_in, head_of, head_words};

use composite_layout::Layout;
use flr_base::{Name, NoMemory};
use layout_text::{TextError, next_layout};
use report_text::FileLine;
use std::alloc::Global;
use text_words::{is_name_to, next_line, number_to, parts};

/// How many bytes a name may have that a split makes by default.
const LONGEST_NAME: u32 = 141;

/// What the line of a file says: its name, and its size in bytes.
#[derive(Debug, Drop)]
pub struct FileHead {
    pub name: Name,
    pub size: u64,
}

/// The name and the size that two words are.
#[tactic(auto, unfolding(crate::specs::Files::head_in))]
fn head_in(alloc: Global, name: &[u8], size: &[u8]) -> Result<Option<FileHead>, NoMemory>
    ensures { IfOk result (λ found. found ≡ head_in name.now size.now) }
{
    if !is_name_to(name, LONGEST_NAME) {
        return Ok(None);
    }
    let Some(size) = number_to(size, u64::MAX) else {
        return Ok(None);
    };
    Ok(Some(FileHead {
        name: Name::from_vec(Vec::from_slice(alloc, name)?),
        size,
    }))
}

/// The same, with the word between them.
fn head_behind(
    alloc: Global,
    name: &[u8],
    key: &[u8],
    size: &[u8],
) -> Result<Option<FileHead>, NoMemory>
    ensures { IfOk result (λ found. found ≡ head_behind name.now key.now size.now) }
{
    if key == b"size".as_slice() {
        head_in(alloc, name, size)
    } else {
        Ok(None)
    }
}

fn head_words(alloc: Global, words: &[&[u8]]) -> Result<Option<FileHead>, NoMemory>
    ensures { IfOk result (λ found. found ≡ head_words (map (λ word. word.now) words.now)) }
{
    match words {
        [verb, name, key, size] if *verb == b"file".as_slice() => {
            head_behind(alloc, name, key, size)
        }
        _ => Ok(None),
    }
}

#[tactic(auto, unfolding(crate::specs::Files::head_of))]
fn head_of(alloc: Global, line: &[u8]) -> Result<Option<FileHead>, NoMemory>
    ensures { IfOk result (λ found. found ≡ head_of line.now) }
{
    let words = parts(alloc, line, b' ')?;
    head_words(alloc, &words)
}

/// What the line of a file says: `file NAME size N`. There is nothing where the line isn't one of a
/// report.
pub fn read_file_head(alloc: Global, line: &[u8]) -> Result<Option<FileHead>, NoMemory>
    ensures value { IfOk result (λ found. found ≡ head_of line.now) }
    ensures spelled { IfOk result (λ found. (head : FileHead) → ((found ≡ Some head) ↔ (IsFileHead head × (line.now ≡ file_line head)))) }
{
    head_of(alloc, line)
}

/// The error, told a line further on.
fn line_on(error: TextError) -> TextError
    ensures { result ≡ line_on error }
{
    match error {
        TextError::Bad { line } => TextError::Bad {
            line: line.saturating_add(1),
        },
        TextError::NoMemory => TextError::NoMemory,
    }
}

/// The layout whose text stands first, and what stands behind it.
fn layout(alloc: Global, text: &[u8]) -> Result<(Layout, &[u8]), TextError>
    ensures { MatchResult result (λ found. StandsFirst text.now found.0 found.1.now) (StopsAt (Follow answers.Layout) text.now) }
{
    let told = next_layout(alloc, text)?;
    Ok(told)
}

fn front(alloc: Global, text: &[u8]) -> Result<(FileLine, &[u8]), TextError>
    ensures { MatchResult result (λ found. FileStands text.now found.0 found.1.now) (StopsAt AreFileLines text.now) }
{
    let Some((line, rest)) = next_line(text) else {
        return Err(TextError::Bad { line: 1 });
    };
    let Some(head) = read_file_head(alloc, line)? else {
        return Err(TextError::Bad { line: 1 });
    };
    match layout(alloc, rest) {
        Ok(told) => {
            let (layout, behind) = told;
            let file = FileLine {
                name: head.name,
                size: head.size,
                layout,
            };
            Ok((file, behind))
        }
        Err(error) => Err(line_on(error)),
    }
}

/// The file whose lines stand first in the text, its own and those of its layout, and what stands behind
/// them. An error tells the first line, counted from 1, at which no file's lines go on; the count stands
/// still at its last value.
pub fn read_file(alloc: Global, text: &[u8]) -> Result<(FileLine, &[u8]), TextError>
    // What is read stands first.
    ensures read { IfOk result (λ found. FileStands text.now found.0 found.1.now) }
    // A refusal names the first line at which no file's lines go on.
    ensures bad { IfErr result (StopsAt AreFileLines text.now) }
    // The file whose lines stand first is read, unless memory runs out.
    ensures again { (file : FileLine) (rest : List ℕ) → FileStands text.now file rest → MatchResult result (λ found. (found.0 ≡ file) × (found.1.now ≡ rest)) IsNoMemory }
{
    front(alloc, text)
}
