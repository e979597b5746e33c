ghost use Rattle.std.specs.Prelude.{◌≡◌, ℕ, List, ◌∷◌, ◌++◌, Some, is_ok, if◌then◌else◌, MatchResult, IfOk, IfSome, OnOk};
ghost use Rattle.std.specs.Result.{IfErr};
ghost use Rattle.composite_layout.specs.Layouts.{Composite};
ghost use Rattle.layout_text.specs.LineWords.{line_of};
ghost use Rattle.layout_text.specs.Spelling.{Spells, IsLayoutFault, StandsFirst, IsFrontFault, IsNoMemory};
ghost use Rattle.layout_text.specs.Viable.{IsSmall, Took, noted, layout_of};

use crate::error::TextError;
use crate::line::{Head, Line, read_line};
use crate::place::{Phase, complete, next};
use crate::seen::Seen;
use composite_layout::{Component, Layout};
use flr_base::NoMemory;
use std::alloc::Global;
use text_words::next_line;

/// Notes the line's component.
fn note(seen: &mut Seen, line: Line) -> Result<(), NoMemory>
    ensures { OnOk result (seen.new ≡ noted seen.old line) }
{
    match line {
        Line::Head(_) => Ok(()),
        Line::Component(component) => seen.push(component),
    }
}

/// The phase behind one line more. There is none where no valid layout's text goes on with it.
fn take_line(
    alloc: Global,
    phase: Phase,
    seen: &mut Seen,
    text: &[u8],
) -> Result<Option<Phase>, NoMemory>
    requires { IsSmall phase }
    ensures took { IfOk result (Took phase seen.old seen.new (line_of (Some text.now))) }
    ensures small { IfOk result (λ after. IfSome after IsSmall) }
{
    let Some(line) = read_line(alloc, text)? else {
        return Ok(None);
    };
    let Ok(after) = next(phase, seen, &line) else {
        return Ok(None);
    };
    note(seen, line)?;
    Ok(Some(after))
}

/// The head and the components of the layout that stands first, and what stands behind it.
fn read_lines(alloc: Global, text: &[u8]) -> Result<((Head, Vec<Component>), &[u8]), TextError>
    ensures { MatchResult result (λ found. StandsFirst text.now (layout_of found.0.0 found.0.1.items) found.1.now) (IsFrontFault text.now) }
{
    let mut phase = Phase::Start;
    let mut seen = Seen::new(alloc);
    let mut rest = text;
    let mut taken: u32 = 0;
    while let Some((line, more)) = next_line(rest) {
        let Some(after) = take_line(alloc, phase, &mut seen, line)? else {
            return Err(TextError::Bad { line: taken + 1 });
        };
        if let Some(head) = complete(after) {
            return Ok(((head, seen.into_components()), more));
        }
        phase = after;
        rest = more;
        taken += 1;
    }
    Err(TextError::Bad { line: taken + 1 })
}

fn read_front(alloc: Global, text: &[u8]) -> Result<(Layout, &[u8]), TextError>
    ensures { MatchResult result (λ found. StandsFirst text.now found.0 found.1.now) (IsFrontFault text.now) }
{
    let ((head, components), rest) = read_lines(alloc, text)?;
    let layout = Layout::of(
        head.generation,
        head.state,
        head.next_mirror,
        head.next_counter,
        components,
    );
    Ok((layout, rest))
}

/// The layout whose text stands first in this one, spelled as `read_layout` has it, and what stands
/// behind it. A layout says in its first line how many lines it has. The time is that of its lines.
pub fn next_layout(alloc: Global, text: &[u8]) -> Result<(Layout, &[u8]), TextError>
    // What is read is spelled first, and valid.
    ensures read { IfOk result (λ found. StandsFirst text.now found.0 found.1.now) }
    // A refusal names the first line with which no valid layout's text goes on.
    ensures bad { IfErr result (IsFrontFault text.now) }
    // A layout that is spelled first is read, unless memory runs out.
    ensures again { (layout : Composite) (rest : List ℕ) → StandsFirst text.now layout rest → MatchResult result (λ found. (found.0 ≡ layout) × (found.1.now ≡ rest)) IsNoMemory }
{
    read_front(alloc, text)
}

fn read(alloc: Global, text: &[u8]) -> Result<Layout, TextError>
    ensures { MatchResult result (Spells text.now) (IsLayoutFault text.now) }
{
    let (layout, rest) = next_layout(alloc, text)?;
    if !rest.is_empty() {
        let line = layout.components().len() as u32 + 2;
        return Err(TextError::Bad { line });
    }
    Ok(layout)
}

/// The layout that the text spells: the line `layout generation G state S next M Q components N`, then
/// N lines
/// `component ID mirror M flags F extent START END size SIZE count COUNT objects O`,
/// each ended by byte 10 and with one space between two words. The spelling is this project's own; the
/// states and flags are those of Lustre's File Level Redundancy.
pub fn read_layout(alloc: Global, text: &[u8]) -> Result<Layout, TextError>
    // What is read is spelled so, and valid.
    ensures read { IfOk result (λ layout. Spells text.now layout) }
    // A refusal names the first line at which no valid layout's text goes on.
    ensures bad { IfErr result (IsLayoutFault text.now) }
    // What is spelled so is read, unless memory runs out.
    ensures again { (layout : Composite) → Spells text.now layout → MatchResult result (λ found. found ≡ layout) IsNoMemory }
{
    read(alloc, text)
}
