ghost use Rattle.std.specs.Prelude.{◌≡◌, MatchResult};
ghost use Rattle.layout_text.specs.Spelling.{IsNoMemory};

use crate::error::TextError;
use crate::print::print_layout;
use crate::read::read_layout;
use crate::spellable::has_text;
use composite_layout::Layout;
use std::alloc::Global;

/// The layout that is read from the text printed of this one: the same, unless memory runs out.
pub fn through_text(alloc: Global, layout: &Layout) -> Result<Layout, TextError>
    ensures same { MatchResult result (λ found. found ≡ layout.now) IsNoMemory }
{
    has_text(layout);
    let text = print_layout(alloc, layout)?;
    read_layout(alloc, text.as_slice())
}
