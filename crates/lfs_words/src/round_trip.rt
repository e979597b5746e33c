ghost use Rattle.std.specs.Prelude.{◌≡◌, ℕ, ◌<◌, ◌≤◌, List, MatchResult};
ghost use Rattle.lfs_values.specs.declared.cause.Cause.TheVariants as causes;
ghost use Rattle.lfs_words.specs.Grammar.{Spells};

use crate::command::LfsCommand;
use crate::print::print_lfs;
use crate::read::read_lfs;
use lfs_values::Cause;
use std::alloc::Global;
use text_words::line_words;

/// The command that is read from the text printed of this one, for files of at most `most` mirrors.
pub fn through_text(alloc: Global, command: &LfsCommand, most: u8) -> Result<LfsCommand, Cause>
    requires { (0 < most) × (most ≤ 32) }
    // A command that some words spell is read again, unless memory runs out.
    ensures same { (words : List (List ℕ)) → Spells most words command.now → MatchResult result (λ found. found ≡ command.now) (λ cause. cause ≡ causes.Memory) }
{
    let Ok(text) = print_lfs(alloc, command) else {
        return Err(Cause::Memory);
    };
    let Ok(words) = line_words(alloc, text.as_slice()) else {
        return Err(Cause::Memory);
    };
    read_lfs(alloc, &words, most)
}
