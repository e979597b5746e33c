//! A script through its printed text.

ghost use Rattle.std.specs.Prelude.{◌≡◌, ◌≢◌, ◌<◌, ◌≤◌, length, MatchResult};
ghost use Rattle.script_values.specs.Texts.{text_of_script};
ghost use Rattle.script_text.specs.Grammar.{Spells};
ghost use Rattle.script_text.specs.declared.error.ScriptError.TheVariants as errors;

use crate::error::ScriptError;
use crate::read::read_script;
use lfs_words::printed_spells;
use script_values::{Script, print_script, printed_commands};
use std::alloc::Global;

/// What is known of the printed text of a script: where it isn't too long, it spells that script. So
/// whoever reads it reads that script.
pub fn printed_script(script: &Script)
    ensures spelled { length (text_of_script script.now) ≤ 1048576 → Spells (text_of_script script.now) script.now }
{
    printed_commands();
    printed_spells();
    let _targets = script.targets();
}

/// The script that is read from the text printed of this one.
pub fn through_text(alloc: Global, script: &Script) -> Result<Script, ScriptError>
    // A script whose printed text isn't too long is read again, unless memory runs out.
    ensures same { length (text_of_script script.now) ≤ 1048576 → MatchResult result (λ found. found ≡ script.now) (λ error. error ≡ errors.NoMemory) }
    // Every other is refused as too long, unless memory runs out.
    ensures long { 1048576 < length (text_of_script script.now) → MatchResult result (λ found. ⊥) (λ error. error ≢ errors.NoMemory → error ≡ errors.TooLong) }
{
    printed_script(script);
    let text = print_script(alloc, script)?;
    read_script(alloc, text.as_slice())
}
