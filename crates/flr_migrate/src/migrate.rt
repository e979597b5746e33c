//! What the migration of an input comes to.

ghost use Rattle.std.specs.Prelude.{◌≡◌, ◌≢◌, ◌<◌, ◌≤◌, ℕ, List, length, IfOk, Err};
ghost use Rattle.script_values.specs.Texts.{text_of_script};
ghost use Rattle.script_text.specs.Grammar.{Spells};
ghost use Rattle.script_text.specs.Wholes.{script_of};
ghost use Rattle.flr_migrate.specs.Migrations.{IsMigrated, IsRefusal};
ghost use Rattle.flr_migrate.specs.Outcomes.{IsOutcome};
ghost use Rattle.script_text.specs.declared.error.ScriptError.TheVariants as errors;

use flr_base::{NoMemory, Octets};
use script_text::{ScriptError, print_refusal, printed_script, read_script};
use script_values::{Script, print_script};
use std::alloc::Global;

/// How many bytes a script may have.
pub(crate) const MOST_OF_SCRIPT: u32 = 1048576;

/// What a migration came to: the printed text of the script, or the line that says why there is none.
#[derive(Debug, Drop)]
pub(crate) enum Outcome {
    Script(Octets),
    Refusal(Octets),
}

/// The line of a printed text that is too long.
fn too_long(alloc: Global, script: &Script) -> Result<Octets, NoMemory>
    requires { 1048576 < length (text_of_script script.now) }
    ensures { (bytes : List ℕ) → Spells bytes script.now → IfOk result (IsRefusal bytes) }
{
    let _targets = script.targets();
    print_refusal(alloc, ScriptError::TooLong)
}

/// What a script that was read comes to: its printed text, where that isn't too long.
fn printed(alloc: Global, script: &Script) -> Result<Outcome, NoMemory>
    ensures { (bytes : List ℕ) → Spells bytes script.now → IfOk result (IsOutcome bytes) }
{
    printed_script(script);
    let text = print_script(alloc, script)?;
    if text.len() > MOST_OF_SCRIPT as usize {
        return Ok(Outcome::Refusal(too_long(alloc, script)?));
    }
    Ok(Outcome::Script(text))
}

/// What bytes come to that are no script.
fn refused(alloc: Global, error: ScriptError) -> Result<Octets, NoMemory>
    requires { error ≢ errors.NoMemory }
    ensures { (bytes : List ℕ) → script_of bytes ≡ Err error → IfOk result (IsRefusal bytes) }
{
    print_refusal(alloc, error)
}

/// What the migration of these bytes comes to.
pub(crate) fn migrate(alloc: Global, bytes: &[u8]) -> Result<Outcome, NoMemory>
    ensures { IfOk result (IsOutcome bytes.now) }
{
    match read_script(alloc, bytes) {
        Ok(script) => printed(alloc, &script),
        Err(ScriptError::NoMemory) => Err(NoMemory),
        Err(error) => Ok(Outcome::Refusal(refused(alloc, error)?)),
    }
}
