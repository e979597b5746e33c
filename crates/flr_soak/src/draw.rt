//! What the run of an input by a generator's numbers comes to.

ghost use Rattle.std.specs.Prelude.{◌≡◌, ◌≢◌, ◌<◌, ◌^◌, ℕ, List, length, None, IfOk, Err};
ghost use Rattle.flr_steps.specs.States.{IsRun, start, unfinished_of};
ghost use Rattle.flr_soak.specs.Soaking.{IsSoaked};
ghost use Rattle.flr_migrate.specs.Migrations.{IsNoScript};
ghost use Rattle.flr_soak.specs.Outcomes.{IsDrawnRun, IsOutcome};
ghost use Rattle.script_text.specs.Grammar.{Spells};
ghost use Rattle.script_text.specs.Wholes.{script_of};
ghost use Rattle.script_text.specs.declared.error.ScriptError.TheVariants as errors;

use crate::soaking::soak;
use flr_base::{NoMemory, Octets};
use flr_world::World;
use script_text::{ScriptError, print_refusal, read_script};
use script_values::{Generator, Script};
use std::alloc::Global;

/// What a run came to: a world in which no command is left, or the line that says why there is none.
#[derive(Drop)]
pub(crate) enum Outcome {
    Whole(World),
    Refused(Octets),
}

/// The world of a script whose clients have made all their steps, one for each draw.
fn drawn_run(alloc: Global, script: Script, seed: u32) -> Result<World, NoMemory>
    requires seed { seed < 2 ^ 31 }
    ensures { IfOk result (IsDrawnRun script seed) }
{
    let clients = script.clients();
    let mut world = World::start(alloc, script)?;
    let mut generator = Generator::new(seed);
    soak(&mut world, &mut generator, clients)?;
    Ok(world)
}

/// What bytes come to that are no script.
fn refused(alloc: Global, error: ScriptError) -> Result<Octets, NoMemory>
    requires { error ≢ errors.NoMemory }
    ensures { (bytes : List ℕ) → script_of bytes ≡ Err error → IfOk result (IsNoScript bytes) }
{
    print_refusal(alloc, error)
}

/// What the run of a script comes to.
fn run_script(alloc: Global, script: Script, seed: u32) -> Result<Outcome, NoMemory>
    requires seed { seed < 2 ^ 31 }
    ensures { (bytes : List ℕ) → Spells bytes script → IfOk result (IsOutcome seed bytes) }
{
    Ok(Outcome::Whole(drawn_run(alloc, script, seed)?))
}

/// What the run of the script that these bytes spell comes to.
pub(crate) fn run(alloc: Global, bytes: &[u8], seed: u32) -> Result<Outcome, NoMemory>
    requires seed { seed < 2 ^ 31 }
    ensures { IfOk result (IsOutcome seed bytes.now) }
{
    match read_script(alloc, bytes) {
        Ok(script) => run_script(alloc, script, seed),
        Err(ScriptError::NoMemory) => Err(NoMemory),
        Err(error) => Ok(Outcome::Refused(refused(alloc, error)?)),
    }
}
