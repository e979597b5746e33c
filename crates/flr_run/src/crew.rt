//! What the run of an input comes to.

ghost use Rattle.std.specs.Prelude.{◌≡◌, ◌≢◌, ℕ, List, IfOk, Err};
ghost use Rattle.flr_steps.specs.Schedules.{IsTaken};
ghost use Rattle.flr_steps.specs.States.{IsRun};
ghost use Rattle.flr_migrate.specs.Migrations.{IsNoScript};
ghost use Rattle.flr_run.specs.Outcomes.{IsOutcome};
ghost use Rattle.script_text.specs.Grammar.{Spells};
ghost use Rattle.script_text.specs.Wholes.{script_of};
ghost use Rattle.script_text.specs.declared.error.ScriptError.TheVariants as errors;

use crate::together::Together;
use flr_base::{NoMemory, Octets};
use flr_world::World;
use script_text::{ScriptError, print_refusal, read_script};
use script_values::Script;
use std::alloc::Global;
use std::sync::Wait;
use std::thread::Threads;
use turn_crew::{Gate, run_crew};

/// What a run came to: a world in which no command is left, or the line that says why there is none.
#[derive(Drop)]
pub(crate) enum Outcome {
    Whole(World),
    Refused(Octets),
}

/// The world of a script whose clients have made all their steps, each on a thread of its own.
fn crewed<G: Gate + Sync, R: Threads + Wait + Sync>(
    rt: &R,
    alloc: Global,
    script: Script,
    gate: &G,
) -> Result<World, NoMemory>
    ensures taken { IfOk result (λ world. IsTaken script world.schedule world) }
    ensures run { IfOk result IsRun }
{
    let clients = script.clients();
    let world = World::start(alloc, script)?;
    let together = Together::new(clients, gate);
    let world = run_crew(rt, alloc, world, clients, &together)?;
    world.keeps_run();
    Ok(world)
}

/// What bytes come to that are no script.
fn refused(alloc: Global, error: ScriptError) -> Result<Octets, NoMemory>
    requires { error ≢ errors.NoMemory }
    ensures { (bytes : List ℕ) → script_of bytes ≡ Err error → IfOk result (IsNoScript bytes) }
{
    print_refusal(alloc, error)
}

/// What the run of a script comes to.
fn run_script<G: Gate + Sync, R: Threads + Wait + Sync>(
    rt: &R,
    alloc: Global,
    script: Script,
    gate: &G,
) -> Result<Outcome, NoMemory>
    ensures { (bytes : List ℕ) → Spells bytes script → IfOk result (IsOutcome bytes) }
{
    Ok(Outcome::Whole(crewed(rt, alloc, script, gate)?))
}

/// What the run of the script that these bytes spell comes to.
pub(crate) fn run<G: Gate + Sync, R: Threads + Wait + Sync>(
    rt: &R,
    alloc: Global,
    bytes: &[u8],
    gate: &G,
) -> Result<Outcome, NoMemory>
    ensures { IfOk result (IsOutcome bytes.now) }
{
    match read_script(alloc, bytes) {
        Ok(script) => run_script(rt, alloc, script, gate),
        Err(ScriptError::NoMemory) => Err(NoMemory),
        Err(error) => Ok(Outcome::Refused(refused(alloc, error)?)),
    }
}
