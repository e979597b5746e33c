//! What the replay of an input comes to.

ghost use Rattle.std.specs.Prelude.{◌≡◌, ◌≢◌, [], ℕ, List, IfOk, Err};
ghost use Rattle.flr_steps.specs.Schedules.{places_of};
ghost use Rattle.flr_steps.specs.States.{IsRun};
ghost use Rattle.flr_replay.specs.Outcomes.{IsJudged, IsOutcome};
ghost use Rattle.flr_replay.specs.Replays.{IsRefusal};
ghost use Rattle.script_text.specs.Grammar.{SpellsReplay};
ghost use Rattle.script_text.specs.Replays.{replay_of};
ghost use Rattle.script_text.specs.declared.error.ScriptError.TheVariants as errors;

use crate::follow::follow;
use crate::lines::{cut_short, stopped};
use flr_base::NoMemory;
use flr_world::World;
use script_text::{ScriptError, print_refusal, read_replay};
use script_values::{ClientRun, Script};
use std::alloc::Global;

/// What a replay came to: a world that made all steps of the schedule, in which no command is left, or
/// the line that says why there is no report.
#[derive(Drop)]
pub(crate) enum Played {
    Whole(World),
    Refused(Vec<u8>),
}

/// Makes the steps of a schedule. `Some` is the line that refuses it.
fn judged(alloc: Global, world: &mut World, runs: &[ClientRun]) -> Result<Option<Vec<u8>>, NoMemory>
    requires first { world.old.schedule ≡ [] }
    requires run { IsRun world.old }
    ensures script { world.new.script ≡ world.old.script }
    ensures run { IsRun world.new }
    ensures judged { IfOk result (IsJudged world.old.script (places_of runs.now) world.new) }
{
    if let Some(stop) = follow(world, runs)? {
        let place = world.schedule().len() as u32 + 1;
        return Ok(Some(stopped(alloc, place, stop)?));
    }
    match world.unfinished() {
        Some(client) => Ok(Some(cut_short(alloc, client)?)),
        None => Ok(None),
    }
}

/// What the replay of a script along a schedule comes to.
fn play(alloc: Global, script: Script, runs: &[ClientRun]) -> Result<Played, NoMemory>
    ensures { (bytes : List ℕ) → SpellsReplay bytes script runs.now → IfOk result (IsOutcome bytes) }
{
    let mut world = World::start(alloc, script)?;
    match judged(alloc, &mut world, runs)? {
        Some(line) => Ok(Played::Refused(line)),
        None => Ok(Played::Whole(world)),
    }
}

/// What bytes come to that are no script with a schedule.
fn refused(alloc: Global, error: ScriptError) -> Result<Vec<u8>, NoMemory>
    requires { error ≢ errors.NoMemory }
    ensures { (bytes : List ℕ) → replay_of bytes ≡ Err error → IfOk result (λ line. IsRefusal bytes line.items) }
{
    Ok(print_refusal(alloc, error)?.into_vec())
}

/// What the replay of these bytes comes to.
pub(crate) fn replay(alloc: Global, bytes: &[u8]) -> Result<Played, NoMemory>
    ensures { IfOk result (IsOutcome bytes.now) }
{
    match read_replay(alloc, bytes) {
        Ok((script, runs)) => play(alloc, script, runs.as_slice()),
        Err(ScriptError::NoMemory) => Err(NoMemory),
        Err(error) => Ok(Played::Refused(refused(alloc, error)?)),
    }
}
