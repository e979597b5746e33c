//! A world that makes the steps of a schedule.

ghost use Rattle.std.specs.Prelude.{◌≡◌, replicate, IfOk};
ghost use Rattle.flr_steps.specs.Schedules.{places_of};
ghost use Rattle.flr_steps.specs.States.{IsRun};
ghost use Rattle.flr_replay.specs.Following.{Follows, StepOf};

use flr_base::NoMemory;
use flr_world::World;
use script_values::ClientRun;
use turn_cell::StepAnswer;

/// Why a client made no step.
#[derive(Clone, Copy, Debug, PartialEq, Eq)]
pub(crate) enum Why {
    /// There is no such client.
    Unknown,
    /// The client has no command left.
    Finished,
    /// This client holds what the step needs.
    Blocked { holder: u8 },
}

/// The client of the first place whose step isn't made, and why it isn't.
#[derive(Clone, Copy, Debug, PartialEq, Eq)]
pub(crate) struct Stop {
    pub client: u32,
    pub why: Why,
}

/// The client makes its next step. `Some` tells why it made none.
fn step(world: &mut World, client: u32) -> Result<Option<Why>, NoMemory>
    requires run { IsRun world.old }
    ensures script { world.new.script ≡ world.old.script }
    ensures run { IsRun world.new }
    ensures step { IfOk result (StepOf client world.old world.new) }
{
    if client > 255 {
        return Ok(Some(Why::Unknown));
    }
    match world.step(client as u8) {
        StepAnswer::Stepped => Ok(None),
        StepAnswer::Blocked { holder } => Ok(Some(Why::Blocked { holder })),
        StepAnswer::Finished => Ok(Some(Why::Finished)),
        StepAnswer::Unknown => Ok(Some(Why::Unknown)),
        StepAnswer::NoMemory => Err(NoMemory),
    }
}

/// The client makes so many steps in a row, up to the first that it can't make.
fn follow_run(world: &mut World, client: u32, times: u32) -> Result<Option<Stop>, NoMemory>
    requires run { IsRun world.old }
    ensures script { world.new.script ≡ world.old.script }
    ensures run { IsRun world.new }
    ensures follows { IfOk result (Follows (replicate times client) world.old world.new) }
{
    for _k in 0..times {
        if let Some(why) = step(world, client)? {
            return Ok(Some(Stop { client, why }));
        }
    }
    Ok(None)
}

/// The clients make the steps of a schedule, up to the first that isn't made.
pub(crate) fn follow(world: &mut World, runs: &[ClientRun]) -> Result<Option<Stop>, NoMemory>
    requires run { IsRun world.old }
    ensures script { world.new.script ≡ world.old.script }
    ensures run { IsRun world.new }
    ensures follows { IfOk result (Follows (places_of runs.now) world.old world.new) }
{
    for run in runs {
        if let Some(stop) = follow_run(world, run.client, run.times)? {
            return Ok(Some(stop));
        }
    }
    Ok(None)
}
