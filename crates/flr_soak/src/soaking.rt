//! The run that a generator of numbers makes.

ghost use Rattle.std.specs.Prelude.{◌≡◌, ◌<◌, ◌≤◌, [], length, None, IfOk, OnOk};
ghost use Rattle.flr_steps.specs.States.{IsRun, unfinished_of};
ghost use Rattle.flr_soak.specs.Soaking.{IsSoaked};
ghost use Rattle.flr_soak.specs.Trying.{StepsFirst};

use flr_base::NoMemory;
use flr_world::World;
use script_values::Generator;
use turn_cell::StepAnswer;

/// The first of the clients that can make a step at this draw makes it. `false` where none can.
fn step_first(world: &mut World, draw: u32, clients: u8) -> Result<bool, NoMemory>
    requires some { 1 ≤ clients }
    requires small { draw < 32768 }
    requires run { IsRun world.old }
    ensures script { world.new.script ≡ world.old.script }
    ensures run { IsRun world.new }
    ensures first { IfOk result (StepsFirst clients draw world.old world.new) }
{
    for turn in 0..clients {
        let client = 1 + (draw + u32::from(turn)) % u32::from(clients);
        match world.step(client as u8) {
            StepAnswer::Stepped => return Ok(true),
            StepAnswer::NoMemory => return Err(NoMemory),
            StepAnswer::Blocked { .. } => {}
            StepAnswer::Finished => {}
            StepAnswer::Unknown => {}
        }
    }
    Ok(false)
}

/// The clients make steps, one for each draw, until nobody has a command left. The draw says who is tried
/// first; whoever is blocked is passed by for the next one, and somebody can always step.
///
/// `Err`: memory ran out; the world is that of the steps so far.
pub(crate) fn soak(
    world: &mut World,
    generator: &mut Generator,
    clients: u8,
) -> Result<(), NoMemory>
    requires some { 1 ≤ clients }
    requires run { IsRun world.old }
    requires first { world.old.schedule ≡ [] }
    requires all { length world.old.script.clients ≡ clients }
    ensures script { world.new.script ≡ world.old.script }
    ensures run { IsRun world.new }
    ensures soaked { OnOk result (IsSoaked clients generator.old world.old world.new.schedule world.new) }
    ensures finished { OnOk result (unfinished_of world.new ≡ None) }
{
    while world.unfinished().is_some() {
        let draw = generator.draw();
        if !step_first(world, draw, clients)? {
            break;
        }
    }
    Ok(())
}
