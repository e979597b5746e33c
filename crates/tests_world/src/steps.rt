use crate::scripts::FIRST;
use flr_world::World;
use script_text::read_replay;
use std::test::Fail;
use turn_cell::{StepAnswer, Stepped};

fn is_send<T: Send + Drop>(_value: T) -> bool {
    true
}

/// How many calls are fixed, and how many the target has had, after each step.
const ROWS: [(usize, usize); 11] = [
    (1, 0),
    (1, 0),
    (1, 0),
    (1, 1),
    (2, 1),
    (2, 1),
    (2, 1),
    (2, 1),
    (2, 2),
    (3, 2),
    (3, 2),
];

#[test]
fn the_world_steps(rt: HostRuntime) -> Result<(), Fail> {
    let Ok((script, _)) = read_replay(rt.alloc(), FIRST) else {
        panic!(rt; "the script was refused")
    };
    let mut world = World::start(rt.alloc(), script)?;
    for (fixed, called) in ROWS {
        let answers = (world.unfinished(), world.step(2), world.step(1));
        assert!(rt; answers == (Some(1), StepAnswer::Unknown, StepAnswer::Stepped));
        let calls = match world.targets().len() {
            1 => world.targets().at(0).calls().len(),
            _ => 0,
        };
        assert!(rt; (world.entries().len(), calls) == (fixed, called));
    }
    assert!(rt;
        (world.unfinished(), world.left(), world.step(1)) == (None, 0, StepAnswer::Finished)
    );
    let counts = (
        world.schedule().len(),
        world.places(),
        world.meta().files(),
        world.script().clients(),
    );
    assert!(rt; counts == (11, 11, 1, 1) && is_send(world));
    Ok(())
}
