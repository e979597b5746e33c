use crate::scripts::{ONE, world_of};
use std::test::Fail;
use turn_cell::{StepAnswer, TurnCell};
use turn_crew::{Tried, step_as};

#[test]
fn one_seat_has_the_turn(rt: HostRuntime) -> Result<(), Fail> {
    let Some(world) = world_of(rt.alloc(), ONE) else {
        panic!(rt; "no world")
    };
    let Ok((cell, seat)) = TurnCell::new(rt.alloc(), world) else {
        panic!(rt; "no memory")
    };
    let (first, second) = cell.split(seat);
    let Ok(mut turn) = cell.try_turn(first) else {
        panic!(rt; "no turn")
    };
    let second = match cell.try_turn(second) {
        Ok(other) => {
            let _ = other.finish();
            panic!(rt; "two turns")
        }
        Err(second) => second,
    };
    let (second, tried) = step_as(&cell, second, 2);
    let made = turn.step(1);
    let first = turn.finish();
    let Ok(mut turn) = cell.try_turn(second) else {
        panic!(rt; "no second turn")
    };
    let again = turn.step(2);
    let second = turn.finish();
    let seat = cell.join(first, second);
    let Ok(world) = cell.close(seat) else {
        panic!(rt; "not closed")
    };
    assert!(rt; matches!(tried, Tried::NotNow));
    assert!(rt; (made, again) == (StepAnswer::Stepped, StepAnswer::Unknown));
    assert!(rt; world.schedule() == [1].as_slice());
    Ok(())
}
