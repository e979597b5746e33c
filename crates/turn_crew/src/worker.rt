//! A worker: the steps of one client.
ghost use Rattle.std.specs.Prelude.{◌≡◌, MatchOption};
ghost use Rattle.turn_crew.specs.Crew.{HadTurn, HasWaited, HasWorked};

use crate::gate::Gate;
use crate::tried::{Tried, step_as};
use crossbeam_utils::Backoff;
use std::sync::Wait;
use std::sync::atomic::{AtomicBool, Ordering};
use turn_cell::{StepAnswer, Stepped, TurnCell, TurnSeat};

// Tries until there was a turn. None where the flag was found raised.
fn next_answer<W: Stepped, R: Wait>(
    rt: &R,
    cell: &TurnCell<W>,
    mut seat: TurnSeat<W>,
    client: u8,
    stop: &AtomicBool,
) -> (TurnSeat<W>, Option<StepAnswer>)
    requires seat_of_cell { seat.cell ≡ cell.now }
    ensures answer { MatchOption result.1 (HasWaited seat result.0) (λ answer. HadTurn W.allowed seat client answer result.0) }
{
    let backoff = Backoff::new();
    for _ in rt.forever() {
        if stop.load(Ordering::SeqCst) {
            break;
        }
        let (next, tried) = step_as(cell, seat, client);
        if let Tried::Answer(answer) = tried {
            return (next, Some(answer));
        }
        seat = next;
        backoff.snooze();
    }
    (seat, None)
}

/// Has the client make its steps until it has no command left, memory runs out or the flag is raised.
/// Whether it has none left.
pub(crate) fn work<W: Stepped, G: Gate, R: Wait>(
    rt: &R,
    cell: &TurnCell<W>,
    mut seat: TurnSeat<W>,
    client: u8,
    gate: &G,
    stop: &AtomicBool,
) -> (TurnSeat<W>, bool)
    requires seat_of_cell { seat.cell ≡ cell.now }
    ensures worked { HasWorked W.allowed seat client result.0 result.1 }
{
    let mut made: u32 = 0;
    let backoff = Backoff::new();
    for _ in rt.forever() {
        gate.before_step(client, made);
        let (next, answer) = next_answer(rt, cell, seat, client, stop);
        seat = next;
        match answer {
            None => return (seat, false),
            Some(StepAnswer::Stepped) => {
                made += 1;
                gate.after_step(client, made);
                backoff.reset();
            }
            Some(StepAnswer::Blocked { .. }) => backoff.snooze(),
            Some(StepAnswer::NoMemory) => {
                stop.store(true, Ordering::SeqCst);
                return (seat, false);
            }
            Some(StepAnswer::Finished) => return (seat, true),
            Some(StepAnswer::Unknown) => return (seat, true),
        }
    }
    unreachable!()
}
