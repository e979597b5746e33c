//! One try for a turn.
ghost use Rattle.std.specs.Prelude.{◌≡◌};
ghost use Rattle.turn_crew.specs.Crew.{HasTried};

use turn_cell::{StepAnswer, Stepped, TurnCell, TurnSeat};

/// What a try came to.
#[derive(Drop)]
pub enum Tried {
    /// Another seat had the turn.
    NotNow,
    /// The seat had a turn, in which the value gave this answer.
    Answer(StepAnswer),
}

/// Makes one try to have the client make its next step. It waits for nobody. At `NotNow` the seat is
/// as it was, but that it found another with the turn.
pub fn step_as<W: Stepped>(
    cell: &TurnCell<W>,
    seat: TurnSeat<W>,
    client: u8,
) -> (TurnSeat<W>, Tried)
    requires seat_of_cell { seat.cell ≡ cell.now }
    ensures tried { HasTried W.allowed seat client result.1 result.0 }
{
    match cell.try_turn(seat) {
        Ok(mut turn) => {
            let answer = turn.step(client);
            (turn.finish(), Tried::Answer(answer))
        }
        Err(seat) => (seat, Tried::NotNow),
    }
}
