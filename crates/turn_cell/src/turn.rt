//! A turn.
ghost use Rattle.std.specs.Prelude.{◌≡◌, true, false};
ghost use Rattle.turn_cell.specs.Places.{ArePlaces};
ghost use Rattle.turn_cell.specs.Schedules.{schedule_after, stepped_client};
ghost use Rattle.turn_cell.specs.Seats.{IsSameTurn, IsSeatAfter};

use crate::cell::TurnCell;
use crate::rule::{Release, StepRelease};
use crate::seat::TurnSeat;
use crate::stepped::{StepAnswer, Stepped};
use crate::view::View;
use atomic_table::Seat;
use std::marker::Model;

/// The value of a cell, lent to one seat. A turn can't be dropped: it has to be finished. Contracts
/// see what its seat had seen and made, the value's origin and schedule, the client that stepped, and
/// whether the value was asked.
pub struct Turn<'a, W: Stepped> {
    pub(crate) cell: &'a TurnCell<W>,
    pub(crate) seat: Seat<Option<W>, View<W::Origin>>,
    pub(crate) value: W,
    /// The odd word that the claim left.
    pub(crate) word: u64,
    pub(crate) made: Option<u8>,
    pub(crate) asked: bool,
}

impl<'a, W: Stepped> Model for Turn<'a, W> {
    ghost use Rattle.std.specs.Prelude.{◌≡◌, ◌+◌, ◌*◌, ◌^◌, ◌<◌, [], ◌∷◌, true, false, length, None, Some};
    ghost use Rattle.turn_cell.specs.Places.{ArePlaces};
    ghost use Rattle.turn_cell.specs.Schedules.{schedule_with};
    ghost use Rattle.turn_cell.specs.Seats.{TurnView};

    ghost Value = { TurnView W.Origin };

    ghost view = { λ t. record { cell = t.cell.now; origin = W.origin t.value; seen = t.seat.me.0.seen; mine = t.seat.me.0.mine; busy = t.seat.me.0.busy; schedule = W.schedule t.value; made = t.made; asked = t.asked } };

    ghost invariant = { λ t.
        (t.seat.table_id ≡ t.cell.now)
        × (t.seat.me.1 ≡ (0, None) ∷ [])
        × (t.seat.me.0.has_turn ≡ true)
        × (t.seat.me.0.origin ≡ Some (W.origin t.value))
        × (t.word ≡ 2 * length t.seat.me.0.seen + 1)
        × (length t.seat.me.0.seen < 2 ^ 32)
        × (length (W.schedule t.value) < 2 ^ 32)
        × (W.schedule t.value ≡ schedule_with t.seat.me.0.seen t.made)
        × (t.asked ≡ false → t.made ≡ None)
        × ArePlaces t.seat.me.0.mine t.seat.me.0.seen };
}

impl<'a, W: Stepped> Turn<'a, W> {
    /// Asks the value for the client's next step. A turn asks once. The answer is one that the value
    /// allows for its schedule before it.
    pub fn step(&mut self, client: u8) -> StepAnswer
        requires once { self.old.asked ≡ false }
        ensures allowed { W.allowed self.old.origin self.old.schedule client result }
        ensures schedule { self.new.schedule ≡ schedule_after self.old.schedule client result }
        ensures made { self.new.made ≡ stepped_client client result }
        ensures asked { self.new.asked ≡ true }
        ensures same { IsSameTurn self.old self.new }
    {
        let answer = self.value.step(client);
        self.asked = true;
        if let StepAnswer::Stepped = answer {
            self.made = Some(client);
        }
        answer
    }

    /// The value, which the cell doesn't get back.
    pub(crate) fn into_value(self) -> W
        ensures origin { W.origin result ≡ self.entry.origin }
        ensures schedule { W.schedule result ≡ self.entry.schedule }
    {
        let Turn {
            cell: _,
            seat: _seat,
            value,
            word: _,
            made: _,
            asked: _,
        } = self;
        value
    }

    /// Gives the value back. The seat has seen the value's schedule then. After a step it has one
    /// place more, the last of that, whose client is the one that was asked for.
    pub fn finish(self) -> TurnSeat<W>
        ensures after { IsSeatAfter self.entry result }
        ensures places { ArePlaces result.mine result.seen }
    {
        let Turn {
            cell,
            mut seat,
            value,
            word,
            made,
            asked: _,
        } = self;
        let shared = &cell.table.shared;
        match shared.exchange(&mut seat, 0, Some(value)) {
            None => {}
            Some(_) => unreachable!(),
        }
        match made {
            Some(_) => {
                shared.store::<StepRelease<W>>(&mut seat, 0, word + 1);
                TurnSeat { seat }
            }
            None => {
                shared.store::<Release>(&mut seat, 0, word - 1);
                TurnSeat { seat }
            }
        }
    }
}
