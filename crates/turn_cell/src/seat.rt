//! A seat of a cell.
use crate::stepped::Stepped;
use crate::view::View;
use atomic_table::Seat;
use std::marker::Model;

/// What a thread asks a cell for turns with. It has no bytes. Contracts see which cell it is of,
/// what it has seen, the places that it made, and how often it found another seat with the turn.
#[derive(Drop)]
pub struct TurnSeat<W: Stepped> {
    pub(crate) seat: Seat<Option<W>, View<W::Origin>>,
}

impl<W: Stepped> Model for TurnSeat<W> {
    ghost use Rattle.std.specs.Prelude.{◌≡◌, [], true, false, is_some};
    ghost use Rattle.turn_cell.specs.Places.{ArePlaces};
    ghost use Rattle.turn_cell.specs.Seats.{SeatView};

    ghost Value = { SeatView W.Origin };

    ghost view = { λ s. record { cell = s.seat.table_id; origin = s.seat.me.0.origin; seen = s.seat.me.0.seen; mine = s.seat.me.0.mine; busy = s.seat.me.0.busy } };

    ghost invariant = { λ s.
        (s.seat.me.1 ≡ [])
        × (s.seat.me.0.has_turn ≡ false)
        × (is_some s.seat.me.0.origin ≡ true)
        × ArePlaces s.seat.me.0.mine s.seat.me.0.seen };
}
