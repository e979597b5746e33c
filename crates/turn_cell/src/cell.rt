//! The cell.
ghost use Rattle.std.specs.Prelude.{◌≡◌, ◌+◌, [], ◌∷◌, true, false, is_some, None, IfOk, IfErr, MatchOption, Some};
ghost use Rattle.turn_cell.specs.Places.{ArePlaces, HasBoth};
ghost use Rattle.turn_cell.specs.Schedules.{IsFront, longer};
ghost use Rattle.turn_cell.specs.Seats.{new_seat, FoundBusy, IsTurnOf};
ghost use Rattle.turn_cell.specs.Tries.{IsViewOfBusy, IsViewOfTurn};

use crate::rule::{Claim, Halves, JoinLoad, Load, TurnRule};
use crate::seat::TurnSeat;
use crate::stepped::Stepped;
use crate::turn::Turn;
use crate::view::View;
use atomic_table::{Seat, Table};
use flr_base::NoMemory;
use std::alloc::Global;
use std::marker::Model;
use std::snapshot::Snapshot;

/// A value that is lent to one seat at a time. Contracts see which cell it is. What is known of its
/// value stands in what its seats have seen.
#[derive(Drop)]
pub struct TurnCell<W: Stepped> {
    pub(crate) table: Table<Option<W>, View<W::Origin>, Snapshot<W>, TurnRule<W>, Global>,
}

impl<W: Stepped> Model for TurnCell<W> {
    ghost use Rattle.std.specs.Prelude.{◌≡◌};
    ghost use Rattle.atomic_table.specs.Seated.{TableId};

    ghost Value = { TableId };

    ghost view = { λ c. c.table.shared.table_id };

    ghost invariant = { λ c. (c.table.shared.table_id.words ≡ 1) × (c.table.shared.table_id.slots ≡ 1) };
}

/// The cell that couldn't be closed, since another seat had the turn, and the seat that tried.
#[derive(Drop)]
pub struct TurnOut<W: Stepped> {
    pub cell: TurnCell<W>,
    pub seat: TurnSeat<W>,
}

impl<W: Stepped> TurnCell<W> {
    /// A cell of this value, and its first seat, which has seen the value's schedule. Where memory
    /// runs out the value is dropped.
    pub fn new(alloc: Global, value: W) -> Result<(TurnCell<W>, TurnSeat<W>), NoMemory>
        ensures first { IfOk result (λ r. r.1 ≡ new_seat r.0 (Some (W.origin value)) (W.schedule value)) }
    {
        let about = Snapshot::of(&value);
        let word = 2 * u64::from(value.places());
        let mut slots = Vec::new(alloc);
        slots.push(Some(value))?;
        match Table::new(alloc, &[word], slots, &about) {
            Ok((table, seat)) => Ok((TurnCell { table }, TurnSeat { seat })),
            Err(_) => Err(NoMemory),
        }
    }

    // Tries once to get the turn and the value. None where another seat had the turn.
    fn try_take(&self, seat: &mut Seat<Option<W>, View<W::Origin>>) -> Option<(u64, W)>
        requires cell { seat.old.table_id ≡ self.now }
        requires idle { (seat.old.me.1 ≡ []) × (seat.old.me.0.has_turn ≡ false) × (is_some seat.old.me.0.origin ≡ true) }
        ensures cell { seat.new.table_id ≡ seat.old.table_id }
        ensures took { MatchOption result
            ((seat.new.me.1 ≡ []) × IsViewOfBusy seat.old.me.0 seat.new.me.0)
            (λ r. (seat.new.me.1 ≡ (0, None) ∷ []) × IsViewOfTurn W.schedule W.origin seat.old.me.0 r.1 r.0 seat.new.me.0) }
    {
        let shared = &self.table.shared;
        let word = shared.load::<Load>(seat, 0);
        if word % 2 == 1 {
            return None;
        }
        let found = shared.compare_exchange::<Claim<W>>(seat, 0, word, word + 1);
        if found != word {
            return None;
        }
        let Some(value) = shared.exchange(seat, 0, None) else {
            unreachable!()
        };
        Some((word, value))
    }

    /// Tries once to get the turn. The seat comes back where it found another with the turn. It takes
    /// no memory and waits for nobody.
    pub fn try_turn(&self, seat: TurnSeat<W>) -> Result<Turn<'_, W>, TurnSeat<W>>
        requires seat_of_cell { seat.cell ≡ self.now }
        ensures turn { IfOk result (λ turn. IsTurnOf seat turn) }
        ensures busy { IfErr result (λ back. FoundBusy seat back) }
    {
        let TurnSeat { mut seat } = seat;
        match self.try_take(&mut seat) {
            Some((word, value)) => Ok(Turn {
                cell: self,
                seat,
                value,
                word: word + 1,
                made: None,
                asked: false,
            }),
            None => Err(TurnSeat { seat }),
        }
    }

    /// The seat, and a second one, which has seen as much and has made no place.
    pub fn split(&self, seat: TurnSeat<W>) -> (TurnSeat<W>, TurnSeat<W>)
        requires seat_of_cell { seat.cell ≡ self.now }
        ensures same { result.0 ≡ seat }
        ensures second { result.1 ≡ new_seat seat.cell seat.origin seat.seen }
    {
        let TurnSeat { mut seat } = seat;
        let second = self.table.shared.split_seat::<Halves>(&mut seat);
        (TurnSeat { seat }, TurnSeat { seat: second })
    }

    /// One seat in place of two. It has seen the longer of what they have seen, which begins with the
    /// other, and has the places of both.
    pub fn join(&self, first: TurnSeat<W>, second: TurnSeat<W>) -> TurnSeat<W>
        requires first_of_cell { first.cell ≡ self.now }
        requires second_of_cell { second.cell ≡ self.now }
        ensures cell { result.cell ≡ first.cell }
        ensures origin { result.origin ≡ first.origin }
        ensures seen { result.seen ≡ longer first.seen second.seen }
        ensures fronts { IsFront first.seen result.seen × IsFront second.seen result.seen }
        ensures mine { HasBoth result.mine first.mine second.mine }
        ensures places { ArePlaces result.mine result.seen }
        ensures busy { result.busy ≡ first.busy + second.busy }
    {
        let TurnSeat { mut seat } = first;
        let TurnSeat { seat: other } = second;
        let shared = &self.table.shared;
        shared.join_seat::<Halves>(&mut seat, other);
        shared.load::<JoinLoad>(&mut seat, 0);
        TurnSeat { seat }
    }

    /// Ends the cell and gives its value. The cell and the seat come back where the seat found another
    /// with the turn. It takes no memory and waits for nobody.
    pub fn close(self, seat: TurnSeat<W>) -> Result<W, TurnOut<W>>
        requires seat_of_cell { seat.cell ≡ self }
        ensures origin { IfOk result (λ value. seat.origin ≡ Some (W.origin value)) }
        ensures front { IfOk result (λ value. IsFront seat.seen (W.schedule value)) }
        ensures same { IfErr result (λ out. out.cell ≡ self) }
        ensures busy { IfErr result (λ out. FoundBusy seat out.seat) }
    {
        match self.try_turn(seat) {
            Ok(turn) => Ok(turn.into_value()),
            Err(seat) => Err(TurnOut { cell: self, seat }),
        }
    }
}
