//! The rule of the table under a cell, and what each step on it tells.
use crate::stepped::Stepped;
use crate::view::View;
use atomic_table::{Join, Play, Split, TableRule};
use std::marker::PhantomData;
use std::snapshot::Snapshot;

/// The rule of a cell whose value began as the key has it.
pub struct TurnRule<W> {
    value: PhantomData<W>,
}

impl<W: Stepped> TableRule<Option<W>, View<W::Origin>, Snapshot<W>> for TurnRule<W> {
    ghost use Rattle.turn_cell.specs.Rule.{IsSoundTable};
    ghost use Rattle.turn_cell.specs.Views.{first_view};

    ghost holds = { λ key s. IsSoundTable W.schedule W.origin (W.origin key.value) s };

    ghost first = { λ key. first_view (W.origin key.value) (W.schedule key.value) };
}

/// The word is loaded.
pub struct Load;

impl<S, O> Play<S, View<O>> for Load {
    ghost use Rattle.turn_cell.specs.Rule.{TellsLoad};

    ghost then = { TellsLoad };
}

/// The even word that was loaded is exchanged for one more.
pub struct Claim<W> {
    value: PhantomData<W>,
}

impl<W: Stepped> Play<Option<W>, View<W::Origin>> for Claim<W> {
    ghost use Rattle.turn_cell.specs.Rule.{TellsClaim};

    ghost then = { TellsClaim W.schedule W.origin };
}

/// The turn is given up after a step.
pub struct StepRelease<W> {
    value: PhantomData<W>,
}

impl<W: Stepped> Play<Option<W>, View<W::Origin>> for StepRelease<W> {
    ghost use Rattle.turn_cell.specs.Rule.{TellsStep};

    ghost then = { TellsStep W.schedule };
}

/// The turn is given up without a step.
pub struct Release;

impl<S, O> Play<S, View<O>> for Release {
    ghost use Rattle.turn_cell.specs.Rule.{TellsRelease};

    ghost then = { TellsRelease };
}

/// The word is loaded after a join.
pub struct JoinLoad;

impl<S, O> Play<S, View<O>> for JoinLoad {
    ghost use Rattle.turn_cell.specs.Rule.{TellsJoin};

    ghost then = { TellsJoin };
}

/// How a seat is split in two, and two are joined.
pub struct Halves;

impl<O> Split<View<O>> for Halves {
    ghost use Rattle.turn_cell.specs.Views.{split_view};

    ghost left = { λ v. v };

    ghost right = { split_view };
}

impl<O> Join<View<O>> for Halves {
    ghost use Rattle.turn_cell.specs.Views.{joined_view, spent_view};

    ghost both = { joined_view };

    ghost spent = { spent_view };
}
