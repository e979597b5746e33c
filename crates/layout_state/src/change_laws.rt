//! What holds of every change of a layout.

ghost use Rattle.std.specs.Prelude.{ℕ, ◌<◌};
ghost use Rattle.composite_layout.specs.Layouts.{Composite, IsValid};
ghost use Rattle.layout_state.specs.Changes.{Change, IsSplitOff, TakesIn};

/// A change of a valid layout leaves it valid, so some mirror stays wholly fresh, and adds to its
/// generation.
pub fn changes_keep_valid()
    ensures valid { (old new : Composite) → IsValid old → Change old new → IsValid new }
    ensures grows { (old new : Composite) → Change old new → old.generation < new.generation }
{}

/// A valid layout that takes in another is valid, and so is what is split off from one.
pub fn splits_and_merges_are_valid()
    ensures merged { (old victim new : Composite) → IsValid old → IsValid victim → TakesIn old victim new → IsValid new }
    ensures split_off { (mirror : ℕ) (old part : Composite) → IsValid old → IsSplitOff mirror old part → IsValid part }
{}
