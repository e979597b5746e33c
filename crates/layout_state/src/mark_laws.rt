//! What callers of the marks can rely on.

ghost use Rattle.std.specs.Prelude.{◌≡◌, ℕ, ◌<◌, ◌≤◌, Bool, true, None, Some, List, length, slice_index};
ghost use Rattle.std.specs.List.{AllByRecursion, AllZip};
ghost use Rattle.flr_base.specs.declared.reply.Range.{Range};
ghost use Rattle.composite_layout.specs.declared.component.Component.{Component};
ghost use Rattle.composite_layout.specs.Choices.{is_ready};
ghost use Rattle.composite_layout.specs.FlagChanges.{FlagSets};
ghost use Rattle.composite_layout.specs.Layouts.{Composite, IsValid};
ghost use Rattle.layout_state.specs.Choosing.{primary_of};
ghost use Rattle.layout_state.specs.Keeping.{Stays, StaysStale};
ghost use Rattle.layout_state.specs.Making.{all_objects, AreApart, AreNext, IsNewBetween, new_objects, new_targets, nexts_after, objects_on};
ghost use Rattle.layout_state.specs.Marking.{flags_refusal, IsBegin, IsDone, IsFlagChange, IsIntent};

/// After an intent to its primary a range is ready for its write.
pub fn intent_readies()
    ensures ready { (range : Range) (mirror file : ℕ) (nexts : List ℕ) (old new : Composite) (after : List ℕ)
        → IsValid old
        → primary_of range old.components ≡ Some mirror
        → IsIntent range mirror file nexts old new after
        → is_ready new range ≡ true }
{}

/// A mark of a valid layout leaves it valid, so some mirror stays wholly fresh.
pub fn marks_keep_valid()
    ensures done { (ids : List ℕ) (old new : Composite)
        → IsValid old → IsDone ids old new → IsValid new }
    ensures flags { (id : ℕ) (change : FlagSets) (old new : Composite)
        → IsValid old
        → flags_refusal id change old.components ≡ None
        → IsFlagChange id change old new → IsValid new }
    ensures begin { (ids : List ℕ) (file : ℕ) (nexts : List ℕ) (old new : Composite) (after : List ℕ)
        → IsValid old → AreNext nexts
        → IsBegin ids file nexts old new after → IsValid new }
    ensures intent { (range : Range) (mirror file : ℕ) (nexts : List ℕ) (old new : Composite) (after : List ℕ)
        → IsValid old → AreNext nexts
        → primary_of range old.components ≡ Some mirror
        → IsIntent range mirror file nexts old new after → IsValid new }
{}

/// No mark changes a component's id, mirror, extent or stripes, or objects that are there.
pub fn components_stay()
    ensures done { (ids : List ℕ) (old new : Composite)
        → IsDone ids old new → AllZip Stays old.components new.components }
    ensures flags { (id : ℕ) (change : FlagSets) (old new : Composite)
        → IsFlagChange id change old new → AllZip Stays old.components new.components }
    ensures begin { (ids : List ℕ) (file : ℕ) (nexts : List ℕ) (old new : Composite) (after : List ℕ)
        → IsBegin ids file nexts old new after → AllZip Stays old.components new.components }
    ensures intent { (range : Range) (mirror file : ℕ) (nexts : List ℕ) (old new : Composite) (after : List ℕ)
        → IsIntent range mirror file nexts old new after → AllZip Stays old.components new.components }
{}

/// What is stale stays so until a copy is done.
pub fn stale_stays()
    ensures flags { (id : ℕ) (change : FlagSets) (old new : Composite)
        → IsFlagChange id change old new → AllZip StaysStale old.components new.components }
    ensures begin { (ids : List ℕ) (file : ℕ) (nexts : List ℕ) (old new : Composite) (after : List ℕ)
        → IsBegin ids file nexts old new after → AllZip StaysStale old.components new.components }
    ensures intent { (range : Range) (mirror file : ℕ) (nexts : List ℕ) (old new : Composite) (after : List ℕ)
        → IsIntent range mirror file nexts old new after → AllZip StaysStale old.components new.components }
{}

/// The generation grows with every mark.
pub fn generation_grows()
    ensures done { (ids : List ℕ) (old new : Composite)
        → IsDone ids old new → old.generation < new.generation }
    ensures flags { (id : ℕ) (change : FlagSets) (old new : Composite)
        → IsFlagChange id change old new → old.generation < new.generation }
    ensures begin { (ids : List ℕ) (file : ℕ) (nexts : List ℕ) (old new : Composite) (after : List ℕ)
        → IsBegin ids file nexts old new after → old.generation < new.generation }
    ensures intent { (range : Range) (mirror file : ℕ) (nexts : List ℕ) (old new : Composite) (after : List ℕ)
        → IsIntent range mirror file nexts old new after → old.generation < new.generation }
{}

/// The objects that a change makes are made one component after the other, no two are the same, and
/// each has a number that its target hadn't used before and has used then.
pub fn objects_are_new()
    ensures in_order { (wanted : Component → Bool) (file : ℕ) (nexts : List ℕ) (cs : List Component)
        → all_objects (new_objects wanted file nexts cs)
        ≡ objects_on nexts (new_targets wanted (length nexts) file cs) }
    ensures between { (wanted : Component → Bool) (file : ℕ) (nexts : List ℕ) (cs : List Component)
        → 0 < length nexts
        → AllByRecursion (IsNewBetween nexts (nexts_after nexts (new_targets wanted (length nexts) file cs)))
        (all_objects (new_objects wanted file nexts cs)) }
    ensures apart { (wanted : Component → Bool) (file : ℕ) (nexts : List ℕ) (cs : List Component)
        → 0 < length nexts
        → AreApart (all_objects (new_objects wanted file nexts cs)) }
    ensures grow { (wanted : Component → Bool) (file : ℕ) (nexts : List ℕ) (cs : List Component)
        → 0 < length nexts
        → (target : ℕ)
        → slice_index nexts target ≤ slice_index (nexts_after nexts (new_targets wanted (length nexts) file cs)) target }
{}
