//! What stays when mirrors come to a layout and go from it.

ghost use Rattle.std.specs.Prelude.{◌≡◌, ◌≢◌, ◌<◌, ◌++◌, ℕ, true, List, map};
ghost use Rattle.std.specs.List.{AllByRecursion};
ghost use Rattle.composite_layout.specs.declared.component.Component.{Component};
ghost use Rattle.composite_layout.specs.declared.spec.MirrorSpec.{MirrorSpec};
ghost use Rattle.composite_layout.specs.Layouts.{Composite};
ghost use Rattle.composite_layout.specs.LookUps.{wholly_fresh};
ghost use Rattle.composite_layout.specs.Making.{new_mirrors};
ghost use Rattle.layout_state.specs.Breaking.{unleased};
ghost use Rattle.layout_state.specs.Mirroring.{IsAdd, IsNew, IsRemove, Merge, Off, taken_in, unnamed, without};

/// Each component that an add brings is stale and without objects. Those that a merge brings are the
/// victim's in their order, with their flags, extents, stripes and objects.
pub fn what_mirrors_keep()
    ensures added { (targets id q : ℕ) (ms : List MirrorSpec) → AllByRecursion IsNew (new_mirrors true targets id q ms) }
    ensures merged { (id q : ℕ) (cs : List Component) → map unnamed (taken_in id q cs) ≡ map unnamed cs }
{}

/// Whatever mirrors come or go, each other mirror is as fresh as it was.
pub fn mirrors_stay_as_fresh()
    ensures added { (mirror targets id q : ℕ) (ms : List MirrorSpec) (cs : List Component) → mirror < id → wholly_fresh mirror (cs ++ new_mirrors true targets id q ms) ≡ wholly_fresh mirror cs }
    ensures merged { (mirror id q : ℕ) (cs theirs : List Component) → mirror < id → wholly_fresh mirror (cs ++ taken_in id q theirs) ≡ wholly_fresh mirror cs }
    ensures removed { (mirror gone : ℕ) (cs : List Component) → mirror ≢ gone → wholly_fresh mirror (without gone cs) ≡ wholly_fresh mirror cs }
{}

/// Each change has a greater generation, and so has a file that is split off. That of a merge is above
/// both.
pub fn generations_grow()
    ensures added { (mirrors : List MirrorSpec) (targets : ℕ) (old new : Composite) → IsAdd mirrors targets (unleased old) new → old.generation < new.generation }
    ensures removed { (mirror : ℕ) (old new : Composite) → IsRemove mirror (unleased old) new → old.generation < new.generation }
    ensures split_off { (mirror : ℕ) (old part : Composite) → Off mirror (unleased old) part → old.generation < part.generation }
    ensures merged { (old victim new : Composite) → Merge old victim new → (old.generation < new.generation) × (victim.generation < new.generation) }
{}
