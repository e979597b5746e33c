//! What holds of the steps and runs of every call.

ghost use Rattle.std.specs.Prelude.{◌≡◌, ◌++◌, ◌<◌, ◌↔◌, ℕ, List, Option, Some, All, AllPairs};
ghost use Rattle.flr_base.specs.declared.reply.Progress.{Progress as Came};
ghost use Rattle.call_steps.specs.Servers.{Servers};
ghost use Rattle.call_steps.specs.Steps.{Outcome, Steps, widen, widened};
ghost use Rattle.call_steps.specs.Runs.{CallStep, IsRun, IsRunOf, call_after, place_after};

/// The steps of a run stand in the order of their places, which are all different.
pub fn places_ascend<C>()
    ensures ascend { (step : C → ℕ → Servers → Outcome C) (call : C) (steps : List (CallStep C))
        → IsRun step call steps
        → AllPairs (λ (a b : CallStep C). a.place < b.place) steps }
{}

/// A front of a run is a run, and the other steps go on from the call that the front leaves.
pub fn runs_are_joined<C>()
    ensures joined { (step : C → ℕ → Servers → Outcome C) (call : C) (front rest : List (CallStep C))
        → IsRun step call (front ++ rest)
        ↔ (IsRun step call front × IsRunOf step rest (call_after front (Some call)) (place_after front 0)) }
{}

/// A step that came to an outcome came to it also as a step of a wider type of calls.
pub fn wider_steps<C, D>()
    ensures wider { (f : C → D) (call : C) (old new : Servers) (came : Came C) (wanted : Outcome C)
        → Steps call old came new wanted
        → Steps (f call) old (widened f came) new (widen f wanted) }
{}
