ghost use Rattle.std.specs.Prelude.{◌≡◌, ◌+◌, ◌<◌, ◌^◌};
ghost use Rattle.layout_state.specs.Breaking.{pending, broken, unleased};

use composite_layout::{Layout, State};

/// Breaks the lease under which a copy runs: the generation is one more, and the state is write
/// pending, or single with one mirror. No component changes.
///
/// That a write breaks the lease of a resync is Lustre's (its design of file level redundancy); that
/// a break adds one to the generation is this project's own.
pub fn break_lease(layout: &mut Layout)
    requires generation { layout.old.generation + 2 < 2 ^ 32 }
    ensures broken { layout.new ≡ broken layout.old }
{
    let state = pending_state(layout.mirrors());
    layout.generation += 1;
    layout.state = state;
}

/// The generation and the state that a change begins from: those after a break where a copy is under
/// way.
pub(crate) fn unleased(layout: &Layout) -> (u32, State)
    requires generation { layout.now.generation + 2 < 2 ^ 32 }
    ensures generation { result.0 ≡ (unleased layout.now).generation }
    ensures state { result.1 ≡ (unleased layout.now).state }
{
    let generation = layout.generation();
    let state = layout.state();
    if state == State::SyncPending {
        (generation + 1, pending_state(layout.mirrors()))
    } else {
        (generation, state)
    }
}

/// The state of so many mirrors where a write may have left some of them behind.
pub(crate) fn pending_state(mirrors: usize) -> State
    ensures { result ≡ pending mirrors }
{
    if mirrors == 1 {
        State::Single
    } else {
        State::WritePending
    }
}
