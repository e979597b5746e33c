ghost use Rattle.std.specs.Prelude.{◌≡◌, ◌+◌, ◌<◌, ◌^◌, map, None, OnErr, OnOk, MatchResult};
ghost use Rattle.std.specs.Prelude.{not, ◌&&◌, nat_eq};
ghost use Rattle.std.specs.List.{list_any};
ghost use Rattle.composite_layout.specs.LookUps.{has_stale, mirror_ids};
ghost use Rattle.composite_layout.specs.Making.{new_state};
ghost use Rattle.layout_state.specs.Breaking.{unleased};
ghost use Rattle.layout_state.specs.Marking.{changed_if_named, flags_refusal, fresh_if_named, IsDone, IsFlagChange, mirror_of, with_change};

use crate::error::StateError;
use crate::leases::break_lease;
use composite_layout::{Component, FlagChange, Flags, Layout, State};
use flr_base::Ids;

/// Ends a copy: the components with these ids lose `stale`. The state is read only, or single with
/// one mirror. An id that isn't there changes nothing.
///
/// That a copy names the components that it brought up to date, and that these lose `stale`, is
/// Lustre's File Level Redundancy design. The cost is that of looking for each component's id among
/// the ids.
pub fn done(layout: &mut Layout, ids: &Ids)
    requires generation { layout.old.generation + 2 < 2 ^ 32 }
    ensures done { IsDone ids.now layout.old layout.new }
{
    let state = synced_state(layout.mirrors());
    clear_stale(&mut layout.components, ids.as_slice());
    layout.generation += 1;
    layout.state = state;
}

/// Breaks the lease where a copy is under way.
pub(crate) fn unlease(layout: &mut Layout)
    requires generation { layout.old.generation + 2 < 2 ^ 32 }
    ensures unleased { layout.new ≡ unleased layout.old }
{
    if layout.state() == State::SyncPending {
        break_lease(layout);
    }
}

/// The state of so many mirrors once they were made the same.
fn synced_state(mirrors: usize) -> State
    ensures { result ≡ new_state mirrors }
{
    if mirrors == 1 {
        State::Single
    } else {
        State::ReadOnly
    }
}

fn clear_stale(components: &mut Vec<Component>, ids: &[u32])
    ensures { components.new.items ≡ map (fresh_if_named ids.now) components.old.items }
{
    for component in components.iter_mut() {
        clear_if_named(component, ids);
    }
}

fn clear_if_named(component: &mut Component, ids: &[u32])
    ensures { component.new ≡ fresh_if_named ids.now component.old }
{
    if is_named(component.id, ids) {
        component.flags.stale = false;
    }
}

pub(crate) fn is_named(id: u32, ids: &[u32]) -> bool
    ensures { result ≡ list_any (nat_eq id) ids.now }
{
    ids.iter().any(|other| id == *other)
}

/// Sets and clears flags of the component with this id, after a break where a copy is under way.
/// The state stays otherwise. A change that changes nothing is a change like any other.
///
/// `NoComponent` comes first, where there is no such component. `LastFresh` comes exactly where no
/// mirror would be left wholly fresh, and names the component's mirror.
///
/// The change is the one that `lfs setstripe --comp-set` asks for (lfs-setstripe manual page); that
/// the last wholly fresh mirror stays so is this project's own.
pub fn set_flags(layout: &mut Layout, id: u32, change: FlagChange) -> Result<(), StateError>
    requires generation { layout.old.generation + 2 < 2 ^ 32 }
    ensures changed { OnOk result (IsFlagChange id change layout.old layout.new) }
    ensures refused { MatchResult result
        (λ _. flags_refusal id change layout.old.components ≡ None)
        (λ refusal. flags_refusal id change layout.old.components ≡ Some refusal) }
    ensures unchanged { OnErr result (layout.new ≡ layout.old) }
{
    match flags_refusal(layout.components(), id, change) {
        Some(refusal) => Err(refusal),
        None => {
            unlease(layout);
            change_flags(&mut layout.components, id, change);
            layout.generation += 1;
            Ok(())
        }
    }
}

pub(crate) fn flags_refusal(
    components: &[Component],
    id: u32,
    change: FlagChange,
) -> Option<StateError>
    ensures { result ≡ flags_refusal id change components.now }
{
    match mirror_of(components, id) {
        None => Some(StateError::NoComponent { id }),
        Some(mirror) => {
            if has_fresh_after(components, id, change) {
                None
            } else {
                Some(StateError::LastFresh { mirror })
            }
        }
    }
}

/// The mirror of the component with this id.
fn mirror_of(components: &[Component], id: u32) -> Option<u16>
    ensures { result ≡ mirror_of id components.now }
{
    components
        .iter()
        .find(|component| component.id == id)
        .map(|component| component.mirror)
}

/// Whether some mirror is wholly fresh once the flags are changed.
fn has_fresh_after(components: &[Component], id: u32, change: FlagChange) -> bool
    ensures { result
        ≡ list_any (λ mirror. not (has_stale mirror (map (changed_if_named id change) components.now))) (mirror_ids components.now) }
{
    for component in components {
        let mirror = component.mirror;
        if component.extent.start == 0 && !has_stale_after(components, mirror, id, change) {
            return true;
        }
    }
    false
}

/// Whether the mirror has a stale component once the flags are changed.
fn has_stale_after(components: &[Component], mirror: u16, id: u32, change: FlagChange) -> bool
    ensures { result ≡ has_stale mirror (map (changed_if_named id change) components.now) }
{
    components
        .iter()
        .any(|component| is_stale_after(component, mirror, id, change))
}

/// Whether the component is of this mirror, and stale once the flags are changed.
fn is_stale_after(component: &Component, mirror: u16, id: u32, change: FlagChange) -> bool
    ensures { result
        ≡ (nat_eq component.now.mirror mirror && (changed_if_named id change component.now).flags.stale) }
{
    let stale = component.flags.stale || (component.id == id && change.set.stale);
    component.mirror == mirror && stale
}

fn change_flags(components: &mut Vec<Component>, id: u32, change: FlagChange)
    ensures { components.new.items ≡ map (changed_if_named id change) components.old.items }
{
    for component in components.iter_mut() {
        change_if_named(component, id, change);
    }
}

fn change_if_named(component: &mut Component, id: u32, change: FlagChange)
    ensures { component.new ≡ changed_if_named id change component.old }
{
    if component.id == id {
        component.flags = with_change(component.flags, change);
    }
}

fn with_change(flags: Flags, change: FlagChange) -> Flags
    ensures { result ≡ with_change change flags }
{
    let FlagChange { set, clear } = change;
    Flags {
        init: flags.init,
        stale: flags.stale || set.stale,
        prefer: (flags.prefer || set.prefer) && !clear.prefer,
        offline: (flags.offline || set.offline) && !clear.offline,
        nosync: (flags.nosync || set.nosync) && !clear.nosync,
    }
}
