ghost use Rattle.std.specs.Prelude.{◌≡◌, ◌≤◌, None, IfErr, IfOk, OnOk, Some, map, filter, false, nat_eq};
ghost use Rattle.std.specs.List.{list_any, AllByRecursion};
ghost use Rattle.std.specs.Option.{ForSome, option_copied};
ghost use Rattle.layout_state.specs.Selecting.{absent_of, AreSourced, has_source, is_asked, is_selected, is_source, is_sourced, IsSelection, select_refusal, selected_of};
ghost use Rattle.layout_state.specs.Refusing.{IsRefusal};

use crate::error::StateError;
use composite_layout::{Component, Layout, has_mirror};
use flr_base::{Ids, NoMemory, Range};
use std::alloc::Global;

/// The ids of the components to which a resync copies, in ascending order: those that are stale and
/// not `offline`, of a mirror in `only` where that is given and without `nosync` where it isn't, and
/// for each byte of which some component is fresh and not `offline`. The mirror ids in `only` are at
/// most 65535; the first of them that the layout doesn't have is refused. `lfs mirror resync` takes
/// the mirrors by `--only`, and that it leaves out `nosync` without them is after Lustre's manual;
/// the rest of the choice is this project's own.
pub fn selected(alloc: Global, layout: &Layout, only: Option<&Ids>) -> Result<Ids, StateError>
    requires small { ForSome (option_copied only) (AllByRecursion (λ id. id ≤ 65535)) }
    ensures chosen { IfOk result (λ ids. ids ≡ selected_of (option_copied only.entry) layout.now.components) }
    ensures selection { IfOk result (IsSelection (option_copied only.entry) layout.now.components) }
    ensures there { OnOk result (select_refusal (option_copied only.entry) layout.now.components ≡ None) }
    ensures refused { IfErr result (IsRefusal (select_refusal (option_copied only.entry) layout.now.components)) }
{
    let components = layout.components();
    if let Some(id) = absent(components, only) {
        return Err(StateError::NoMirrorId { id });
    }
    let ids = selected_ids(alloc, components, only)?;
    Ok(ids)
}

/// The first named mirror that there isn't.
fn absent(components: &[Component], only: Option<&Ids>) -> Option<u16>
    requires small { ForSome (option_copied only) (AllByRecursion (λ id. id ≤ 65535)) }
    ensures { result ≡ absent_of (option_copied only.entry) components.now }
{
    match only {
        None => None,
        Some(only) => first_absent(components, only.as_slice()),
    }
}

fn first_absent(components: &[Component], only: &[u32]) -> Option<u16>
    requires small { AllByRecursion (λ id. id ≤ 65535) only.now }
    ensures { result ≡ absent_of (Some only.now) components.now }
{
    for id in only {
        if !has_mirror(components, *id) {
            return Some(*id as u16);
        }
    }
    None
}

pub(crate) fn selected_ids(
    alloc: Global,
    components: &[Component],
    only: Option<&Ids>,
) -> Result<Ids, NoMemory>
    ensures chosen { IfOk result (λ ids. ids ≡ selected_of (option_copied only.entry) components.now) }
{
    let mut ids = unsorted_ids(alloc, components, only)?;
    ids.sort()?;
    Ok(Ids::from_vec(ids))
}

/// The ids of the selected components in the order of the layout.
fn unsorted_ids(
    alloc: Global,
    components: &[Component],
    only: Option<&Ids>,
) -> Result<Vec<u32>, NoMemory>
    ensures chosen { IfOk result (λ ids. ids.items ≡ map (λ c. c.id) (filter (is_selected (option_copied only.entry) components.now) components.now)) }
{
    let mut ids = Vec::new(alloc);
    for component in components {
        if is_selected(components, component, only) {
            ids.push(component.id)?;
        }
    }
    Ok(ids)
}

/// Whether a resync copies to the component.
fn is_selected(components: &[Component], component: &Component, only: Option<&Ids>) -> bool
    ensures { result ≡ is_selected (option_copied only.entry) components.now component.now }
{
    let flags = component.flags;
    flags.stale
        && !flags.offline
        && is_asked(component, only)
        && is_sourced(components, component.extent)
}

/// Whether the component is of a mirror that is named, or none is named and it has no `nosync`.
fn is_asked(component: &Component, only: Option<&Ids>) -> bool
    ensures { result ≡ is_asked (option_copied only.entry) component.now }
{
    match only {
        None => !component.flags.nosync,
        Some(only) => is_named(component.mirror, only.as_slice()),
    }
}

fn is_named(mirror: u16, only: &[u32]) -> bool
    ensures { result ≡ list_any (λ id. nat_eq id mirror) only.now }
{
    let mirror = u32::from(mirror);
    only.iter().any(|id| *id == mirror)
}

/// Whether each byte of the range has a source. Goes from the first byte on, each time as far as one
/// source reaches.
fn is_sourced(components: &[Component], range: Range) -> bool
    ensures { result ≡ is_sourced components.now range }
{
    let mut at = range.start;
    while at < range.end {
        let end = reach(components, at);
        if end == at {
            return false;
        }
        at = end;
    }
    true
}

/// The farthest end of the sources of a byte, or the byte where it has none.
fn reach(components: &[Component], byte: u64) -> u64
    ensures least { byte ≤ result }
    ensures sourced { AreSourced components.now byte result }
    ensures stuck { result ≡ byte → has_source components.now byte ≡ false }
{
    let mut end = byte;
    for component in components {
        if is_source(component, byte) {
            end = end.max(component.extent.end);
        }
    }
    end
}

/// Whether the component has the byte, is fresh and isn't offline.
fn is_source(component: &Component, byte: u64) -> bool
    ensures { result ≡ is_source byte component.now }
{
    let Range { start, end } = component.extent;
    start <= byte && byte < end && !component.flags.stale && !component.flags.offline
}
