ghost use Rattle.std.specs.Prelude.{◌≡◌, ◌+◌, ◌<◌, ◌≤◌, ◌^◌, ◌&&◌, not, nat_eq, length, filter, is_some, true, None, IfOk, IfErr, IfSome, OnOk, OnErr};
ghost use Rattle.std.specs.List.{list_any};
ghost use Rattle.composite_layout.specs.LookUps.{begins_mirror, mirror_ids, wholly_fresh};
ghost use Rattle.layout_state.specs.declared.error.StateError.TheVariants as errors;
ghost use Rattle.layout_state.specs.Breaking.{unleased};
ghost use Rattle.layout_state.specs.Refusing.{IsRefusal};
ghost use Rattle.layout_state.specs.Mirroring.{IsRemove, Off, keeping, left_state, of_mirror, without};
ghost use Rattle.layout_state.specs.Choosing.{has_fresh};

use crate::error::StateError;
use crate::leases::unleased;
use composite_layout::{Component, Layout, State, has_mirror};
use flr_base::NoMemory;
use std::alloc::Global;

/// Takes a mirror from a file, and answers the layout of a file that is split off with it where the
/// mirror was wholly fresh. Where a copy is under way its lease is broken first. Memory is taken only
/// for a file that is split off.
///
/// It is refused, and nothing changes, where there is no such mirror, or else where no wholly fresh
/// one would be left. That `lfs mirror split` and `lfs mirror delete` take mirrors away, and never
/// the last that is in sync, is Lustre's (its manual pages); that a stale mirror gives no file, and
/// that the part keeps its ids and the old file's counters, is this project's own.
#[tactic(auto, using(crate::proofs::LeaveLaws::keeping_no_memory))]
pub fn remove_mirror(layout: &mut Layout, mirror: u16) -> Result<Option<Layout>, StateError>
    requires generation { layout.old.generation + 2 < 2 ^ 32 }
    ensures removed { OnOk result (IsRemove mirror (unleased layout.old) layout.new) }
    ensures given { IfOk result (λ part. is_some part ≡ wholly_fresh mirror layout.old.components) }
    ensures off { IfOk result (λ part. IfSome part (Off mirror (unleased layout.old))) }
    ensures kept { OnOk result (keeping mirror layout.old.components ≡ None) }
    ensures refused { IfErr result (IsRefusal (keeping mirror layout.old.components)) }
    ensures memory { IfErr result (λ e. e ≡ errors.NoMemory → wholly_fresh mirror layout.old.components ≡ true) }
    ensures same { OnErr result (layout.new ≡ layout.old) }
{
    if let Some(refusal) = keeping(layout, mirror) {
        return Err(refusal);
    }
    let part = part_of(layout, mirror)?;
    take_away(layout, mirror);
    Ok(part)
}

/// Why the mirror can't go.
#[tactic(auto, using(crate::proofs::LeaveLaws::fresh_beside))]
pub(crate) fn keeping(layout: &Layout, mirror: u16) -> Option<StateError>
    ensures { result ≡ keeping mirror layout.now.components }
{
    if !has_mirror(layout.components(), u32::from(mirror)) {
        return Some(StateError::NoMirrorId { id: mirror });
    }
    if has_fresh_beside(layout, mirror) {
        None
    } else {
        Some(StateError::LastFresh { mirror })
    }
}

/// Whether a mirror beside this one is wholly fresh.
fn has_fresh_beside(layout: &Layout, mirror: u16) -> bool
    ensures { result ≡ list_any (λ c. begins_mirror c && (not (nat_eq c.mirror mirror) && wholly_fresh c.mirror layout.now.components)) layout.now.components }
{
    layout.components().iter().any(|component| {
        component.extent.start == 0
            && component.mirror != mirror
            && layout.wholly_fresh(component.mirror)
    })
}

/// The layout of a file that is split off with the mirror, where it is wholly fresh.
fn part_of(layout: &Layout, mirror: u16) -> Result<Option<Layout>, NoMemory>
    requires generation { layout.now.generation + 2 < 2 ^ 32 }
    ensures given { IfOk result (λ part. is_some part ≡ wholly_fresh mirror layout.now.components) }
    ensures off { IfOk result (λ part. IfSome part (Off mirror (unleased layout.now))) }
    ensures memory { OnErr result (wholly_fresh mirror layout.now.components ≡ true) }
{
    if !layout.wholly_fresh(mirror) {
        return Ok(None);
    }
    let (generation, _) = unleased(layout);
    let components = copy_mirror(*layout.components.allocator(), &layout.components, mirror)?;
    Ok(Some(Layout {
        generation: generation + 1,
        state: State::Single,
        next_mirror: layout.next_mirror,
        next_counter: layout.next_counter,
        components,
    }))
}

fn copy_mirror(
    alloc: Global,
    components: &[Component],
    mirror: u16,
) -> Result<Vec<Component>, NoMemory>
    ensures { IfOk result (λ copies. copies.items ≡ of_mirror mirror components.now) }
{
    let mut copies = Vec::new(alloc);
    for component in components {
        if component.mirror == mirror {
            let copy = component.copy()?;
            copies.push(copy)?;
        }
    }
    Ok(copies)
}

/// Takes the mirror away.
fn take_away(layout: &mut Layout, mirror: u16)
    requires generation { layout.old.generation + 2 < 2 ^ 32 }
    requires kept { keeping mirror layout.old.components ≡ None }
    ensures removed { IsRemove mirror (unleased layout.old) layout.new }
{
    let (generation, state) = unleased(layout);
    retain_others(&mut layout.components, mirror);
    layout.state = left_state(count_first(&layout.components), state);
    layout.generation = generation + 1;
}

fn retain_others(components: &mut Vec<Component>, mirror: u16)
    ensures { components.new.items ≡ without mirror components.old.items }
{
    components.retain(|component| component.mirror != mirror);
}

/// How many components begin a mirror.
fn count_first(components: &[Component]) -> usize
    ensures { result ≡ length (filter begins_mirror components.now) }
{
    components
        .iter()
        .filter(|component| component.extent.start == 0)
        .count()
}

/// The state of a file that so many mirrors are left.
fn left_state(mirrors: usize, state: State) -> State
    ensures { result ≡ left_state mirrors state }
{
    if mirrors == 1 { State::Single } else { state }
}
