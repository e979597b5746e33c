ghost use Rattle.std.specs.Prelude.{◌≡◌, ℕ, ◌+◌, ◌-◌, ◌<◌, ◌≤◌, ◌^◌, true, length, map, slice_index, Some, IfOk, IfErr, OnOk, OnErr};
ghost use Rattle.std.specs.List.{AllByRecursion};
ghost use Rattle.composite_layout.specs.Layouts.{IsShaped};
ghost use Rattle.composite_layout.specs.LookUps.{wholly_fresh};
ghost use Rattle.layout_state.specs.Choosing.{is_over, primary_of};
ghost use Rattle.layout_state.specs.Making.{AreNext, new_objects, new_targets, nexts_after};
ghost use Rattle.layout_state.specs.Marking.{IsIntent, intent_refusal, stale_if_behind};
ghost use Rattle.layout_state.specs.Refusing.{IsRefusal};

use crate::choices::{is_over, primary};
use crate::error::StateError;
use crate::leases::pending_state;
use crate::maker::ObjectMaker;
use crate::marks::unlease;
use crate::objects::{Made, make_next, put_in};
use composite_layout::{Component, Layout};
use flr_base::{NoMemory, Range};
use std::alloc::Global;

/// Readies a layout for a write of the range, and says to which mirror the bytes go: the primary.
/// Over the range each of its components without objects gets new ones, made for this file as
/// `begin` makes them, and each component of another mirror becomes stale. The state is write
/// pending, or single with one mirror. A copy that is under way is broken first.
///
/// `NoPrimary` comes exactly where the range has no primary.
///
/// That the components of other mirrors become stale where they overlap a write, before its first
/// byte, is Lustre's File Level Redundancy design.
pub fn intent(
    layout: &mut Layout,
    range: Range,
    file: u32,
    maker: &mut ObjectMaker,
) -> Result<u16, StateError>
    requires generation { layout.old.generation + 2 < 2 ^ 32 }
    requires numbers { (target : ℕ) → slice_index maker.old target < 2 ^ 32 - 8388608 }
    ensures intended { IfOk result (λ mirror. IsIntent range mirror file maker.old layout.old layout.new maker.new) }
    ensures primary { IfOk result (λ mirror. primary_of range layout.old.components ≡ Some mirror) }
    ensures refused { IfErr result (IsRefusal (intent_refusal range layout.old.components)) }
    ensures unchanged { OnErr result (layout.new ≡ layout.old) }
    ensures unused { OnErr result (maker.new ≡ maker.old) }
{
    match primary(layout, range) {
        None => Err(StateError::NoPrimary { range }),
        Some(mirror) => {
            ready_mirror(layout, range, mirror, file, maker)?;
            Ok(mirror)
        }
    }
}

/// Readies a layout for a write of the range to this mirror.
fn ready_mirror(
    layout: &mut Layout,
    range: Range,
    mirror: u16,
    file: u32,
    maker: &mut ObjectMaker,
) -> Result<(), NoMemory>
    requires generation { layout.old.generation + 2 < 2 ^ 32 }
    requires numbers { (target : ℕ) → slice_index maker.old target < 2 ^ 32 - 8388608 }
    requires fresh { wholly_fresh mirror layout.old.components ≡ true }
    ensures intended { OnOk result (IsIntent range mirror file maker.old layout.old layout.new maker.new) }
    ensures unchanged { OnErr result (layout.new ≡ layout.old) }
    ensures unused { OnErr result (maker.new ≡ maker.old) }
{
    let alloc = *layout.components.allocator();
    let mut next = maker.numbers()?;
    let made = make_over(alloc, layout.components(), range, mirror, file, &mut next)?;
    let state = pending_state(layout.mirrors());
    unlease(layout);
    put_in(&mut layout.components, made);
    mark_behind(&mut layout.components, range, mirror);
    layout.generation += 1;
    layout.state = state;
    maker.next = next;
    Ok(())
}

/// Makes the objects of the mirror's components over the range that have none.
fn make_over(
    alloc: Global,
    components: &[Component],
    range: Range,
    mirror: u16,
    file: u32,
    next: &mut Vec<u32>,
) -> Result<Made, NoMemory>
    requires next { AreNext next.old.items }
    requires room { (target : ℕ) → slice_index next.old.items target < 2 ^ 32 - 8388608 }
    requires few { length components.now ≤ 65536 }
    requires shaped { AllByRecursion IsShaped components.now }
    ensures made { IfOk result (λ made. made.items ≡ new_objects (is_over range mirror) file next.old.items components.now) }
    ensures past { OnOk result (next.new.items
        ≡ nexts_after next.old.items (new_targets (is_over range mirror) (length next.old.items) file components.now)) }
{
    let mut made = Made::new(alloc);
    for component in components {
        let wanted = is_over(component, range, mirror);
        make_next(alloc, &mut made, next, file, component, wanted)?;
    }
    Ok(made)
}

/// Over the range the components of other mirrors become stale.
fn mark_behind(components: &mut Vec<Component>, range: Range, mirror: u16)
    ensures { components.new.items ≡ map (stale_if_behind range mirror) components.old.items }
{
    for component in components.iter_mut() {
        mark_if_behind(component, range, mirror);
    }
}

fn mark_if_behind(component: &mut Component, range: Range, mirror: u16)
    ensures { component.new ≡ stale_if_behind range mirror component.old }
{
    if component.mirror != mirror && component.overlaps(range) {
        component.flags.stale = true;
    }
}
