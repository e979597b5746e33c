ghost use Rattle.std.specs.Prelude.{◌≡◌, ◌++◌, IfOk, OnOk, find, nat_eq, map, filter};
ghost use Rattle.std.specs.Option.{option_copied};
ghost use Rattle.layout_state.specs.Selecting.{in_order};
ghost use Rattle.resync_copy.specs.Comparing.{compared_in, has_compared, is_compared};
ghost use Rattle.resync_copy.specs.Parts.{destination_with, destinations_in, extent_with, fenced_ids, fenced_in, is_fenced, objects_in, objects_of, objects_with, with_id};

use crate::parts::{CopyObject, Destination, overlaps_any};
use composite_layout::{Component, Layout};
use flr_base::{NoMemory, Range};
use std::alloc::Global;

/// The component with this id.
pub(crate) fn with_id(layout: &Layout, id: u32) -> Option<&Component>
    ensures found { option_copied result ≡ with_id layout.now.components id }
{
    layout
        .components()
        .iter()
        .find(|component| component.id == id)
}

/// The components with these ids, to be copied to.
pub(crate) fn destinations_in(
    alloc: Global,
    layout: &Layout,
    ids: &[u32],
) -> Result<Vec<Destination>, NoMemory>
    ensures { IfOk result (λ found. found.items ≡ destinations_in layout.now.components ids.now) }
{
    let mut destinations = Vec::new(alloc);
    for id in ids {
        destinations.push(Destination {
            component: *id,
            extent: extent_with(layout, *id),
            left: None,
        })?;
    }
    Ok(destinations)
}

/// The bytes of the file that the component with this id has.
fn extent_with(layout: &Layout, id: u32) -> Range
    ensures { result ≡ extent_with layout.now.components id }
{
    match with_id(layout, id) {
        Some(component) => component.extent,
        None => Range { start: 0, end: 0 },
    }
}

/// The objects that a copy to these destinations fences, by component, then by stripe.
pub(crate) fn fenced_in(
    alloc: Global,
    layout: &Layout,
    destinations: &[Destination],
) -> Result<Vec<CopyObject>, NoMemory>
    ensures { IfOk result (λ found. found.items ≡ fenced_in layout.now.components destinations.now) }
{
    let mut ids = fenced_ids(alloc, layout.components(), destinations)?;
    ids.sort()?;
    objects_in(alloc, layout, &ids)
}

/// The ids of the components that a copy to these destinations fences, in the order of the layout.
fn fenced_ids(
    alloc: Global,
    components: &[Component],
    destinations: &[Destination],
) -> Result<Vec<u32>, NoMemory>
    ensures { IfOk result (λ ids. ids.items ≡ map (λ c. c.id) (filter (is_fenced destinations.now) components.now)) }
{
    let mut ids = Vec::new(alloc);
    for component in components {
        if is_fenced(component, destinations) {
            ids.push(component.id)?;
        }
    }
    Ok(ids)
}

/// Whether a copy to these destinations fences the component.
fn is_fenced(component: &Component, destinations: &[Destination]) -> bool
    ensures { result ≡ is_fenced destinations.now component.now }
{
    let flags = component.flags;
    !flags.stale && flags.init && overlaps_any(destinations, component.extent)
}

/// The objects that a merge fences of a file, by component, then by stripe.
pub(crate) fn compared_in(alloc: Global, layout: &Layout) -> Result<Vec<CopyObject>, NoMemory>
    ensures { IfOk result (λ found. found.items ≡ compared_in layout.now.components) }
{
    let mut ids = compared_ids(alloc, layout.components())?;
    ids.sort()?;
    objects_in(alloc, layout, &ids)
}

/// The ids of the components that a merge fences, in the order of the layout.
fn compared_ids(alloc: Global, components: &[Component]) -> Result<Vec<u32>, NoMemory>
    ensures { IfOk result (λ ids. ids.items ≡ map (λ c. c.id) (filter is_compared components.now)) }
{
    let mut ids = Vec::new(alloc);
    for component in components {
        if is_compared(component) {
            ids.push(component.id)?;
        }
    }
    Ok(ids)
}

/// Whether a merge fences the component.
fn is_compared(component: &Component) -> bool
    ensures { result ≡ is_compared component.now }
{
    let flags = component.flags;
    !flags.stale && flags.init
}

/// Whether a merge fences a component of this layout.
pub(crate) fn has_compared(layout: &Layout) -> bool
    ensures { result ≡ has_compared layout.now.components }
{
    layout
        .components()
        .iter()
        .any(|component| is_compared(component))
}

/// The objects of the components with these ids, one component after the other.
pub(crate) fn objects_in(
    alloc: Global,
    layout: &Layout,
    ids: &[u32],
) -> Result<Vec<CopyObject>, NoMemory>
    ensures { IfOk result (λ found. found.items ≡ objects_in layout.now.components ids.now) }
{
    let mut objects = Vec::new(alloc);
    for id in ids {
        put_with(layout, *id, &mut objects)?;
    }
    Ok(objects)
}

/// Adds the objects of the component with this id, if it is there.
fn put_with(layout: &Layout, id: u32, objects: &mut Vec<CopyObject>) -> Result<(), NoMemory>
    ensures { OnOk result (objects.new.items ≡ objects.old.items ++ objects_with layout.now.components id) }
{
    match with_id(layout, id) {
        Some(component) => put_objects(component, objects),
        None => Ok(()),
    }
}

/// Adds the objects of the component.
fn put_objects(component: &Component, objects: &mut Vec<CopyObject>) -> Result<(), NoMemory>
    ensures { OnOk result (objects.new.items ≡ objects.old.items ++ objects_of component.now) }
{
    for object in component.objects.as_slice() {
        objects.push(CopyObject {
            component: component.id,
            extent: component.extent,
            object: *object,
        })?;
    }
    Ok(())
}
