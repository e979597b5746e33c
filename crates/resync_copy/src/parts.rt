ghost use Rattle.std.specs.Prelude.{◌≡◌, ◌<◌, ◌≤◌, length, true, vec_capacity};
ghost use Rattle.resync_copy.specs.Parts.{all_left, cleared_of, is_open, left_at, left_if, left_over, left_with, lefts_of, overlap, overlaps_any, overlaps_kept};

use flr_base::{FailedCall, Left, ObjectId, Range};

/// An object of a component, by the component's id, with the bytes of the file that the component
/// has.
#[derive(Clone, Copy)]
pub struct CopyObject {
    pub component: u32,
    pub extent: Range,
    pub object: ObjectId,
}

/// A component that is copied to, by its id, with the bytes of the file that it has, and the failed
/// call for which it was left, if it was.
#[derive(Clone, Copy)]
pub struct Destination {
    pub component: u32,
    pub extent: Range,
    pub left: Option<FailedCall>,
}

/// Whether two ranges have a byte in common.
pub(crate) fn overlap(a: Range, b: Range) -> bool
    ensures { result ≡ overlap a b }
{
    a.start < b.end && b.start < a.end
}

/// Whether these bytes overlap one of the destinations.
pub(crate) fn overlaps_any(destinations: &[Destination], range: Range) -> bool
    ensures { result ≡ overlaps_any destinations.now range }
{
    destinations
        .iter()
        .any(|destination| overlap(destination.extent, range))
}

/// Whether these bytes overlap a destination that isn't left.
pub(crate) fn overlaps_kept(destinations: &[Destination], range: Range) -> bool
    ensures { result ≡ overlaps_kept destinations.now range }
{
    destinations.iter().any(|destination| destination.left.is_none()
        && overlap(destination.extent, range))
}

/// Whether the component with this id is one that isn't left.
pub(crate) fn is_open(destinations: &[Destination], id: u32) -> bool
    ensures { result ≡ is_open destinations.now id }
{
    destinations.iter().any(|destination| destination.component == id && destination.left.is_none())
}

/// Whether every destination is left.
pub(crate) fn all_left(destinations: &[Destination]) -> bool
    ensures { result ≡ all_left destinations.now }
{
    destinations
        .iter()
        .all(|destination| destination.left.is_some())
}

/// The destination, left for this call if that is asked and it wasn't left before.
fn left_if(asked: bool, call: FailedCall, destination: Destination) -> Destination
    ensures { result ≡ left_if asked call destination }
{
    let mut destination = destination;
    if asked && destination.left.is_none() {
        destination.left = Some(call);
    }
    destination
}

/// Leaves the destinations that overlap these bytes for this call.
pub(crate) fn leave_over(destinations: &mut [Destination], range: Range, call: FailedCall)
    ensures left { destinations.new ≡ left_over range call destinations.old }
{
    for destination in destinations.iter_mut() {
        *destination = left_if(overlap(destination.extent, range), call, *destination);
    }
}

/// Leaves the component with this id for this call.
pub(crate) fn leave_with(destinations: &mut [Destination], id: u32, call: FailedCall)
    ensures left { destinations.new ≡ left_with id call destinations.old }
{
    for destination in destinations.iter_mut() {
        *destination = left_if(destination.component == id, call, *destination);
    }
}

/// Leaves the destination at this place for this call.
pub(crate) fn leave_at(destinations: &mut [Destination], place: usize, call: FailedCall)
    requires { place < length destinations.old }
    ensures left { destinations.new ≡ left_at place call destinations.old }
{
    destinations[place] = left_if(true, call, destinations[place]);
}

/// Lists the ids of the destinations that aren't left, for which there is room.
pub(crate) fn put_cleared(ids: &mut Vec<u32>, destinations: &[Destination])
    requires room { length destinations.now ≤ vec_capacity ids.old }
    ensures cleared { ids.new.items ≡ cleared_of destinations.now }
{
    ids.clear();
    for destination in destinations {
        if destination.left.is_none() {
            let _pushed = ids.push(destination.component);
        }
    }
}

/// Lists the components that are left, each with its call, for which there is room.
pub(crate) fn put_lefts(lefts: &mut Vec<Left>, destinations: &[Destination])
    requires room { length destinations.now ≤ vec_capacity lefts.old }
    ensures lefts { lefts.new.items ≡ lefts_of destinations.now }
{
    lefts.clear();
    for destination in destinations {
        if let Some(call) = destination.left {
            let component = destination.component;
            let _pushed = lefts.push(Left { component, call });
        }
    }
}
