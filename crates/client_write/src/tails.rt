//! Who is in the way of the locks of a truncate whose tails can't be listed. It takes no memory.

ghost use Rattle.std.specs.Prelude.{◌≡◌, ◌<◌, ◌^◌, true, List, All, Some, map, length, option_map, position};
ghost use Rattle.std.specs.Option.{ForSome};
ghost use Rattle.flr_base.specs.Stripes.{IsStripe};
ghost use Rattle.stripe_map.specs.Places.{tail_of};
ghost use Rattle.composite_layout.specs.Choices.{is_ready};
ghost use Rattle.composite_layout.specs.Layouts.{IsShaped, eof};
ghost use Rattle.mirror_select.specs.Tails.{is_better_id, is_lowest, is_next, stripes_in, tail_in, tails_of};
ghost use Rattle.call_steps.specs.Servers.{HoldsNone};
ghost use Rattle.client_write.specs.Truncates.{first_blocker, tail_lock};
ghost use Rattle.client_write.specs.OwnLocks.{HoldsOwn};

use composite_layout::{Component, Layout, ready_mirror};
use extent_lock::{ExtentLocks, LockError, Mode};
use flr_base::{EOF, Range, Stripe};

/// Who is in the way of the first lock of a tail that somebody is in the way of, of a file that is cut at
/// a byte, where the layout is ready for a write of all bytes from there on. The locks stay as they were.
pub(crate) fn in_the_way(
    client: u8,
    layout: &Layout,
    from: u64,
    locks: &mut ExtentLocks,
) -> Option<u8>
    requires none { HoldsNone client locks.old }
    requires ready { is_ready layout.now (record { start = from; end = eof }) ≡ true }
    requires below { from < 2 ^ 40 }
    ensures first { result ≡ option_map (λ told. told.0) (first_blocker (map (tail_lock client) (tails_of layout.now from)) locks.old) }
    ensures unchanged { locks.new ≡ locks.old }
{
    let found = first_in_the_way(client, layout, from, locks);
    locks.unlock(client);
    found
}

/// Who that is. Locks of the client that nobody is in the way of may be granted.
fn first_in_the_way(client: u8, layout: &Layout, from: u64, locks: &mut ExtentLocks) -> Option<u8>
    requires ready { is_ready layout.now (record { start = from; end = eof }) ≡ true }
    requires below { from < 2 ^ 40 }
    ensures first { result ≡ option_map (λ told. told.0) (first_blocker (map (tail_lock client) (tails_of layout.now from)) locks.old) }
    ensures own { HoldsOwn client locks.old locks.new }
{
    let components = layout.components();
    let whole = Range {
        start: from,
        end: EOF,
    };
    let Some(mirror) = ready_mirror(components, whole) else {
        unreachable!()
    };
    let mut id = 0;
    while let Some(index) = next_component(components, mirror, from, id) {
        let component = &components[index];
        if let Some(holder) = in_the_way_in(client, component, from, locks) {
            return Some(holder);
        }
        id = u64::from(component.id) + 1;
    }
    None
}

/// The same of the tails of a component.
fn in_the_way_in(
    client: u8,
    component: &Component,
    from: u64,
    locks: &mut ExtentLocks,
) -> Option<u8>
    requires shaped { IsShaped component.now }
    requires below { from < 2 ^ 40 }
    ensures first { result ≡ option_map (λ told. told.0) (first_blocker (map (tail_lock client) (map (tail_in from) (stripes_in component.now))) locks.old) }
    ensures own { HoldsOwn client locks.old locks.new }
{
    for (index, object) in component.objects.as_slice().iter().enumerate() {
        let range = Range {
            start: tail_offset(from, component.stripe, index as u32),
            end: EOF,
        };
        match locks.try_lock(client, *object, range, Mode::PW) {
            Ok(()) => {}
            Err(LockError::NoMemory) => {}
            Err(LockError::Blocked { holder, range: _ }) => return Some(holder),
        }
    }
    None
}

/// The place of the mirror's component that ends above the byte and has the lowest id from this one
/// on.
fn next_component(components: &[Component], mirror: u16, from: u64, id: u64) -> Option<usize>
    ensures { result ≡ position (is_lowest components.now (Some mirror) from id) components.now }
{
    let mut best = None;
    for (index, component) in components.iter().enumerate() {
        if is_next(component, mirror, from, id) && has_better_id(components, component, best) {
            best = Some(index);
        }
    }
    best
}

/// Whether the component is of the mirror, ends above the byte, and its id is at least this one.
fn is_next(component: &Component, mirror: u16, from: u64, id: u64) -> bool
    ensures { result ≡ is_next (Some mirror) from id component.now }
{
    id <= u64::from(component.id) && component.mirror == mirror && from < component.extent.end
}

/// Whether the component's id is lower than that of the best one so far.
fn has_better_id(components: &[Component], component: &Component, best: Option<usize>) -> bool
    requires { ForSome best (λ place. place < length components.now) }
    ensures { result ≡ is_better_id components.now best component.now }
{
    match best {
        Some(place) => component.id < components[place].id,
        None => true,
    }
}

/// The offset in a stripe's object at which its bytes from this byte of the file on begin.
fn tail_offset(from: u64, stripe: Stripe, index: u32) -> u64
    requires striped { IsStripe stripe }
    requires below { from < 2 ^ 40 }
    ensures { result ≡ tail_of from stripe index }
{
    let count = u64::from(stripe.count);
    let row = from / (stripe.size * count);
    let here = from / stripe.size % count;
    let index = u64::from(index);
    if index < here {
        (row + 1) * stripe.size
    } else if index == here {
        row * stripe.size + from % stripe.size
    } else {
        row * stripe.size
    }
}
