ghost use Rattle.std.specs.Prelude.{◌≡◌, ◌<◌, ◌^◌, ◌++◌, true, length, map, position, IfOk, OnOk, Some};
ghost use Rattle.std.specs.Option.{ForSome};
ghost use Rattle.flr_base.specs.Stripes.{IsStripe};
ghost use Rattle.stripe_map.specs.Places.{tail_of};
ghost use Rattle.composite_layout.specs.Choices.{is_ready};
ghost use Rattle.composite_layout.specs.Layouts.{IsShaped, eof};
ghost use Rattle.mirror_select.specs.Tails.{ends_above, has_lower_id, is_better_id, is_lowest, is_next, stripes_in, tail_in, tails_of};

use crate::types::{Tail, Tails};
use composite_layout::{Component, Layout, ready_mirror};
use flr_base::{EOF, NoMemory, Range, Stripe};
use std::alloc::Global;

/// The tails of a file that is cut at a byte, where the layout is ready for a write of all bytes
/// from there on: of the one mirror that may take it, one for each object of each component that
/// ends above the byte, in ascending order of the component's id, then of the stripe. A tail has
/// just those bytes of its object that lie at the byte or behind it in the file.
pub fn tails(alloc: Global, layout: &Layout, from: u64) -> Result<Tails, NoMemory>
    requires ready { is_ready layout.now (record { start = from; end = eof }) ≡ true }
    requires below { from < 2 ^ 40 }
    ensures tails { IfOk result (λ tails. tails ≡ tails_of layout.now from) }
{
    let components = layout.components();
    let whole = Range {
        start: from,
        end: EOF,
    };
    let Some(mirror) = ready_mirror(components, whole) else {
        unreachable!()
    };
    let mut tails = Tails::new(alloc);
    let mut id = 0;
    while let Some(index) = next_component(components, mirror, from, id) {
        let component = &components[index];
        push_tails(&mut tails, component, from)?;
        id = u64::from(component.id) + 1;
    }
    Ok(tails)
}

/// The place of the mirror's component that ends above the byte and has the lowest id from this one
/// on.
fn next_component(components: &[Component], mirror: u16, from: u64, id: u64) -> Option<usize>
    ensures { result ≡ position (is_lowest components.now (Some mirror) from id) components.now }
{
    let mut best = None;
    for (index, component) in components.iter().enumerate() {
        if is_next(component, mirror, from, id) && has_better_id(components, component, best) {
            best = Some(index);
        }
    }
    best
}

/// Whether the component is of the mirror, ends above the byte, and its id is at least this one.
fn is_next(component: &Component, mirror: u16, from: u64, id: u64) -> bool
    ensures { result ≡ is_next (Some mirror) from id component.now }
{
    id <= u64::from(component.id) && component.mirror == mirror && from < component.extent.end
}

/// Whether the component's id is lower than that of the best one so far.
fn has_better_id(components: &[Component], component: &Component, best: Option<usize>) -> bool
    requires { ForSome best (λ place. place < length components.now) }
    ensures { result ≡ is_better_id components.now best component.now }
{
    match best {
        Some(place) => component.id < components[place].id,
        None => true,
    }
}

/// Appends a component's tails.
fn push_tails(tails: &mut Tails, component: &Component, from: u64) -> Result<(), NoMemory>
    requires shaped { IsShaped component.now }
    requires below { from < 2 ^ 40 }
    ensures pushed { OnOk result (tails.new ≡ tails.old ++ map (tail_in from) (stripes_in component.now)) }
{
    for (index, object) in component.objects.as_slice().iter().enumerate() {
        tails.push(Tail {
            component: component.id,
            object: *object,
            offset: tail_offset(from, component.stripe, index as u32),
        })?;
    }
    Ok(())
}

/// The offset in a stripe's object at which its bytes from this byte of the file on begin.
fn tail_offset(from: u64, stripe: Stripe, index: u32) -> u64
    requires striped { IsStripe stripe }
    requires below { from < 2 ^ 40 }
    ensures { result ≡ tail_of from stripe index }
{
    let count = u64::from(stripe.count);
    let row = from / (stripe.size * count);
    let here = from / stripe.size % count;
    let index = u64::from(index);
    if index < here {
        (row + 1) * stripe.size
    } else if index == here {
        row * stripe.size + from % stripe.size
    } else {
        row * stripe.size
    }
}
