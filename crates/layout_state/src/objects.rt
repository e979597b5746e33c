ghost use Rattle.std.specs.Prelude.{◌≡◌, ℕ, ◌+◌, ◌-◌, ◌<◌, ◌≤◌, ◌^◌, ◌&&◌, not, [], ◌∷◌, ◌++◌, length, slice_index, IfOk, OnOk, OnErr};
ghost use Rattle.std.specs.List.{AllByRecursion};
ghost use Rattle.composite_layout.specs.Layouts.{IsShaped};
ghost use Rattle.layout_state.specs.Making.{all_with_made, AreNext, made_for, new_objects, new_targets, next_after, nexts_after, nexts_for, objects_on, targets_of, with_made};
ghost use Rattle.layout_state.specs.Marking.{is_named, IsBegin};

use crate::maker::ObjectMaker;
use crate::marks::is_named;
use composite_layout::{Component, Layout, State};
use flr_base::{Ids, NoMemory, ObjectId, Objects};
use std::alloc::Global;
use std::collections::VecDeque;

/// Begins a copy to the components with these ids: each of them without objects gets new ones, made
/// for this file, and the state is sync pending. An id that isn't there changes nothing.
///
/// Stripe `i` of the component with number `q` of file `n` is made on target `(n + q + i) mod T`, of
/// `T` targets, and gets the next number of that target. Objects are made in the order of the
/// layout's components, then of stripes. That order is this project's own.
///
/// The cost is that of looking for each component's id among the ids.
pub fn begin(
    layout: &mut Layout,
    ids: &Ids,
    file: u32,
    maker: &mut ObjectMaker,
) -> Result<(), NoMemory>
    requires generation { layout.old.generation + 2 < 2 ^ 32 }
    requires numbers { (target : ℕ) → slice_index maker.old target < 2 ^ 32 - 8388608 }
    ensures begun { OnOk result (IsBegin ids.now file maker.old layout.old layout.new maker.new) }
    ensures unchanged { OnErr result (layout.new ≡ layout.old) }
    ensures unused { OnErr result (maker.new ≡ maker.old) }
{
    let alloc = *layout.components.allocator();
    let mut next = maker.numbers()?;
    let made = make_named(alloc, layout.components(), ids.as_slice(), file, &mut next)?;
    put_in(&mut layout.components, made);
    layout.generation += 1;
    layout.state = State::SyncPending;
    maker.next = next;
    Ok(())
}

/// Makes the objects of the components with these ids that have none.
fn make_named(
    alloc: Global,
    components: &[Component],
    ids: &[u32],
    file: u32,
    next: &mut Vec<u32>,
) -> Result<Made, NoMemory>
    requires next { AreNext next.old.items }
    requires room { (target : ℕ) → slice_index next.old.items target < 2 ^ 32 - 8388608 }
    requires few { length components.now ≤ 65536 }
    requires shaped { AllByRecursion IsShaped components.now }
    ensures made { IfOk result (λ made. made.items ≡ new_objects (is_named ids.now) file next.old.items components.now) }
    ensures past { OnOk result (next.new.items
        ≡ nexts_after next.old.items (new_targets (is_named ids.now) (length next.old.items) file components.now)) }
{
    let mut made = Made::new(alloc);
    for component in components {
        let wanted = is_named(component.id, ids);
        make_next(alloc, &mut made, next, file, component, wanted)?;
    }
    Ok(made)
}

/// What was made for components, one after the other: the objects of each that gets some.
pub(crate) type Made = VecDeque<Option<Objects>>;

/// Puts what was made into the components, in their order.
pub(crate) fn put_in(components: &mut Vec<Component>, made: Made)
    ensures { components.new.items ≡ all_with_made components.old.items made.items }
{
    let mut made = made;
    for component in components.iter_mut() {
        match made.pop_front() {
            Some(objects) => put(component, objects),
            None => {}
        }
    }
}

fn put(component: &mut Component, made: Option<Objects>)
    ensures { component.new ≡ with_made component.old made }
{
    if let Some(objects) = made {
        component.flags.init = true;
        component.objects = objects;
    }
}

/// Makes the objects of a component, unless it has some or isn't wanted, and puts them last.
pub(crate) fn make_next(
    alloc: Global,
    made: &mut Made,
    next: &mut Vec<u32>,
    file: u32,
    component: &Component,
    wanted: bool,
) -> Result<(), NoMemory>
    requires targets { (0 < length next.old.items) × (length next.old.items ≤ 64) }
    requires room { (target : ℕ) → slice_index next.old.items target < 2 ^ 32 - 64 }
    requires stripes { component.now.stripe.count ≤ 64 }
    ensures made { let gets = wanted && not component.now.flags.init in
        OnOk result (made.new.items ≡ made.old.items ++ made_for gets file next.old.items component.now ∷ []) }
    ensures past { let gets = wanted && not component.now.flags.init in
        OnOk result (next.new.items ≡ nexts_for gets file next.old.items component.now) }
{
    let objects = if wanted && !component.flags.init {
        Some(make_objects(alloc, next, file, component)?)
    } else {
        None
    };
    made.push_back(objects)?;
    Ok(())
}

/// Makes one object for each stripe of the component.
fn make_objects(
    alloc: Global,
    next: &mut Vec<u32>,
    file: u32,
    component: &Component,
) -> Result<Objects, NoMemory>
    requires targets { (0 < length next.old.items) × (length next.old.items ≤ 64) }
    requires room { (target : ℕ) → slice_index next.old.items target < 2 ^ 32 - 64 }
    requires stripes { component.now.stripe.count ≤ 64 }
    ensures made { IfOk result (λ objects. objects ≡ objects_on next.old.items (targets_of (length next.old.items) file component.now)) }
    ensures past { OnOk result (next.new.items ≡ nexts_after next.old.items (targets_of (length next.old.items) file component.now)) }
{
    let first = file as u64 + (component.id % 65536) as u64;
    let targets = next.len() as u64;
    let mut objects = Objects::new(alloc);
    for stripe in 0..component.stripe.count {
        let target = (first + stripe as u64) % targets;
        let number = next_number(next, target as usize);
        objects.push(ObjectId {
            target: target as u8,
            number,
        })?;
    }
    Ok(objects)
}

/// The target's next number, which is used with that.
fn next_number(next: &mut Vec<u32>, target: usize) -> u32
    requires there { target < length next.old.items }
    requires room { slice_index next.old.items target + 1 < 2 ^ 32 }
    ensures same { result ≡ slice_index next.old.items target }
    ensures past { next.new.items ≡ next_after next.old.items target }
{
    let number = next[target];
    next[target] = number + 1;
    number
}
