ghost use Rattle.std.specs.Prelude.{◌≡◌, ◌+◌, ◌<◌, ◌≤◌, ◌^◌, ◌++◌, length, filter, vec_len, vec_capacity, None, IfOk, IfErr, OnOk, OnErr};
ghost use Rattle.std.specs.List.{range_with_len};
ghost use Rattle.composite_layout.specs.LookUps.{begins_mirror, mirror_ids};
ghost use Rattle.layout_state.specs.Refusing.{IsRefusal};
ghost use Rattle.layout_state.specs.Mirroring.{Merge, excess, id_at, renamed, run_on};

use crate::add::{count_mirrors, excess, ids_from};
use crate::error::StateError;
use composite_layout::{Component, Layout, State};
use flr_base::Ids;

/// Takes the mirrors of another file, which holds the same bytes, into a file of at most `most`
/// mirrors (1 to 32), and answers their new ids in ascending order. The mirrors keep their flags,
/// extents, stripes and objects; their ids and the numbers of their components go on from this
/// file's. The state is read-only, and the generation is one above the greater of the two.
///
/// It is refused where there would be more than `most` mirrors, or else where a component would get a
/// number above 65535. The victim is then handed back, and nothing changes. That `lfs mirror extend`
/// takes in a victim's mirrors is Lustre's (its manual page); that their components get new numbers
/// and the generation is this project's own.
pub fn merge(layout: &mut Layout, victim: Layout, most: u8) -> Result<Ids, (StateError, Layout)>
    requires generation { layout.old.generation + 2 < 2 ^ 32 }
    requires victim { victim.generation + 2 < 2 ^ 32 }
    requires most { (0 < most) × (most ≤ 32) }
    ensures merged { OnOk result (Merge layout.old victim layout.new) }
    ensures ids { IfOk result (λ ids. ids ≡ range_with_len layout.old.next_mirror (length (mirror_ids victim.components))) }
    ensures within { OnOk result (excess layout.old (length (mirror_ids victim.components)) (length victim.components) most ≡ None) }
    ensures refused { IfErr result (λ e. IsRefusal (excess layout.old (length (mirror_ids victim.components)) (length victim.components) most) e.0) }
    ensures handed_back { IfErr result (λ e. e.1 ≡ victim) }
    ensures same { OnErr result (layout.new ≡ layout.old) }
{
    let mirrors = count_mirrors(&victim);
    let components = victim.len();
    if let Some(refusal) = excess(layout, mirrors, components, most) {
        return Err((refusal, victim));
    }
    let alloc = *layout.components.allocator();
    let next_mirror = layout.next_mirror;
    let next_counter = layout.next_counter;
    let Ok(ids) = ids_from(alloc, next_mirror, mirrors) else {
        return Err((StateError::NoMemory, victim));
    };
    let Ok(()) = layout.components.reserve(components) else {
        return Err((StateError::NoMemory, victim));
    };
    let Layout {
        generation,
        components: mut taken,
        ..
    } = victim;
    renumber_all(&mut taken, (next_mirror - 1) as u16, next_counter);
    append_reserved(&mut layout.components, taken);
    layout.generation = layout.generation.max(generation) + 1;
    layout.state = State::ReadOnly;
    layout.next_mirror = next_mirror + mirrors;
    layout.next_counter = next_counter + components as u32;
    Ok(ids)
}

/// Gives all the components numbers from `counter` on, and mirror ids that go on from the one before.
fn renumber_all(components: &mut Vec<Component>, before: u16, counter: u32)
    requires ids { before + length (filter begins_mirror components.old.items) < 65536 }
    requires counters { counter + length components.old.items ≤ 65536 }
    ensures { components.new.items ≡ run_on before counter components.old.items }
{
    renumber(components.as_mut_slice(), before, counter);
}

/// Gives the components numbers from `counter` on, and mirror ids that go on from the one before.
#[tactic(auto, using(crate::proofs::TakenLaws::run_on_more))]
fn renumber(components: &mut [Component], before: u16, counter: u32)
    requires ids { before + length (filter begins_mirror components.old) < 65536 }
    requires counters { counter + length components.old ≤ 65536 }
    ensures { components.new ≡ run_on before counter components.old }
{
    let mut mirror = before;
    let mut counter = counter;
    for component in components.iter_mut() {
        if component.extent.start == 0 {
            mirror += 1;
        }
        component.mirror = mirror;
        component.id = mirror as u32 * 65536 + counter;
        counter += 1;
    }
}

/// Appends components for which there is room.
fn append_reserved(components: &mut Vec<Component>, taken: Vec<Component>)
    requires room { vec_len components.old + length taken.items ≤ vec_capacity components.old }
    ensures { components.new.items ≡ components.old.items ++ taken.items }
{
    let mut taken = taken;
    let _ = components.append(&mut taken);
}
