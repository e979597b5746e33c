ghost use Rattle.std.specs.Prelude.{◌≡◌, ◌+◌, ◌<◌, ◌≤◌, ◌^◌, length, IfOk, IfErr, OnOk, OnErr};
ghost use Rattle.std.specs.List.{range_with_len};
ghost use Rattle.composite_layout.specs.LookUps.{mirror_ids};
ghost use Rattle.composite_layout.specs.Making.{part_count};
ghost use Rattle.composite_layout.specs.Specs.{IsSpec};
ghost use Rattle.layout_state.specs.Breaking.{unleased};
ghost use Rattle.layout_state.specs.Refusing.{IsRefusal};
ghost use Rattle.layout_state.specs.Mirroring.{IsAdd, added_state, excess};

use crate::error::StateError;
use crate::leases::unleased;
use composite_layout::{Layout, MirrorSpec, Spec, State, new_mirrors};
use flr_base::{Ids, Listed, NoMemory};
use std::alloc::Global;

/// Adds the mirrors of a spec, striped over so many targets (1 to 64), to a file of at most `most`
/// mirrors (1 to 32), and answers their ids in ascending order. They stand at the end; all their
/// components are stale, and none has its objects. Where a copy is under way its lease is broken
/// first.
///
/// It is refused, and nothing changes, where there would be more than `most` mirrors, or else where a
/// component would get a number above 65535. That `lfs mirror extend` adds mirrors, of which a file
/// has a limited number, and that they are stale until a resync, is Lustre's (its design of file
/// level redundancy and its manual page); that numbers end at 65535 is this project's own.
pub fn add_mirrors(
    layout: &mut Layout,
    spec: &Spec,
    targets: u8,
    most: u8,
) -> Result<Ids, StateError>
    requires generation { layout.old.generation + 2 < 2 ^ 32 }
    requires targets { (0 < targets) × (targets ≤ 64) }
    requires most { (0 < most) × (most ≤ 32) }
    ensures added { OnOk result (IsAdd spec.now targets (unleased layout.old) layout.new) }
    ensures ids { IfOk result (λ ids. ids ≡ range_with_len layout.old.next_mirror (length spec.now)) }
    ensures within { OnOk result (excess layout.old (length spec.now) (part_count spec.now) most ≡ None) }
    ensures refused { IfErr result (IsRefusal (excess layout.old (length spec.now) (part_count spec.now) most)) }
    ensures same { OnErr result (layout.new ≡ layout.old) }
{
    let mirrors = spec.mirrors().len() as u32;
    let parts = count_parts(spec.mirrors());
    if let Some(refusal) = excess(layout, mirrors, parts as usize, most) {
        return Err(refusal);
    }
    let alloc = *layout.components.allocator();
    let next_mirror = layout.next_mirror();
    let next_counter = layout.next_counter();
    let (generation, state) = unleased(layout);
    let ids = ids_from(alloc, next_mirror, mirrors)?;
    let mut made = new_mirrors(alloc, spec, targets, true, next_mirror, next_counter)?;
    layout.components.append(&mut made)?;
    layout.generation = generation + 1;
    layout.state = added_state(state);
    layout.next_mirror = next_mirror + mirrors;
    layout.next_counter = next_counter + parts;
    Ok(ids)
}

/// Why so many mirrors, with so many components, can't come to the layout.
pub(crate) fn excess(
    layout: &Layout,
    mirrors: u32,
    components: usize,
    most: u8,
) -> Option<StateError>
    requires { mirrors ≤ 65536 }
    ensures { result ≡ excess layout.now mirrors components most }
{
    let free = 65536 - layout.next_counter;
    if count_mirrors(layout) + mirrors > most as u32 {
        return Some(StateError::TooManyMirrors);
    }
    if components > free as usize {
        return Some(StateError::TooManyComponents);
    }
    None
}

/// How many mirrors there are.
pub(crate) fn count_mirrors(layout: &Layout) -> u32
    ensures count { result ≡ length (mirror_ids layout.now.components) }
    ensures few { result ≤ 65535 }
{
    let _ = &layout.components;
    layout.mirrors() as u32
}

/// So many ids, from the first on.
pub(crate) fn ids_from(alloc: Global, first: u32, count: u32) -> Result<Ids, NoMemory>
    requires { first + count ≤ 65536 }
    ensures { IfOk result (λ ids. ids ≡ range_with_len first count) }
{
    let mut ids = Vec::new(alloc);
    for place in 0..count {
        ids.push(first + place)?;
    }
    Ok(Listed::from_vec(ids))
}

/// How many components the mirrors of a spec have.
pub(crate) fn count_parts(mirrors: &[MirrorSpec]) -> u32
    requires { IsSpec mirrors.now }
    ensures { result ≡ part_count mirrors.now }
{
    let mut count = 0;
    for mirror in mirrors {
        count += mirror.parts.len() as u32;
    }
    count
}

/// The state of a layout to which stale mirrors came.
fn added_state(state: State) -> State
    ensures { result ≡ added_state state }
{
    if state == State::Single {
        State::WritePending
    } else {
        state
    }
}
