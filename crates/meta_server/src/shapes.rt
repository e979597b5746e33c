//! Changes of a layout that aren't refused, as functions of it.

ghost use Rattle.std.specs.Prelude.{◌≡◌, ◌<◌, ◌≤◌, ◌+◌, ◌^◌, None, Some, length, is_some, IfOk, IfSome, OnErr, OnOk};
ghost use Rattle.std.specs.List.{AllByRecursion};
ghost use Rattle.composite_layout.specs.LookUps.{mirror_ids, wholly_fresh};
ghost use Rattle.composite_layout.specs.Making.{part_count};
ghost use Rattle.layout_state.specs.Mirroring.{excess, keeping};
ghost use Rattle.layout_state.specs.Refusing.{IsRefusal};
ghost use Rattle.layout_state.specs.Selecting.{absent_of, selected_of};
ghost use Rattle.meta_server.specs.Layouts.{extended, lessened, merged, merged_ids, new_ids, split_off};

use composite_layout::{Layout, Spec};
use flr_base::{Ids, NoMemory};
use layout_state::{StateError, add_mirrors, merge, remove_mirror, selected};
use std::alloc::Global;

/// A mirror goes, and a wholly fresh one stays. Answers the layout of a file that is split off with
/// the mirror, if that was wholly fresh.
pub(crate) fn lessen(layout: &mut Layout, mirror: u16) -> Result<Option<Layout>, NoMemory>
    requires generation { layout.old.generation + 2 < 2 ^ 32 }
    requires kept { keeping mirror layout.old.components ≡ None }
    ensures lessened { OnOk result (layout.new ≡ lessened mirror layout.old) }
    ensures given { IfOk result (λ part. is_some part ≡ wholly_fresh mirror layout.old.components) }
    ensures part { IfOk result (λ part. IfSome part (λ l. l ≡ split_off mirror layout.old)) }
    ensures unchanged { OnErr result (layout.new ≡ layout.old) }
{
    match remove_mirror(layout, mirror) {
        Ok(part) => Ok(part),
        Err(error) => Err(memory_error(error)),
    }
}

/// Mirrors come, for which there is room. Answers their ids.
pub(crate) fn extend(
    layout: &mut Layout,
    spec: &Spec,
    targets: u8,
    most: u8,
) -> Result<Ids, NoMemory>
    requires generation { layout.old.generation + 2 < 2 ^ 32 }
    requires targets { (0 < targets) × (targets ≤ 64) }
    requires most { (0 < most) × (most ≤ 32) }
    requires within { excess layout.old (length spec.now) (part_count spec.now) most ≡ None }
    ensures extended { OnOk result (layout.new ≡ extended spec.now targets layout.old) }
    ensures ids { IfOk result (λ ids. ids ≡ new_ids spec.now layout.old) }
    ensures small { IfOk result (AllByRecursion (λ id. id ≤ 65535)) }
    ensures there { IfOk result (λ ids. absent_of (Some ids) layout.new.components ≡ None) }
    ensures unchanged { OnErr result (layout.new ≡ layout.old) }
{
    match add_mirrors(layout, spec, targets, most) {
        Ok(ids) => {
            let _good = spec.mirrors();
            let _valid = layout.components();
            Ok(ids)
        }
        Err(error) => Err(memory_error(error)),
    }
}

/// The mirrors of another file come, for which there is room. Answers their new ids.
pub(crate) fn take_in(layout: &mut Layout, victim: Layout, most: u8) -> Result<Ids, NoMemory>
    requires generation { layout.old.generation + 2 < 2 ^ 32 }
    requires victim { victim.generation + 2 < 2 ^ 32 }
    requires most { (0 < most) × (most ≤ 32) }
    requires within { excess layout.old (length (mirror_ids victim.components)) (length victim.components) most ≡ None }
    ensures merged { OnOk result (layout.new ≡ merged victim layout.old) }
    ensures ids { IfOk result (λ ids. ids ≡ merged_ids victim layout.old) }
    ensures unchanged { OnErr result (layout.new ≡ layout.old) }
{
    match merge(layout, victim, most) {
        Ok(ids) => Ok(ids),
        Err((error, _)) => Err(memory_error(error)),
    }
}

/// The ids of the components to which a copy to these mirrors goes. There are all of them.
pub(crate) fn select(alloc: Global, layout: &Layout, mirrors: &Ids) -> Result<Ids, NoMemory>
    requires small { AllByRecursion (λ id. id ≤ 65535) mirrors.now }
    requires there { absent_of (Some mirrors.now) layout.now.components ≡ None }
    ensures selected { IfOk result (λ ids. ids ≡ selected_of (Some mirrors.now) layout.now.components) }
{
    match selected(alloc, layout, Some(mirrors)) {
        Ok(ids) => Ok(ids),
        Err(error) => Err(memory_error(error)),
    }
}

/// What stops a change for which no refusal is called: want of memory, and nothing else.
fn memory_error(error: StateError) -> NoMemory
    requires { IsRefusal None error }
{
    match error {
        StateError::NoMemory => NoMemory,
        _ => unreachable!(),
    }
}
