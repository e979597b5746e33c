ghost use Rattle.std.specs.Prelude.{◌≡◌, ◌<◌, ◌≤◌, length};
ghost use Rattle.composite_layout.specs.LookUps.{mirror_ids};
ghost use Rattle.composite_layout.specs.Making.{part_count};
ghost use Rattle.layout_state.specs.Marking.{flags_refusal};
ghost use Rattle.layout_state.specs.Mirroring.{excess, keeping};

use crate::add::{count_mirrors, count_parts, excess};
use crate::error::StateError;
use crate::marks::flags_refusal;
use crate::remove::keeping;
use composite_layout::{FlagChange, Layout, Spec};

/// Why the mirrors of a spec can't be added to a file of at most `most` mirrors (1 to 32), as
/// `add_mirrors` tells it. It takes no memory.
pub fn add_refusal(layout: &Layout, spec: &Spec, most: u8) -> Option<StateError>
    ensures says { result ≡ excess layout.now (length spec.now) (part_count spec.now) most }
{
    let mirrors = spec.mirrors();
    excess(
        layout,
        mirrors.len() as u32,
        count_parts(mirrors) as usize,
        most,
    )
}

/// Why a file of at most `most` mirrors (1 to 32) can't take in another, as `merge` tells it. It
/// takes no memory.
pub fn merge_refusal(layout: &Layout, victim: &Layout, most: u8) -> Option<StateError>
    ensures says { result ≡ excess layout.now (length (mirror_ids victim.now.components)) (length victim.now.components) most }
{
    excess(layout, count_mirrors(victim), victim.len(), most)
}

/// Why a mirror can't be taken from a file, as `remove_mirror` tells it. It takes no memory.
pub fn remove_refusal(layout: &Layout, mirror: u16) -> Option<StateError>
    ensures says { result ≡ keeping mirror layout.now.components }
{
    keeping(layout, mirror)
}

/// Why the flags of a component can't be changed, as `set_flags` tells it. It takes no memory.
pub fn set_refusal(layout: &Layout, id: u32, change: FlagChange) -> Option<StateError>
    ensures says { result ≡ flags_refusal id change layout.now.components }
{
    flags_refusal(layout.components(), id, change)
}
