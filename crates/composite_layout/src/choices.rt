ghost use Rattle.std.specs.Prelude.{◌≡◌, is_some};
ghost use Rattle.std.specs.List.{find, list_any};
ghost use Rattle.composite_layout.specs.Choices.{is_ready_mirror};
ghost use Rattle.composite_layout.specs.LookUps.{mirror_ids};

use crate::component::Component;
use flr_base::Range;

/// The first mirror, in the order of the components, that may take a write of these bytes: its own
/// components over the range are fresh, have their objects and aren't `offline`, and those of the
/// other mirrors are stale.
#[tactic(auto, using(crate::proofs::Steps::some_found))]
pub fn ready_mirror(components: &[Component], range: Range) -> Option<u16>
    ensures first { result ≡ find (is_ready_mirror range components.now) (mirror_ids components.now) }
    ensures there { is_some result ≡ list_any (is_ready_mirror range components.now) (mirror_ids components.now) }
{
    find_ready_mirror(components, range)
}

fn find_ready_mirror(components: &[Component], range: Range) -> Option<u16>
    ensures { result ≡ find (is_ready_mirror range components.now) (mirror_ids components.now) }
{
    for component in components {
        if component.extent.start == 0 && is_ready_mirror(components, range, component.mirror) {
            return Some(component.mirror);
        }
    }
    None
}

/// Whether the mirror may take a write of these bytes.
fn is_ready_mirror(components: &[Component], range: Range, mirror: u16) -> bool
    ensures { result ≡ is_ready_mirror range components.now mirror }
{
    components.iter().all(|component| !component.overlaps(range) || component.is_open_to(mirror))
}
