ghost use Rattle.std.specs.Prelude.{◌≡◌, ◌<◌, ℕ, true, find, IfSome};
ghost use Rattle.std.specs.List.{list_any, list_all};
ghost use Rattle.composite_layout.specs.Layouts.{eof};
ghost use Rattle.composite_layout.specs.LookUps.{mirror_ids, wholly_fresh};
ghost use Rattle.composite_layout.specs.Choices.{is_ready, is_ready_mirror};
ghost use Rattle.layout_state.specs.Choosing.{all_preferred, has_offline, is_candidate, is_over, is_preferred, IsOnlyFresh, IsPrimary, primary_of};

use composite_layout::{Component, Layout, wholly_fresh};
use flr_base::Range;

/// The mirror that takes the writes of a range of bytes: among the wholly fresh mirrors none of whose
/// components over the range is `offline`, the lowest of those whose components over the range all
/// have `prefer`, else the lowest. That writes go to one primary mirror, and that `prefer` and
/// `offline` guide the choice, is Lustre's File Level Redundancy design; the exact order is this
/// project's own.
pub fn primary(layout: &Layout, range: Range) -> Option<u16>
    ensures says { result ≡ primary_of range layout.now.components }
    ensures least { IsPrimary range layout.now.components result }
    ensures fresh { IfSome result (λ mirror. wholly_fresh mirror layout.now.components ≡ true) }
{
    let components = layout.components();
    first_preferred(components, range).or_else(|| first_candidate(components, range))
}

pub(crate) fn first_preferred(components: &[Component], range: Range) -> Option<u16>
    ensures { result ≡ find (is_preferred range components.now) (mirror_ids components.now) }
{
    for component in components {
        let mirror = component.mirror;
        if component.extent.start == 0 && is_preferred(components, range, mirror) {
            return Some(mirror);
        }
    }
    None
}

pub(crate) fn first_candidate(components: &[Component], range: Range) -> Option<u16>
    ensures { result ≡ find (is_candidate range components.now) (mirror_ids components.now) }
{
    for component in components {
        let mirror = component.mirror;
        if component.extent.start == 0 && is_candidate(components, range, mirror) {
            return Some(mirror);
        }
    }
    None
}

/// Whether the mirror is a candidate, and all its components over the range are preferred.
fn is_preferred(components: &[Component], range: Range, mirror: u16) -> bool
    ensures { result ≡ is_preferred range components.now mirror }
{
    is_candidate(components, range, mirror) && all_preferred(components, range, mirror)
}

/// Whether the mirror is wholly fresh, and none of its components over the range is offline.
fn is_candidate(components: &[Component], range: Range, mirror: u16) -> bool
    ensures { result ≡ is_candidate range components.now mirror }
{
    wholly_fresh(components, mirror) && !has_offline(components, range, mirror)
}

fn has_offline(components: &[Component], range: Range, mirror: u16) -> bool
    ensures { result ≡ has_offline range components.now mirror }
{
    components.iter().any(|component| is_over(component, range, mirror) && component.flags.offline)
}

fn all_preferred(components: &[Component], range: Range, mirror: u16) -> bool
    ensures { result ≡ all_preferred range components.now mirror }
{
    components.iter().all(|component| !is_over(component, range, mirror) || component.flags.prefer)
}

/// Whether the component is of this mirror and has bytes of the range.
pub(crate) fn is_over(component: &Component, range: Range, mirror: u16) -> bool
    ensures { result ≡ is_over range mirror component.now }
{
    component.mirror == mirror && component.overlaps(range)
}

/// Whether a write of the range may go to a mirror as the layout stands: its state is `0` or `wp`,
/// and there is a mirror whose components over the range are all fresh, have their objects and
/// aren't `offline`, while every component of another mirror over the range is stale.
pub fn ready(layout: &Layout, range: Range) -> bool
    ensures says { result ≡ is_ready layout.now range }
    ensures only_fresh { range.start < range.end → range.start < eof
        → (mirror : ℕ) → is_ready_mirror range layout.now.components mirror ≡ true
        → IsOnlyFresh layout.now.components mirror }
{
    layout.is_ready(range)
}
