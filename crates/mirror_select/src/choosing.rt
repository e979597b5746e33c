ghost use Rattle.std.specs.Prelude.{◌≡◌, ◌<◌, length, position};
ghost use Rattle.std.specs.Option.{ForSome};
ghost use Rattle.mirror_select.specs.Candidates.{Chooses, all_offline, choice_of, comes_first, has_byte, is_better, is_candidate, is_least, is_usable};

use crate::types::Choice;
use composite_layout::{Component, Layout};
use flr_base::Ids;

/// The component that answers a byte of a read: of the components that have the byte, are fresh,
/// aren't `offline` and aren't among the failed ones, the one with the lowest id of those with
/// `prefer`, else the one with the lowest id. Lustre reads from any mirror that isn't stale and
/// favours those with `prefer`; that the lowest id comes first is our own rule. It takes no memory.
pub fn choose(layout: &Layout, byte: u64, failed: &Ids) -> Choice
    ensures choice { result ≡ choice_of layout.now.components failed.now byte }
    ensures cases { Chooses layout.now.components failed.now byte result }
{
    let components = layout.components();
    match least(components, byte, failed.as_slice()) {
        Some(index) => Choice::Component(index),
        None if are_all_offline(components, byte) => Choice::AllOffline,
        None => Choice::AllFailed,
    }
}

/// The place of the candidate that comes first.
pub(crate) fn least(components: &[Component], byte: u64, failed: &[u32]) -> Option<usize>
    ensures { result ≡ position (is_least components.now failed.now byte) components.now }
{
    let mut best = None;
    for (index, component) in components.iter().enumerate() {
        if is_candidate(component, byte, failed) && is_better(components, component, best) {
            best = Some(index);
        }
    }
    best
}

/// Whether the component comes before the best one so far.
fn is_better(components: &[Component], component: &Component, best: Option<usize>) -> bool
    requires { ForSome best (λ place. place < length components.now) }
    ensures { result ≡ is_better components.now best component.now }
{
    match best {
        Some(place) => !comes_first(&components[place], component),
        None => true,
    }
}

/// Whether the component comes before the other, or is it.
pub(crate) fn comes_first(component: &Component, other: &Component) -> bool
    ensures { result ≡ comes_first component.now other.now }
{
    if component.flags.prefer == other.flags.prefer {
        component.id <= other.id
    } else {
        component.flags.prefer
    }
}

/// Whether the component may answer the byte.
fn is_candidate(component: &Component, byte: u64, failed: &[u32]) -> bool
    ensures { result ≡ is_candidate failed.now byte component.now }
{
    has_byte(component, byte) && is_usable(component, failed)
}

/// Whether the component may answer reads: it is fresh, isn't `offline` and hasn't failed.
pub(crate) fn is_usable(component: &Component, failed: &[u32]) -> bool
    ensures { result ≡ is_usable failed.now component.now }
{
    !component.flags.stale && !component.flags.offline && !failed.contains(&component.id)
}

fn has_byte(component: &Component, byte: u64) -> bool
    ensures { result ≡ has_byte byte component.now }
{
    component.extent.start <= byte && byte < component.extent.end
}

/// Whether each fresh component over the byte is `offline`.
pub(crate) fn are_all_offline(components: &[Component], byte: u64) -> bool
    ensures { result ≡ all_offline components.now byte }
{
    components.iter().all(|component| {
        component.flags.stale || component.flags.offline || !has_byte(component, byte)
    })
}
