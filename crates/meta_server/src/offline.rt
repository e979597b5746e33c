ghost use Rattle.std.specs.Prelude.{◌≡◌, ◌<◌, ◌≤◌, ℕ, [], None, true, false, IfSome};
ghost use Rattle.std.specs.List.{list_any};
ghost use Rattle.mirror_select.specs.Candidates.{is_candidate};
ghost use Rattle.meta_server.specs.Layouts.{offline_byte};

use composite_layout::Layout;
use flr_base::{EOF, Ids};
use mirror_select::{Choice, choose};
use std::alloc::Global;

/// The lowest byte of the file whose every fresh component is `offline`. Goes from the first byte
/// on, each time as far as the component reaches that answers a byte.
pub(crate) fn offline_byte(alloc: Global, layout: &Layout) -> Option<u64>
    ensures { result ≡ offline_byte layout.now }
{
    let none = Ids::new(alloc);
    let mut at = 0;
    while at < EOF {
        match answered_to(layout, at, &none) {
            Some(end) => at = end.min(EOF),
            None => return Some(at),
        }
    }
    None
}

/// How far the component reaches that answers the byte, if one does.
fn answered_to(layout: &Layout, byte: u64, none: &Ids) -> Option<u64>
    requires empty { none.now ≡ [] }
    ensures farther { IfSome result (λ end. (byte < end)
        × ((x : ℕ) → byte ≤ x → x < end → list_any (is_candidate [] x) layout.now.components ≡ true)) }
    ensures nobody { result ≡ None → list_any (is_candidate [] byte) layout.now.components ≡ false }
{
    match choose(layout, byte, none) {
        Choice::Component(place) => Some(layout.component(place).extent.end),
        Choice::AllOffline => None,
        Choice::AllFailed => None,
    }
}
