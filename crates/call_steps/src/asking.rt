//! What a caller may ask before a step that has conditions.

ghost use Rattle.std.specs.Prelude.{◌≡◌, ◌↔◌, nat_lt, IsTrue};
ghost use Rattle.std.specs.List.{list_all};
ghost use Rattle.flr_base.specs.declared.reply.ObjectId.{ObjectId};
ghost use Rattle.composite_layout.specs.declared.component.Component.{Component as AComponent};
ghost use Rattle.call_steps.specs.Servers.{AreThere, CanCall, HoldsNone};

use composite_layout::{Component, Layout};
use extent_lock::ExtentLocks;
use flr_base::Objects;
use object_target::Targets;

/// What the number of a target's next call has to be below.
const ROOM: u32 = 4278190080;

/// Whether each target may be called once more.
pub fn can_call(targets: &Targets) -> bool
    ensures says { IsTrue result ↔ CanCall targets.now }
{
    targets.are_below(ROOM)
}

/// Whether the client holds no extent lock.
pub fn holds_none(client: u8, locks: &ExtentLocks) -> bool
    ensures says { IsTrue result ↔ HoldsNone client locks.now }
{
    locks.held_by(client) == 0
}

/// Whether each object of the layout's components is on a target that is there.
pub fn are_there(targets: &Targets, layout: &Layout) -> bool
    ensures says { IsTrue result ↔ AreThere targets.now layout.now.components }
{
    are_within(layout.components(), targets.len())
}

/// Whether each object of these components is on one of so many targets.
fn are_within(components: &[Component], count: usize) -> bool
    ensures { result ≡ list_all (λ (c : AComponent). list_all (λ (o : ObjectId). nat_lt o.target count) c.objects) components.now }
{
    components
        .iter()
        .all(|component| is_within(&component.objects, count))
}

/// Whether each of these objects is on one of so many targets.
fn is_within(objects: &Objects, count: usize) -> bool
    ensures { result ≡ list_all (λ (o : ObjectId). nat_lt o.target count) objects.now }
{
    objects
        .as_slice()
        .iter()
        .all(|object| usize::from(object.target) < count)
}
