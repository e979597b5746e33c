//! The clients of a world.

ghost use Rattle.std.specs.Prelude.{◌≡◌, replicate, IfOk};
ghost use Rattle.flr_world.specs.Worlds.{new_member};

use client_step::Caller;
use flr_base::NoMemory;
use std::alloc::Global;

/// A client, and the place in the list of calls of its call that hasn't ended, if it has one there.
#[derive(Drop)]
pub(crate) struct Member {
    pub caller: Caller,
    pub pending: usize,
}

/// So many clients, none of which has made a step.
pub(crate) fn new_members(alloc: Global, count: u8) -> Result<Vec<Member>, NoMemory>
    ensures { IfOk result (λ members. members.items ≡ replicate count new_member) }
{
    let mut members = Vec::with_capacity(alloc, usize::from(count))?;
    for _k in 0..count {
        members.push(Member {
            caller: Caller::new(),
            pending: 0,
        })?;
    }
    Ok(members)
}
