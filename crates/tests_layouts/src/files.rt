//! Files whose layouts are changed step by step.

ghost use Rattle.std.specs.Prelude.{◌+◌, ◌<◌, ◌^◌, IsTrue};

use crate::asked::{WHOLE, spec_of};
use composite_layout::{FlagChange, Flags, Layout, Part};
use flr_base::{Ids, NoMemory, Range};
use layout_state::{
    ObjectMaker, StateError, add_mirrors, begin, break_lease, done, intent, merge, remove_mirror,
    set_flags,
};
use std::alloc::Global;

/// No flag.
pub const NONE: Flags = Flags {
    init: false,
    stale: false,
    prefer: false,
    offline: false,
    nosync: false,
};

pub const OFFLINE: Flags = Flags {
    offline: true,
    ..NONE
};

/// What is done to file 1.
#[derive(Clone, Copy)]
pub enum Step {
    /// A write of the bytes from the first up to the second.
    Write(u64, u64),
    /// A copy to these components begins.
    Begin(&'static [u32]),
    /// The copy is broken.
    Break,
    /// The copy to these components is done.
    Done(&'static [u32]),
    /// The component becomes `offline`.
    Offline(u32),
    /// A default mirror comes to a file that may have so many.
    Add(u8),
    /// The mirror goes, and where it is a file of its own then, that is taken in again.
    Remove(u16),
}

/// A list of these ids.
pub fn ids_of(alloc: Global, ids: &[u32]) -> Result<Ids, NoMemory> {
    Ok(Ids::from_vec(Vec::from_slice(alloc, ids)?))
}

/// A new file of mirrors of these parts on 1 to 64 targets, after these steps, with the answer of the
/// last one.
pub fn stepped(
    alloc: Global,
    mirrors: &[&[Part]],
    targets: u8,
    steps: &[Step],
) -> Result<(Layout, Result<u32, StateError>), StateError> {
    if targets < 1 || targets > 64 {
        return Err(StateError::NoMemory);
    }
    let Ok(spec) = spec_of(alloc, mirrors, 32) else {
        return Err(StateError::NoMemory);
    };
    let mut layout = Layout::make(alloc, &spec, targets)?;
    let mut maker = ObjectMaker::new(alloc, targets)?;
    let mut answer = Ok(0);
    for step in steps {
        answer = make(alloc, &mut layout, &mut maker, *step);
    }
    Ok((layout, answer))
}

/// Makes the step, and answers a write's mirror, the id of the first new mirror, or 0.
fn make(
    alloc: Global,
    layout: &mut Layout,
    maker: &mut ObjectMaker,
    step: Step,
) -> Result<u32, StateError> {
    if !is_young(layout) || !maker.has_room() {
        return Err(StateError::NoMemory);
    }
    match step {
        Step::Write(start, end) => {
            let mirror = intent(layout, Range { start, end }, 1, maker)?;
            return Ok(u32::from(mirror));
        }
        Step::Begin(ids) => begin(layout, &ids_of(alloc, ids)?, 1, maker)?,
        Step::Break => break_lease(layout),
        Step::Done(ids) => done(layout, &ids_of(alloc, ids)?),
        Step::Offline(id) => {
            let offline = FlagChange {
                set: OFFLINE,
                clear: NONE,
            };
            set_flags(layout, id, offline)?;
        }
        Step::Add(most) => return add(alloc, layout, most),
        Step::Remove(mirror) => return take_in_again(layout, mirror),
    }
    Ok(0)
}

/// Adds a default mirror.
pub fn add(alloc: Global, layout: &mut Layout, most: u8) -> Result<u32, StateError> {
    if !is_young(layout) || most < 1 || most > 32 {
        return Err(StateError::NoMemory);
    }
    let Ok(spec) = spec_of(alloc, &[WHOLE], 32) else {
        return Err(StateError::NoMemory);
    };
    let ids = add_mirrors(layout, &spec, 1, most)?;
    only_one(&ids)
}

fn take_in_again(layout: &mut Layout, mirror: u16) -> Result<u32, StateError> {
    if !is_young(layout) {
        return Err(StateError::NoMemory);
    }
    let Some(part) = remove_mirror(layout, mirror)? else {
        return Ok(0);
    };
    if !is_young(layout) || !is_young(&part) {
        return Err(StateError::NoMemory);
    }
    match merge(layout, part, 16) {
        Ok(ids) => only_one(&ids),
        Err((refusal, _part)) => Err(refusal),
    }
}

/// The one id of a list.
fn only_one(ids: &Ids) -> Result<u32, StateError> {
    match ids.as_slice() {
        [id] => Ok(*id),
        _ => Err(StateError::NoMemory),
    }
}

/// Whether the layout was changed so seldom that it may be changed again.
fn is_young(layout: &Layout) -> bool
    ensures { IsTrue result → layout.now.generation + 2 < 2 ^ 32 }
{
    layout.generation() < 1000
}
