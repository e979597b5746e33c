ghost use Rattle.std.specs.Prelude.{◌≡◌, ◌+◌, ◌<◌, ◌≤◌, ◌++◌, length, IfOk, OnOk};
ghost use Rattle.composite_layout.specs.Making.{stripes_of, new_component, new_parts, new_mirrors, part_count, new_state};

use crate::component::{Component, Flags, State};
use crate::layout::Layout;
use crate::spec::{Part, Spec};
use flr_base::{Listed, NoMemory, Range, Stripe};
use std::alloc::Global;

/// What the components of a new mirror have in common.
#[derive(Clone, Copy)]
struct NewMirror {
    id: u16,
    stale: bool,
    prefer: bool,
    targets: u8,
}

impl Layout {
    ghost use Rattle.std.specs.Prelude.{◌≡◌, ◌<◌, ◌≤◌, IfOk};
    ghost use Rattle.composite_layout.specs.Making.{new_layout};

    /// The layout of a new file on so many targets, 1 to 64: no component has its objects yet, and
    /// none is stale. A count of -1, or above the number of targets, becomes that number.
    pub fn make(alloc: Global, spec: &Spec, targets: u8) -> Result<Layout, NoMemory>
        requires { (0 < targets) × (targets ≤ 64) }
        ensures made { IfOk result (λ layout. layout ≡ new_layout spec.now targets) }
    {
        let mirrors = spec.mirrors().len() as u32;
        let components = new_mirrors(alloc, spec, targets, false, 1, 1)?;
        let count = components.as_slice().len() as u32;
        Ok(Layout {
            generation: 1,
            state: new_state(mirrors),
            next_mirror: mirrors + 1,
            next_counter: count + 1,
            components,
        })
    }
}

/// The state of a new file with so many mirrors.
fn new_state(mirrors: u32) -> State
    ensures { result ≡ new_state mirrors }
{
    if mirrors == 1 {
        State::Single
    } else {
        State::ReadOnly
    }
}

/// The components of new mirrors, whose ids go from `first` on, and whose numbers go from `counter`
/// on. None has its objects.
pub fn new_mirrors(
    alloc: Global,
    spec: &Spec,
    targets: u8,
    stale: bool,
    first: u32,
    counter: u32,
) -> Result<Vec<Component>, NoMemory>
    requires targets { (0 < targets) × (targets ≤ 64) }
    requires ids { first + length spec.now ≤ 65536 }
    requires counters { counter + part_count spec.now ≤ 65536 }
    ensures made { IfOk result (λ made. made.items ≡ new_mirrors stale targets first counter spec.now) }
{
    let mut made = Vec::new(alloc);
    let mut counter = counter;
    for (index, mirror) in spec.mirrors().iter().enumerate() {
        let of = NewMirror {
            id: (first + index as u32) as u16,
            stale,
            prefer: mirror.prefer,
            targets,
        };
        push_parts(alloc, &mut made, of, counter, mirror.parts.as_slice())?;
        counter += mirror.parts.len() as u32;
    }
    Ok(made)
}

/// Appends the components of one new mirror.
fn push_parts(
    alloc: Global,
    made: &mut Vec<Component>,
    of: NewMirror,
    counter: u32,
    parts: &[Part],
) -> Result<(), NoMemory>
    requires targets { (0 < of.targets) × (of.targets ≤ 64) }
    requires counters { counter + length parts.now ≤ 65536 }
    ensures pushed { OnOk result (made.new.items ≡ made.old.items ++ new_parts of.stale of.targets of.id of.prefer counter 0 parts.now) }
{
    let mut start = 0;
    for (index, part) in parts.iter().enumerate() {
        let component = new_component(alloc, of, counter + index as u32, start, *part);
        made.push(component)?;
        start = part.end;
    }
    Ok(())
}

fn new_component(alloc: Global, of: NewMirror, counter: u32, start: u64, part: Part) -> Component
    requires { counter < 65536 }
    ensures { result ≡ new_component of.stale of.targets of.id of.prefer counter start part }
{
    Component {
        id: of.id as u32 * 65536 + counter,
        mirror: of.id,
        flags: Flags {
            init: false,
            stale: of.stale,
            prefer: of.prefer,
            offline: false,
            nosync: false,
        },
        extent: Range {
            start,
            end: part.end,
        },
        stripe: Stripe {
            size: part.size,
            count: stripes(of.targets, part.count),
        },
        objects: Listed::new(alloc),
    }
}

fn stripes(targets: u8, count: i32) -> u32
    ensures { result ≡ stripes_of targets count }
{
    if count < 0 {
        targets as u32
    } else {
        (count as u32).min(targets as u32)
    }
}
