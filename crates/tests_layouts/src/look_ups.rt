use crate::asked::{REST, WHOLE};
use crate::files::{NONE, add, stepped};
use composite_layout::{
    Component, Flags, Layout, Part, State, has_mirror, ready_mirror, wholly_fresh,
};
use flr_base::{EOF, NoMemory, ObjectId, Objects, Range, Stripe};
use layout_state::StateError;
use std::alloc::Global;

const MIB: u64 = 1048576;

/// A mirror of three components, and one of one.
const MIRRORS: &[&[Part]] = &[
    &[
        Part {
            end: 4 * MIB,
            ..REST
        },
        Part {
            end: 64 * MIB,
            ..REST
        },
        REST,
    ],
    WHOLE,
];

/// What is found in a new file.
fn are_found(alloc: Global) -> Result<bool, StateError> {
    let (made, _) = stepped(alloc, MIRRORS, 8, &[])?;
    let layout = made.copy()?;
    if layout.len() != 4 || layout.mirrors() != 2 {
        return Ok(false);
    }
    let last = layout.component(3);
    let range = Range { start: 0, end: 1 };
    let components = layout.components();
    let places = [
        layout.covering(1, 4194303),
        layout.covering(1, 4194304),
        layout.covering(2, 0),
        layout.covering(1, EOF),
        layout.by_id(131076),
    ];
    let said = [
        layout.wholly_fresh(2),
        wholly_fresh(components, 3),
        has_mirror(components, 2),
        layout.is_empty(),
        layout.is_ready(range),
        last.overlaps(range),
        last.is_open_to(1),
        State::WritePending.takes_writes(),
        last.copy()? == *last,
    ];
    Ok(
        (last.id, layout.mirror_at(1)) == (131076, 2)
            && ready_mirror(components, range) == None
            && places == [Some(0), Some(1), Some(3), None, Some(3)]
            && said == [true, false, true, false, false, true, false, true, true],
    )
}

#[test]
fn layouts_are_looked_up(rt: HostRuntime) {
    assert!(rt; are_found(rt.alloc()) == Ok(true));
}

/// A file of one mirror, written, whose next component would get this number.
fn used_up_to(alloc: Global) -> Result<Layout, NoMemory> {
    let mut objects = Objects::new(alloc);
    objects.push(ObjectId {
        target: 0,
        number: 1,
    })?;
    let mut components = Vec::new(alloc);
    components.push(Component {
        id: 65537,
        mirror: 1,
        flags: Flags { init: true, ..NONE },
        extent: Range {
            start: 0,
            end: 18446744073709551615,
        },
        stripe: Stripe {
            size: 1048576,
            count: 1,
        },
        objects,
    })?;
    Ok(Layout::of(2, State::Single, 2, 65535, components))
}

/// Whether a mirror comes, and then none more.
fn are_used_up(alloc: Global) -> Result<bool, StateError> {
    let mut layout = used_up_to(alloc)?;
    let answers = [add(alloc, &mut layout, 16), add(alloc, &mut layout, 16)];
    let place = layout.by_id(196607);
    Ok(
        answers == [Ok(2), Err(StateError::TooManyComponents)]
            && place == Some(1)
            && (layout.next_mirror(), layout.next_counter()) == (3, 65536),
    )
}

#[test]
fn numbers_of_components_are_used_up(rt: HostRuntime) {
    assert!(rt; are_used_up(rt.alloc()) == Ok(true));
}
