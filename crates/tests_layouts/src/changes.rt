use crate::asked::{REST, WHOLE};
use crate::files::{NONE, OFFLINE, Step, stepped};
use composite_layout::{Flags, Layout, Part, State};
use flr_base::{EOF, ObjectId, Range};
use layout_state::StateError;
use std::alloc::Global;

const INIT: Flags = Flags { init: true, ..NONE };

const STALE: Flags = Flags {
    stale: true,
    ..NONE
};

const INIT_STALE: Flags = Flags {
    stale: true,
    ..INIT
};

/// What a layout has beside its components, and how many of these there are: generation, state, the
/// next mirror, the next number.
type Head = (u32, State, u32, u32, usize);

/// A component: its id, its flags and its objects.
type Row = (u32, Flags, &'static [ObjectId]);

/// A new file of mirrors of these parts on so many targets, the steps that are made on it, the answer
/// of the last step, and what the layout and its first components are then.
struct Case {
    mirrors: &'static [&'static [Part]],
    targets: u8,
    steps: &'static [Step],
    answer: Result<u32, StateError>,
    head: Head,
    rows: &'static [Row],
}

/// The first component with its first object.
const FIRST: Row = (
    65537,
    INIT,
    &[ObjectId {
        target: 0,
        number: 1,
    }],
);

const SECOND: u32 = 131074;

const TWO: &[&[Part]] = &[WHOLE, WHOLE];

const MIB: u64 = 1048576;

const CASES: &[Case] = &[
    // A write leaves the second mirror behind.
    Case {
        mirrors: TWO,
        targets: 2,
        steps: &[Step::Write(0, 3)],
        answer: Ok(1),
        head: (2, State::WritePending, 3, 3, 2),
        rows: &[FIRST, (SECOND, STALE, &[])],
    },
    // A resync that is done.
    Case {
        mirrors: TWO,
        targets: 2,
        steps: &[
            Step::Write(0, 3),
            Step::Begin(&[SECOND]),
            Step::Done(&[SECOND]),
        ],
        answer: Ok(0),
        head: (4, State::ReadOnly, 3, 3, 2),
        rows: &[
            FIRST,
            (
                SECOND,
                INIT,
                &[ObjectId {
                    target: 1,
                    number: 1,
                }],
            ),
        ],
    },
    // A write breaks a resync.
    Case {
        mirrors: TWO,
        targets: 2,
        steps: &[Step::Write(0, 3), Step::Begin(&[SECOND]), Step::Write(1, 2)],
        answer: Ok(1),
        head: (5, State::WritePending, 3, 3, 2),
        rows: &[
            FIRST,
            (
                SECOND,
                INIT_STALE,
                &[ObjectId {
                    target: 1,
                    number: 1,
                }],
            ),
        ],
    },
    // The last fresh mirror stays.
    Case {
        mirrors: TWO,
        targets: 2,
        steps: &[Step::Write(0, 3), Step::Remove(1)],
        answer: Err(StateError::LastFresh { mirror: 1 }),
        head: (2, State::WritePending, 3, 3, 2),
        rows: &[FIRST, (SECOND, STALE, &[])],
    },
    // A fresh mirror that goes is a file of its own, and comes again as the third.
    Case {
        mirrors: TWO,
        targets: 2,
        steps: &[Step::Remove(1)],
        answer: Ok(3),
        head: (3, State::ReadOnly, 4, 4, 2),
        rows: &[(SECOND, NONE, &[]), (196611, NONE, &[])],
    },
    // As many mirrors as there may be.
    Case {
        mirrors: &[WHOLE; 16],
        targets: 1,
        steps: &[Step::Add(16)],
        answer: Err(StateError::TooManyMirrors),
        head: (1, State::ReadOnly, 17, 17, 16),
        rows: &[(65537, NONE, &[])],
    },
    // A mirror comes, and a copy to it is broken.
    Case {
        mirrors: &[WHOLE],
        targets: 1,
        steps: &[
            Step::Write(0, 3),
            Step::Add(16),
            Step::Begin(&[SECOND]),
            Step::Break,
        ],
        answer: Ok(0),
        head: (5, State::WritePending, 3, 3, 2),
        rows: &[
            FIRST,
            (
                SECOND,
                INIT_STALE,
                &[ObjectId {
                    target: 0,
                    number: 2,
                }],
            ),
        ],
    },
    // No mirror takes a write.
    Case {
        mirrors: &[WHOLE],
        targets: 1,
        steps: &[Step::Offline(65537), Step::Write(0, 1)],
        answer: Err(StateError::NoPrimary {
            range: Range { start: 0, end: 1 },
        }),
        head: (2, State::Single, 2, 2, 1),
        rows: &[(65537, OFFLINE, &[])],
    },
    // Objects go round eight targets.
    Case {
        mirrors: &[
            &[
                Part {
                    end: 4 * MIB,
                    count: 1,
                    ..REST
                },
                Part {
                    end: 64 * MIB,
                    count: 4,
                    ..REST
                },
                Part { count: -1, ..REST },
            ],
            &[Part { count: 2, ..REST }],
        ],
        targets: 8,
        steps: &[
            Step::Write(0, MIB),
            Step::Write(4194303, 4194305),
            Step::Begin(&[131076]),
            Step::Done(&[131076]),
        ],
        answer: Ok(0),
        head: (5, State::ReadOnly, 3, 5, 4),
        rows: &[
            (
                65537,
                INIT,
                &[ObjectId {
                    target: 2,
                    number: 1,
                }],
            ),
            (
                65538,
                INIT,
                &[
                    ObjectId {
                        target: 3,
                        number: 1,
                    },
                    ObjectId {
                        target: 4,
                        number: 1,
                    },
                    ObjectId {
                        target: 5,
                        number: 1,
                    },
                    ObjectId {
                        target: 6,
                        number: 1,
                    },
                ],
            ),
            (65539, NONE, &[]),
            (
                131076,
                INIT,
                &[
                    ObjectId {
                        target: 5,
                        number: 2,
                    },
                    ObjectId {
                        target: 6,
                        number: 2,
                    },
                ],
            ),
        ],
    },
];

/// Whether this is what the layout shows.
fn shows(layout: &Layout, head: Head, rows: &[Row]) -> bool {
    let found = (
        layout.generation(),
        layout.state(),
        layout.next_mirror(),
        layout.next_counter(),
        layout.len(),
    );
    if found != head {
        return false;
    }
    for (component, (id, flags, objects)) in layout.components().iter().zip(rows) {
        if component.id != *id
            || component.flags != *flags
            || component.objects.as_slice() != *objects
        {
            return false;
        }
    }
    true
}

/// Whether each file is then as it is to be.
fn are_right(alloc: Global) -> Result<bool, StateError> {
    for case in CASES {
        let (layout, answer) = stepped(alloc, case.mirrors, case.targets, case.steps)?;
        if answer != case.answer || !shows(&layout, case.head, case.rows) {
            return Ok(false);
        }
    }
    Ok(true)
}

#[test]
fn files_are_changed_step_by_step(rt: HostRuntime) {
    assert!(rt; are_right(rt.alloc()) == Ok(true));
}
