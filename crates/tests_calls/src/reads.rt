//! Reads, of holes and with targets that fail.

use crate::site::{Case, is_as_told};
use crate::steps::Line;
use crate::told::Told;
use flr_base::{FailedCall, ObjectId, Range, Take, TakeFrom};
use object_target::{Fail as Failing, FailKind};
use std::test::*;

const CASES: &[Case] = &[
    // A file with bytes.
    Case {
        targets: 1,
        fails: &[],
        commands: (
            &[
                Line::Lfs(&[b"lfs", b"setstripe", b"/a"]),
                Line::Write(b"/a", 0, &[(0x61, 1), (0x62, 1), (0x63, 1)]),
                Line::Read(b"/a", 0, 3),
            ],
            &[],
        ),
        schedule: &[(1, 11)],
        calls: &[
            (1, 2, (2, 5, 6), Told::Written),
            (
                1,
                3,
                (7, 10, 11),
                Told::Bytes(
                    &[(0x61, 1), (0x62, 1), (0x63, 1)],
                    &[Take {
                        range: Range { start: 0, end: 3 },
                        component: 65537,
                        from: TakeFrom::Object {
                            object: ObjectId {
                                target: 0,
                                number: 1,
                            },
                            call: 2,
                        },
                    }],
                ),
            ),
        ],
        layout: b"layout generation 2 state 0 next 2 2 components 1
component 65537 mirror 1 flags init extent 0 EOF size 1048576 count 1 objects 0.1
",
    },
    // A file without.
    Case {
        targets: 1,
        fails: &[],
        commands: (
            &[
                Line::Lfs(&[b"lfs", b"setstripe", b"/a"]),
                Line::Read(b"/a", 0, 5),
            ],
            &[],
        ),
        schedule: &[(1, 4)],
        calls: &[(
            1,
            2,
            (2, 3, 4),
            Told::Bytes(
                &[],
                &[Take {
                    range: Range { start: 0, end: 5 },
                    component: 65537,
                    from: TakeFrom::Hole,
                }],
            ),
        )],
        layout: b"",
    },
    // A target fails, and the other mirror answers.
    Case {
        targets: 2,
        fails: &[Failing {
            target: 0,
            call: 4,
            kind: FailKind::Refused,
        }],
        commands: (
            &[
                Line::Lfs(&[b"lfs", b"mirror", b"create", b"-N2", b"/a"]),
                Line::Write(b"/a", 0, &[(0x61, 1), (0x62, 1), (0x63, 1)]),
                Line::Lfs(&[b"lfs", b"mirror", b"resync", b"/a"]),
                Line::Read(b"/a", 0, 3),
            ],
            &[],
        ),
        schedule: &[(1, 21)],
        calls: &[(
            1,
            4,
            (14, 20, 21),
            Told::Bytes(
                &[(0x61, 1), (0x62, 1), (0x63, 1)],
                &[Take {
                    range: Range { start: 0, end: 3 },
                    component: 131074,
                    from: TakeFrom::Object {
                        object: ObjectId {
                            target: 1,
                            number: 1,
                        },
                        call: 3,
                    },
                }],
            ),
        )],
        layout: b"",
    },
    // Both targets fail.
    Case {
        targets: 2,
        fails: &[
            Failing {
                target: 0,
                call: 4,
                kind: FailKind::Refused,
            },
            Failing {
                target: 1,
                call: 3,
                kind: FailKind::Lost,
            },
        ],
        commands: (
            &[
                Line::Lfs(&[b"lfs", b"mirror", b"create", b"-N2", b"/a"]),
                Line::Write(b"/a", 0, &[(0x61, 1), (0x62, 1), (0x63, 1)]),
                Line::Lfs(&[b"lfs", b"mirror", b"resync", b"/a"]),
                Line::Read(b"/a", 0, 3),
            ],
            &[],
        ),
        schedule: &[(1, 20)],
        calls: &[(
            1,
            4,
            (14, 20, 20),
            Told::Fault(
                0,
                &[
                    FailedCall { target: 0, call: 4 },
                    FailedCall { target: 1, call: 3 },
                ],
            ),
        )],
        layout: b"",
    },
];

#[test]
fn reads_go_on_with_another_mirror(rt: HostRuntime) -> Result<(), Fail> {
    for case in CASES {
        assert!(rt; is_as_told(rt.alloc(), case) == Some(true));
    }
    Ok(())
}
