//! Copies, comparisons and merges.

use crate::site::{Case, is_as_told};
use crate::steps::Line;
use crate::told::Told;
use flr_base::{Diff, FailedCall, Left, ObjectId};
use object_target::{Fail as Failing, FailKind};
use std::test::*;

const CASES: &[Case] = &[
    // A resync, and what another client sees in its midst.
    Case {
        targets: 2,
        fails: &[],
        commands: (
            &[
                Line::Lfs(&[b"lfs", b"mirror", b"create", b"-N2", b"/a"]),
                Line::Write(b"/a", 0, &[(0x61, 1), (0x62, 1), (0x63, 1)]),
                Line::Lfs(&[b"lfs", b"mirror", b"resync", b"/a"]),
            ],
            &[Line::Lfs(&[b"lfs", b"getstripe", b"/a"])],
        ),
        schedule: &[(1, 7), (2, 1), (1, 6)],
        calls: &[
            (
                2,
                1,
                (8, 8, 8),
                Told::Layout(
                    b"layout generation 3 state sp next 3 3 components 2
component 65537 mirror 1 flags init extent 0 EOF size 1048576 count 1 objects 0.1
component 131074 mirror 2 flags init,stale extent 0 EOF size 1048576 count 1 objects 1.1
",
                ),
            ),
            (1, 3, (7, 14, 14), Told::Copied(&[131074], &[])),
        ],
        layout: b"layout generation 4 state ro next 3 3 components 2
component 65537 mirror 1 flags init extent 0 EOF size 1048576 count 1 objects 0.1
component 131074 mirror 2 flags init extent 0 EOF size 1048576 count 1 objects 1.1
",
    },
    // A write breaks the lease.
    Case {
        targets: 2,
        fails: &[],
        commands: (
            &[
                Line::Lfs(&[b"lfs", b"mirror", b"create", b"-N2", b"/a"]),
                Line::Write(b"/a", 0, &[(0x61, 1), (0x62, 1), (0x63, 1)]),
                Line::Lfs(&[b"lfs", b"mirror", b"resync", b"/a"]),
            ],
            &[Line::Write(b"/a", 1, &[(0x64, 1)])],
        ),
        schedule: &[(1, 8), (2, 5), (1, 5)],
        calls: &[
            (2, 1, (9, 12, 13), Told::Written),
            (1, 3, (7, 18, 18), Told::Broken(9)),
        ],
        layout: b"layout generation 5 state wp next 3 3 components 2
component 65537 mirror 1 flags init extent 0 EOF size 1048576 count 1 objects 0.1
component 131074 mirror 2 flags init,stale extent 0 EOF size 1048576 count 1 objects 1.1
",
    },
    // The put of an evicted client is too old.
    Case {
        targets: 2,
        fails: &[],
        commands: (
            &[
                Line::Lfs(&[b"lfs", b"mirror", b"create", b"-N2", b"/a"]),
                Line::Write(b"/a", 0, &[(0x61, 1), (0x62, 1), (0x63, 1)]),
                Line::Lfs(&[b"lfs", b"mirror", b"resync", b"/a"]),
            ],
            &[
                Line::Evict(1),
                Line::Lfs(&[b"lfs", b"mirror", b"resync", b"/a"]),
            ],
        ),
        schedule: &[(1, 11), (2, 8), (1, 2)],
        calls: &[
            (2, 2, (13, 19, 19), Told::Copied(&[131074], &[])),
            (1, 3, (7, 21, 21), Told::Broken(12)),
        ],
        layout: b"layout generation 5 state ro next 3 3 components 2
component 65537 mirror 1 flags init extent 0 EOF size 1048576 count 1 objects 0.1
component 131074 mirror 2 flags init extent 0 EOF size 1048576 count 1 objects 1.1
",
    },
    // The answer of a fence is lost.
    Case {
        targets: 2,
        fails: &[Failing {
            target: 0,
            call: 2,
            kind: FailKind::Lost,
        }],
        commands: (
            &[
                Line::Lfs(&[b"lfs", b"mirror", b"create", b"-N2", b"/a"]),
                Line::Write(b"/a", 0, &[(0x61, 1), (0x62, 1), (0x63, 1)]),
                Line::Lfs(&[b"lfs", b"mirror", b"resync", b"/a"]),
            ],
            &[],
        ),
        schedule: &[(1, 9)],
        calls: &[(
            1,
            3,
            (7, 9, 9),
            Told::Copied(
                &[],
                &[Left {
                    component: 131074,
                    call: FailedCall { target: 0, call: 2 },
                }],
            ),
        )],
        layout: b"layout generation 4 state ro next 3 3 components 2
component 65537 mirror 1 flags init extent 0 EOF size 1048576 count 1 objects 0.1
component 131074 mirror 2 flags init,stale extent 0 EOF size 1048576 count 1 objects 1.1
",
    },
    // Two mirrors that are the same.
    Case {
        targets: 2,
        fails: &[],
        commands: (
            &[
                Line::Lfs(&[b"lfs", b"mirror", b"create", b"-N2", b"/a"]),
                Line::Write(b"/a", 0, &[(0x61, 1), (0x62, 1), (0x63, 1)]),
                Line::Lfs(&[b"lfs", b"mirror", b"resync", b"/a"]),
                Line::Lfs(&[b"lfs", b"mirror", b"verify", b"/a"]),
            ],
            &[],
        ),
        schedule: &[(1, 17)],
        calls: &[(1, 4, (14, 17, 17), Told::Same(1))],
        layout: b"",
    },
    // A byte of one of them rots.
    Case {
        targets: 2,
        fails: &[],
        commands: (
            &[
                Line::Lfs(&[b"lfs", b"mirror", b"create", b"-N2", b"/a"]),
                Line::Write(b"/a", 0, &[(0x61, 1), (0x62, 1), (0x63, 1)]),
                Line::Lfs(&[b"lfs", b"mirror", b"resync", b"/a"]),
                Line::Rot(
                    ObjectId {
                        target: 1,
                        number: 1,
                    },
                    2,
                    0x64,
                ),
                Line::Lfs(&[b"lfs", b"mirror", b"verify", b"/a"]),
            ],
            &[],
        ),
        schedule: &[(1, 18)],
        calls: &[
            (1, 4, (14, 14, 14), Told::Rotted),
            (
                1,
                5,
                (15, 18, 18),
                Told::Differ(&[Diff {
                    first: 65537,
                    second: 131074,
                    offset: 2,
                    ours: 0x63,
                    theirs: 0x64,
                }]),
            ),
        ],
        layout: b"",
    },
    // Two files that differ.
    Case {
        targets: 1,
        fails: &[],
        commands: (
            &[
                Line::Lfs(&[b"lfs", b"setstripe", b"/a"]),
                Line::Write(b"/a", 0, &[(0x61, 3)]),
                Line::Lfs(&[b"lfs", b"setstripe", b"/b"]),
                Line::Write(b"/b", 0, &[(0x61, 2), (0x62, 1)]),
                Line::Lfs(&[b"lfs", b"mirror", b"extend", b"-N", b"-f", b"/b", b"/a"]),
            ],
            &[],
        ),
        schedule: &[(1, 19)],
        calls: &[(1, 5, (13, 19, 19), Told::DifferAt(2, 0x61, 0x62))],
        layout: b"layout generation 3 state sp next 2 2 components 1
component 65537 mirror 1 flags init extent 0 EOF size 1048576 count 1 objects 0.1
",
    },
    // Two that are the same.
    Case {
        targets: 1,
        fails: &[],
        commands: (
            &[
                Line::Lfs(&[b"lfs", b"setstripe", b"/a"]),
                Line::Write(b"/a", 0, &[(0x61, 3)]),
                Line::Lfs(&[b"lfs", b"setstripe", b"/b"]),
                Line::Write(b"/b", 0, &[(0x61, 3)]),
                Line::Lfs(&[b"lfs", b"mirror", b"extend", b"-N", b"-f", b"/b", b"/a"]),
            ],
            &[],
        ),
        schedule: &[(1, 19)],
        calls: &[(1, 5, (13, 19, 19), Told::Merged(&[2]))],
        layout: b"layout generation 4 state ro next 3 3 components 2
component 65537 mirror 1 flags init extent 0 EOF size 1048576 count 1 objects 0.1
component 131074 mirror 2 flags init extent 0 EOF size 1048576 count 1 objects 0.2
",
    },
];

#[test]
fn copies_tell_what_they_cleared(rt: HostRuntime) -> Result<(), Fail> {
    for case in CASES {
        assert!(rt; is_as_told(rt.alloc(), case) == Some(true));
    }
    Ok(())
}
