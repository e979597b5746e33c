//! Commands of one step, and what is refused at a first step.

use crate::site::{Case, is_as_told};
use crate::steps::Line;
use crate::told::Told;
use std::test::*;

const CASES: &[Case] = &[
    // What is the last, or stale.
    Case {
        targets: 2,
        fails: &[],
        commands: (
            &[
                Line::Lfs(&[b"lfs", b"mirror", b"create", b"-N2", b"/a"]),
                Line::Write(b"/a", 0, &[(0x61, 1), (0x62, 1), (0x63, 1)]),
                Line::Lfs(&[b"lfs", b"mirror", b"split", b"--mirror-id", b"1", b"/a"]),
                Line::Lfs(&[
                    b"lfs",
                    b"mirror",
                    b"split",
                    b"--mirror-id",
                    b"2",
                    b"-f",
                    b"/b",
                    b"/a",
                ]),
                Line::Lfs(&[b"lfs", b"mirror", b"delete", b"--mirror-id", b"2", b"/a"]),
            ],
            &[],
        ),
        schedule: &[(1, 9)],
        calls: &[
            (1, 3, (7, 7, 7), Told::LastFresh(1)),
            (1, 4, (8, 8, 8), Told::StaleMirror(2)),
            (1, 5, (9, 9, 9), Told::Removed(2)),
        ],
        layout: b"layout generation 3 state 0 next 3 3 components 1
component 65537 mirror 1 flags init extent 0 EOF size 1048576 count 1 objects 0.1
",
    },
    // What is refused first.
    Case {
        targets: 2,
        fails: &[],
        commands: (
            &[
                Line::Lfs(&[b"lfs", b"mirror", b"create", b"-N2", b"/a"]),
                Line::Lfs(&[b"lfs", b"setstripe", b"/b"]),
                Line::Lfs(&[b"lfs", b"mirror", b"split", b"--mirror-id", b"2", b"/c"]),
                Line::Lfs(&[
                    b"lfs",
                    b"mirror",
                    b"split",
                    b"--mirror-id",
                    b"9",
                    b"-f",
                    b"/b",
                    b"/a",
                ]),
                Line::Lfs(&[
                    b"lfs",
                    b"mirror",
                    b"split",
                    b"--mirror-id",
                    b"2",
                    b"-f",
                    b"/b",
                    b"/a",
                ]),
                Line::Lfs(&[b"lfs", b"mirror", b"split", b"--mirror-id", b"2", b"/a"]),
                Line::Lfs(&[
                    b"lfs",
                    b"mirror",
                    b"split",
                    b"--mirror-id",
                    b"1",
                    b"-d",
                    b"/a",
                ]),
                Line::Lfs(&[b"lfs", b"mirror", b"delete", b"--mirror-id", b"2", b"/c"]),
                Line::Lfs(&[b"lfs", b"mirror", b"delete", b"--mirror-id", b"2", b"/a"]),
                Line::Lfs(&[b"lfs", b"mirror", b"delete", b"--mirror-id", b"1", b"/a"]),
            ],
            &[],
        ),
        schedule: &[(1, 10)],
        calls: &[
            (1, 3, (3, 3, 3), Told::NoFile(b"/c")),
            (1, 4, (4, 4, 4), Told::NoMirrorId(9)),
            (1, 5, (5, 5, 5), Told::Exists(b"/b")),
            (1, 6, (6, 6, 6), Told::Split(b"/a.mirror~2")),
            (1, 7, (7, 7, 7), Told::LastFresh(1)),
            (1, 8, (8, 8, 8), Told::NoFile(b"/c")),
            (1, 9, (9, 9, 9), Told::NoMirrorId(2)),
            (1, 10, (10, 10, 10), Told::LastFresh(1)),
        ],
        layout: b"layout generation 2 state 0 next 3 3 components 1
component 65537 mirror 1 flags 0 extent 0 EOF size 1048576 count 1 objects -
",
    },
    // What there is no room for, and what nobody answers.
    Case {
        targets: 1,
        fails: &[],
        commands: (
            &[
                Line::Lfs(&[b"lfs", b"mirror", b"create", b"-N16", b"/a"]),
                Line::Lfs(&[b"lfs", b"mirror", b"extend", b"-N", b"/a"]),
                Line::Write(b"/a", 268435455, &[(0x61, 1)]),
                Line::Write(b"/a", 268435456, &[(0x61, 1)]),
                Line::Lfs(&[b"lfs", b"setstripe", b"/b"]),
                Line::Lfs(&[
                    b"lfs",
                    b"setstripe",
                    b"--comp-set",
                    b"-I",
                    b"65537",
                    b"--comp-flags=offline",
                    b"/b",
                ]),
                Line::Read(b"/b", 0, 1),
                Line::Write(b"/b", 0, &[(0x61, 1)]),
                Line::Read(b"/c", 0, 1),
            ],
            &[],
        ),
        schedule: &[(1, 13)],
        calls: &[
            (1, 2, (2, 2, 2), Told::TooManyMirrors),
            (1, 3, (3, 6, 7), Told::Written),
            (1, 4, (8, 8, 8), Told::TooBig),
            (1, 5, (9, 9, 9), Told::Created),
            (1, 6, (10, 10, 10), Told::Set),
            (1, 7, (11, 11, 11), Told::AllOffline(0)),
            (1, 8, (12, 12, 12), Told::NoPrimary(0, 1)),
            (1, 9, (13, 13, 13), Told::NoFile(b"/c")),
        ],
        layout: b"",
    },
];

#[test]
fn changes_are_refused_in_order(rt: HostRuntime) -> Result<(), Fail> {
    for case in CASES {
        assert!(rt; is_as_told(rt.alloc(), case) == Some(true));
    }
    Ok(())
}
