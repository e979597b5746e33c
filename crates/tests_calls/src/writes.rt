//! Writes and truncates, of clients that are evicted and with targets that fail.

use crate::site::{Case, is_as_told};
use crate::steps::Line;
use crate::told::Told;
use flr_base::{FailedCall, ObjectId, Range, Take, TakeFrom};
use object_target::{Fail as Failing, FailKind};
use std::test::*;

/// A file over two stripes that is truncated to the first.
const CUT: &[Line] = &[
    Line::Lfs(&[b"lfs", b"setstripe", b"-S", b"64K", b"-c", b"2", b"/a"]),
    Line::Write(b"/a", 0, &[(0x61, 131072)]),
    Line::Truncate(b"/a", 65536),
    Line::Read(b"/a", 0, 131072),
];

/// Who answers its bytes.
const HALVES: &[Take] = &[
    Take {
        range: Range {
            start: 0,
            end: 65536,
        },
        component: 65537,
        from: TakeFrom::Object {
            object: ObjectId {
                target: 0,
                number: 1,
            },
            call: 3,
        },
    },
    Take {
        range: Range {
            start: 65536,
            end: 131072,
        },
        component: 65537,
        from: TakeFrom::Object {
            object: ObjectId {
                target: 1,
                number: 1,
            },
            call: 3,
        },
    },
];

const CASES: &[Case] = &[
    // A write leaves the second mirror behind.
    Case {
        targets: 2,
        fails: &[],
        commands: (
            &[
                Line::Lfs(&[b"lfs", b"mirror", b"create", b"-N2", b"/a"]),
                Line::Write(b"/a", 0, &[(0x61, 1), (0x62, 1), (0x63, 1)]),
            ],
            &[],
        ),
        schedule: &[(1, 6)],
        calls: &[],
        layout: b"layout generation 2 state wp next 3 3 components 2
component 65537 mirror 1 flags init extent 0 EOF size 1048576 count 1 objects 0.1
component 131074 mirror 2 flags stale extent 0 EOF size 1048576 count 1 objects -
",
    },
    // The answer of a send is lost.
    Case {
        targets: 1,
        fails: &[Failing {
            target: 0,
            call: 1,
            kind: FailKind::Lost,
        }],
        commands: (
            &[
                Line::Lfs(&[b"lfs", b"setstripe", b"/a"]),
                Line::Write(b"/a", 0, &[(0x61, 1), (0x62, 1), (0x63, 1)]),
                Line::Read(b"/a", 0, 3),
            ],
            &[],
        ),
        schedule: &[(1, 11)],
        calls: &[
            (
                1,
                2,
                (2, 5, 6),
                Told::WriteFault(FailedCall { target: 0, call: 1 }),
            ),
            (
                1,
                3,
                (7, 10, 11),
                Told::Bytes(
                    &[(0x61, 1), (0x62, 1), (0x63, 1)],
                    &[Take {
                        range: Range { start: 0, end: 3 },
                        component: 65537,
                        from: TakeFrom::Object {
                            object: ObjectId {
                                target: 0,
                                number: 1,
                            },
                            call: 2,
                        },
                    }],
                ),
            ),
        ],
        layout: b"",
    },
    // A send is refused.
    Case {
        targets: 1,
        fails: &[Failing {
            target: 0,
            call: 1,
            kind: FailKind::Refused,
        }],
        commands: (
            &[
                Line::Lfs(&[b"lfs", b"setstripe", b"/a"]),
                Line::Write(b"/a", 0, &[(0x61, 1), (0x62, 1), (0x63, 1)]),
                Line::Read(b"/a", 0, 3),
            ],
            &[],
        ),
        schedule: &[(1, 11)],
        calls: &[
            (
                1,
                2,
                (2, 5, 6),
                Told::WriteFault(FailedCall { target: 0, call: 1 }),
            ),
            (
                1,
                3,
                (7, 10, 11),
                Told::Bytes(
                    &[(0x00, 3)],
                    &[Take {
                        range: Range { start: 0, end: 3 },
                        component: 65537,
                        from: TakeFrom::Object {
                            object: ObjectId {
                                target: 0,
                                number: 1,
                            },
                            call: 2,
                        },
                    }],
                ),
            ),
        ],
        layout: b"",
    },
    // The client is evicted before its first send, and begins again.
    Case {
        targets: 2,
        fails: &[],
        commands: (
            &[
                Line::Lfs(&[b"lfs", b"mirror", b"create", b"-N2", b"/a"]),
                Line::Write(b"/a", 0, &[(0x61, 1)]),
            ],
            &[
                Line::Evict(1),
                Line::Lfs(&[b"lfs", b"mirror", b"resync", b"/a"]),
            ],
        ),
        schedule: &[(1, 2), (2, 4), (1, 8), (2, 4)],
        calls: &[
            (1, 2, (2, 13, 14), Told::Written),
            (2, 2, (4, 18, 18), Told::Broken(10)),
        ],
        layout: b"",
    },
    // It is evicted before its second send.
    Case {
        targets: 2,
        fails: &[],
        commands: (
            &[
                Line::Lfs(&[
                    b"lfs", b"mirror", b"create", b"-N", b"-S", b"64K", b"-c", b"2", b"-N", b"/a",
                ]),
                Line::Write(b"/a", 65535, &[(0x61, 1), (0x62, 1)]),
            ],
            &[
                Line::Evict(1),
                Line::Lfs(&[b"lfs", b"mirror", b"resync", b"/a"]),
                Line::Read(b"/a", 65534, 4),
            ],
        ),
        schedule: &[(1, 5), (2, 5), (1, 3), (2, 11)],
        calls: &[
            (1, 2, (2, 12, 13), Told::Evicted(6)),
            (2, 2, (7, 17, 17), Told::Copied(&[131074], &[])),
            (
                2,
                3,
                (18, 23, 24),
                Told::Bytes(
                    &[(0x00, 1), (0x61, 1)],
                    &[
                        Take {
                            range: Range {
                                start: 65534,
                                end: 65536,
                            },
                            component: 65537,
                            from: TakeFrom::Object {
                                object: ObjectId {
                                    target: 0,
                                    number: 1,
                                },
                                call: 4,
                            },
                        },
                        Take {
                            range: Range {
                                start: 65536,
                                end: 65538,
                            },
                            component: 65537,
                            from: TakeFrom::Object {
                                object: ObjectId {
                                    target: 1,
                                    number: 1,
                                },
                                call: 5,
                            },
                        },
                    ],
                ),
            ),
        ],
        layout: b"",
    },
    // A truncate over two stripes.
    Case {
        targets: 2,
        fails: &[],
        commands: (CUT, &[]),
        schedule: &[(1, 21)],
        calls: &[
            (1, 3, (9, 13, 14), Told::Truncated),
            (1, 4, (15, 20, 21), Told::Bytes(&[(0x61, 65536)], HALVES)),
        ],
        layout: b"",
    },
    // The answer of its second punch is lost.
    Case {
        targets: 2,
        fails: &[Failing {
            target: 1,
            call: 2,
            kind: FailKind::Lost,
        }],
        commands: (CUT, &[]),
        schedule: &[(1, 21)],
        calls: &[
            (
                1,
                3,
                (9, 13, 14),
                Told::WriteFault(FailedCall { target: 1, call: 2 }),
            ),
            (
                1,
                4,
                (15, 20, 21),
                Told::Bytes(&[(0x61, 65536), (0x00, 65536)], HALVES),
            ),
        ],
        layout: b"",
    },
    // That punch is refused.
    Case {
        targets: 2,
        fails: &[Failing {
            target: 1,
            call: 2,
            kind: FailKind::Refused,
        }],
        commands: (CUT, &[]),
        schedule: &[(1, 21)],
        calls: &[
            (
                1,
                3,
                (9, 13, 14),
                Told::WriteFault(FailedCall { target: 1, call: 2 }),
            ),
            (1, 4, (15, 20, 21), Told::Bytes(&[(0x61, 131072)], HALVES)),
        ],
        layout: b"",
    },
];

#[test]
fn writes_tell_what_became_of_them(rt: HostRuntime) -> Result<(), Fail> {
    for case in CASES {
        assert!(rt; is_as_told(rt.alloc(), case) == Some(true));
    }
    Ok(())
}
