use crate::asked::{REST, WHOLE};
use crate::files::{Step, ids_of, stepped};
use composite_layout::Part;
use flr_base::{EOF, ObjectId, Range};
use layout_state::{StateError, primary, ready, selected};
use mirror_select::{
    Choice, Piece, PieceError, Tail, choose, pieces, ready_for_write, tails, write_pieces,
};
use std::alloc::Global;

/// A new file of mirrors of these parts on two targets, the steps that are made on it, a range, the
/// components that failed, which component answers the first byte, and the pieces of a read.
struct Case {
    mirrors: &'static [&'static [Part]],
    steps: &'static [Step],
    range: Range,
    failed: &'static [u32],
    choice: Choice,
    pieces: Result<&'static [Piece], PieceError>,
}

const STRIPED: &[Part] = &[Part {
    size: 65536,
    count: 2,
    ..REST
}];

const COPIED: &[Step] = &[
    Step::Write(0, 3),
    Step::Begin(&[131074]),
    Step::Done(&[131074]),
];

/// The first three bytes, as the first component has them in its object.
const FIRST: Piece = Piece {
    range: Range { start: 0, end: 3 },
    component: 65537,
    object: Some(ObjectId {
        target: 0,
        number: 1,
    }),
    offset: 0,
};

const CASES: &[Case] = &[
    // A read over the end of a unit.
    Case {
        mirrors: &[STRIPED],
        steps: &[Step::Write(65535, 65537)],
        range: Range {
            start: 65534,
            end: 65538,
        },
        failed: &[],
        choice: Choice::Component(0),
        pieces: Ok(&[
            Piece {
                range: Range {
                    start: 65534,
                    end: 65536,
                },
                offset: 65534,
                ..FIRST
            },
            Piece {
                range: Range {
                    start: 65536,
                    end: 65538,
                },
                object: Some(ObjectId {
                    target: 1,
                    number: 1,
                }),
                ..FIRST
            },
        ]),
    },
    // Where one component failed the other answers, and where both did, none.
    Case {
        mirrors: &[WHOLE, WHOLE],
        steps: COPIED,
        range: Range { start: 0, end: 3 },
        failed: &[65537],
        choice: Choice::Component(1),
        pieces: Ok(&[Piece {
            component: 131074,
            object: Some(ObjectId {
                target: 1,
                number: 1,
            }),
            ..FIRST
        }]),
    },
    Case {
        mirrors: &[WHOLE, WHOLE],
        steps: COPIED,
        range: Range { start: 0, end: 3 },
        failed: &[65537, 131074],
        choice: Choice::AllFailed,
        pieces: Err(PieceError::AllFailed { byte: 0 }),
    },
];

/// Whether each byte is read from where it is to be.
fn are_right(alloc: Global) -> Result<bool, StateError> {
    for case in CASES {
        let (layout, _) = stepped(alloc, case.mirrors, 2, case.steps)?;
        let failed = ids_of(alloc, case.failed)?;
        if case.range.end >= 1 << 40 {
            return Ok(false);
        }
        let choice = choose(&layout, case.range.start, &failed);
        let is_right = match (pieces(alloc, &layout, case.range, &failed), case.pieces) {
            (Ok(found), Ok(pieces)) => found.as_slice() == pieces,
            (Err(found), Err(refusal)) => found == refusal,
            _ => false,
        };
        if choice != case.choice || !is_right {
            return Ok(false);
        }
    }
    Ok(true)
}

#[test]
fn bytes_are_read_from_their_components(rt: HostRuntime) {
    assert!(rt; are_right(rt.alloc()) == Ok(true));
}

/// A file whose first mirror has two stripes is written over the end of the first unit: the first byte
/// and the second are pieces of their own, and where the file is cut between them, the tails begin at
/// the end of the unit and at its front.
fn goes_to_the_primary(alloc: Global) -> Result<bool, StateError> {
    let range = Range {
        start: 65535,
        end: 65537,
    };
    let behind = Range {
        start: 65536,
        end: EOF,
    };
    let (layout, _) = stepped(alloc, &[STRIPED, WHOLE], 2, &[Step::Write(65535, 65537)])?;
    if !ready_for_write(&layout, range) || !ready(&layout, behind) {
        return Ok(false);
    }
    let written = write_pieces(alloc, &layout, range)?;
    let cut = tails(alloc, &layout, 65536)?;
    let copied = selected(alloc, &layout, None)?;
    let first = Piece {
        range: Range {
            start: 65535,
            end: 65536,
        },
        offset: 65535,
        ..FIRST
    };
    let second = Piece {
        range: Range {
            start: 65536,
            end: 65537,
        },
        object: Some(ObjectId {
            target: 1,
            number: 1,
        }),
        ..FIRST
    };
    let tail = Tail {
        component: 65537,
        object: ObjectId {
            target: 0,
            number: 1,
        },
        offset: 65536,
    };
    let other = Tail {
        object: ObjectId {
            target: 1,
            number: 1,
        },
        offset: 0,
        ..tail
    };
    Ok(
        primary(&layout, range) == Some(1)
            && written.as_slice() == [first, second].as_slice()
            && cut.as_slice() == [tail, other].as_slice()
            && copied.as_slice() == [131074].as_slice(),
    )
}

#[test]
fn a_write_goes_to_the_primary(rt: HostRuntime) {
    assert!(rt; goes_to_the_primary(rt.alloc()) == Ok(true));
}
