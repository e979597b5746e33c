use extent_lock::{ExtentLocks, LockError, Mode, several_locks, whole_object};
use flr_base::{EOF, ObjectId, Range};

/// An object of the only target.
fn object(number: u32) -> ObjectId {
    ObjectId { target: 0, number }
}

fn range(start: u64, end: u64) -> Range {
    Range { start, end }
}

/// Locks that are asked for one after another: by whom, on which object, on which bytes and how, and
/// the client and the bytes that a refusal names.
const ROWS: [(u8, u32, (u64, u64), Mode, Option<(u8, u64, u64)>); 11] = [
    (1, 1, (0, 10), Mode::PW, None),
    (2, 1, (9, 12), Mode::PR, Some((1, 0, 10))),
    (2, 1, (10, 12), Mode::PR, None),
    (1, 1, (0, 10), Mode::PR, None),
    (3, 1, (11, 20), Mode::PR, None),
    (4, 1, (10, 20), Mode::PW, Some((2, 10, 12))),
    (4, 2, (0, 100), Mode::PW, None),
    (5, 1, (20, EOF), Mode::PW, None),
    (6, 1, (15, EOF), Mode::PR, Some((5, 20, EOF))),
    (2, 1, (11, 15), Mode::PR, None),
    (8, 1, (13, 14), Mode::PW, Some((2, 11, 15))),
];

#[test]
fn locks_are_granted_apart(rt: HostRuntime) {
    let mut locks = ExtentLocks::new(rt.alloc());
    for (holder, number, (start, end), mode, blocked) in ROWS {
        let wanted = match blocked {
            Some((holder, start, end)) => Err(LockError::Blocked {
                holder,
                range: range(start, end),
            }),
            None => Ok(()),
        };
        assert!(rt; locks.try_lock(holder, object(number), range(start, end), mode) == wanted);
    }
    several_locks();
    whole_object();
    let told = (
        locks.writer_but(1, object(1)),
        locks.writer_but(4, object(2)),
    );
    assert!(rt; told == (Some((5, range(20, EOF))), None));
    let held = locks.held_by(2);
    locks.unlock(2);
    assert!(rt; (held, locks.held_by(2), locks.held_by(1)) == (2, 0, 2));
}
