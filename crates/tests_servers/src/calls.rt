use object_target::{CallAnswer, Fail, FailKind, RotError, Target, TargetError, Targets};
use std::test::Fail as Failed;

/// A call to be made on object 1.
#[derive(Clone, Copy)]
enum Call {
    Write(u64, u8, u32),
    Fence(u32),
    Reset(u32),
    Punch(u64, u32),
}

const OLD_3: Result<(), TargetError> = Err(TargetError::Old { kept: 3 });

/// Calls of a target that refuses its ninth and loses its tenth: the result, and then the length
/// and the version of the object.
const ROWS: [(Call, Result<(), TargetError>, Option<u64>, u32); 11] = [
    (Call::Fence(3), Ok(()), Some(0), 3),
    (Call::Write(0, 0x61, 2), OLD_3, Some(0), 3),
    (Call::Write(0, 0x61, 3), Ok(()), Some(1), 3),
    (Call::Fence(2), Ok(()), Some(1), 3),
    (Call::Reset(2), OLD_3, Some(1), 3),
    (Call::Reset(4), Ok(()), Some(0), 4),
    (Call::Write(2, 0x62, 5), Ok(()), Some(3), 4),
    (Call::Punch(1, 4), Ok(()), Some(1), 4),
    (
        Call::Fence(9),
        Err(TargetError::Failed { call: 9 }),
        Some(1),
        4,
    ),
    (
        Call::Write(4, 0x63, 4),
        Err(TargetError::Failed { call: 10 }),
        Some(5),
        4,
    ),
    (Call::Punch(9, 4), Ok(()), Some(5), 4),
];

fn listed(call: u32, kind: FailKind) -> Fail {
    Fail {
        target: 0,
        call,
        kind,
    }
}

fn make(target: &mut Target, call: Call) -> Option<Result<(), TargetError>> {
    if target.calls().len() >= 1000 {
        return None;
    }
    match call {
        Call::Write(offset, _, _) if offset >= 1000 => None,
        Call::Write(offset, byte, version) => Some(target.write(1, offset, &[byte], version)),
        Call::Fence(version) => Some(target.fence(1, version)),
        Call::Reset(version) => Some(target.reset(1, version)),
        Call::Punch(offset, version) => Some(target.punch(1, offset, version)),
    }
}

fn len_of(target: &Target) -> Option<u64> {
    let content = target.content(1)?;
    Some(content.len())
}

#[test]
fn calls_look_at_versions(rt: HostRuntime) -> Result<(), Failed> {
    let fails = [listed(9, FailKind::Refused), listed(10, FailKind::Lost)];
    let mut target = Target::new(rt.alloc(), 0, &fails)?;
    for (call, result, len, version) in ROWS {
        let made = make(&mut target, call);
        assert!(rt; made == Some(result) && len_of(&target) == len && target.version(1) == version);
    }
    Ok(())
}

#[test]
fn each_target_is_by_itself(rt: HostRuntime) -> Result<(), Failed> {
    let mut targets = Targets::new(rt.alloc(), 3, &[listed(1, FailKind::Lost)])?;
    let other = targets.at_mut(1);
    let gone = other.rot(1, 2, 0x64);
    let made = make(other, Call::Write(1, 0x61, 0));
    let rotted = other.rot(1, 3, 0x64);
    let mut found = [9u8; 6];
    let read = if other.calls().len() == 1 {
        Some(other.read(1, 0, &mut found))
    } else {
        None
    };
    assert!(rt;
        (gone, made, rotted, read) == (Err(RotError::NoObject), Some(Ok(())), Ok(()), Some(Ok(())))
    );
    assert!(rt; found == [0, 0x61, 0, 0x64, 0, 0]);
    let lost = make(targets.at_mut(0), Call::Fence(5));
    let first = targets.at(0);
    assert!(rt; (lost, first.version(1)) == (Some(Err(TargetError::Failed { call: 1 })), 5));
    assert!(rt; matches!(first.calls(), [entry] if entry.answer == CallAnswer::Failed));
    assert!(rt; targets.at(1).calls().len() == 2 && targets.at(2).calls().is_empty());
    Ok(())
}
