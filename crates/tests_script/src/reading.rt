//! Inputs, and what they are read as.

use lfs_values::Cause;
use script_text::{ScriptError, What, read_replay, read_script};
use script_values::{Runs, Script};
use std::alloc::Global;
use std::test::*;

/// How many targets, mirrors a file, calls that fail and clients the script has, and how many runs its
/// schedule.
type Shape = (u8, u8, usize, u8, usize);

fn shape_of(script: &Script, runs: usize) -> Shape {
    (
        script.targets(),
        script.most(),
        script.fails().len(),
        script.clients(),
        runs,
    )
}

/// A script alone, or with a schedule.
fn read(alloc: Global, scheduled: bool, text: &[u8]) -> Result<Shape, ScriptError> {
    if scheduled {
        let (script, runs): (Script, Runs) = read_replay(alloc, text)?;
        Ok(shape_of(&script, runs.len()))
    } else {
        let script = read_script(alloc, text)?;
        Ok(shape_of(&script, 0))
    }
}

fn bad(line: u32, cause: Cause) -> Result<Shape, ScriptError> {
    Err(ScriptError::Bad { line, cause })
}

fn too_many(what: What) -> Result<Shape, ScriptError> {
    Err(ScriptError::TooMany { what })
}

#[test]
fn inputs(rt: HostRuntime) -> Result<(), Fail> {
    let alloc = rt.alloc();
    let mut long = Vec::new(alloc);
    for _ in 0..1048577 {
        long.push(b'\n')?;
    }
    let mut many = Vec::from_slice(alloc, b"flr-script 1\ntargets 1\nclient 1\nschedule")?;
    for _ in 0..5000 {
        many.extend_from_slice(b" 1 2*3")?;
    }
    many.push(b'\n')?;
    let rows: [(bool, &[u8], Result<Shape, ScriptError>); 24] = [
        (false, b"", bad(1, Cause::Missing)),
        (false, long.as_slice(), Err(ScriptError::TooLong)),
        (true, long.as_slice(), Err(ScriptError::TooLong)),
        (true, many.as_slice(), Ok((1, 16, 0, 1, 10000))),
        (true, b"flr-script 1\n", Err(ScriptError::NoSchedule)),
        (true, b"schedule 1*0\n", bad(1, Cause::Missing)),
        (
            false,
            b"flr-script 1\ntargets 1\nclient 1\nread /a 0 1",
            bad(4, Cause::NoNewline),
        ),
        (
            false,
            b"flr-script 1\ntargets 1\nclient 1\nlfs setstripe --comp-set -I 1 --comp-flags=fresh /a\n",
            bad(4, Cause::UnknownWord { place: 6 }),
        ),
        (
            false,
            b"flr-script 1\ntargets 2\nfail 0 1 lost\nclient 1\nlfs setstripe /a\n",
            Ok((2, 16, 1, 1, 0)),
        ),
        (
            false,
            b" flr-script  2\n# a comment\n\ntargets 1\nmirrors 32\nfail 0 3 7 refused\nclient 1\nclient 2\n",
            Ok((1, 32, 5, 2, 0)),
        ),
        (
            false,
            b"flr-script 2\ntargets 1\nmirrors 33\n",
            bad(3, Cause::BadNumber { place: 2 }),
        ),
        (
            false,
            b"flr-script 2\ntargets 1\nmirrors 1\nfail 0 1 4097 lost\n",
            too_many(What::Fails),
        ),
        (
            false,
            b"flr-script 1\nmirrors 16\n",
            bad(2, Cause::UnknownWord { place: 1 }),
        ),
        (false, b"mirrors 16\n", bad(1, Cause::Misplaced)),
        (
            false,
            b"flr-script 1\ntargets 65 x\n",
            too_many(What::Targets),
        ),
        (
            false,
            b"flr-script 1\ntargets 1\nfail 0 1 lost\nfail 0 1 maybe\n",
            bad(4, Cause::Repeated { place: 3 }),
        ),
        (
            false,
            b"flr-script 1\ntargets 1\nclient 1\nevict 2\nread /a -1 1\n",
            bad(5, Cause::BadNumber { place: 3 }),
        ),
        (
            false,
            b"flr-script 1\ntargets 1\nclient 1\nevict 2\nevict 300\n",
            bad(4, Cause::BadNumber { place: 2 }),
        ),
        (
            false,
            b"flr-script 1\ntargets 1\nclient 1\nschedule\n",
            bad(4, Cause::Misplaced),
        ),
        (
            true,
            b"flr-script 1\ntargets 1\nclient 1\nschedule\n#\n",
            Ok((1, 16, 0, 1, 0)),
        ),
        (
            true,
            b"flr-script 1\ntargets 1\nclient 1\nschedule 1  2*3 4294967295*1 \n",
            Ok((1, 16, 0, 1, 3)),
        ),
        (
            true,
            b"flr-script 1\ntargets 1\nclient 1\nevict 9\nschedule 1 1*0\n",
            bad(5, Cause::BadNumber { place: 3 }),
        ),
        (
            true,
            b"flr-script 1\ntargets 1\nclient 1\nschedule 1\nmirrors 2\n",
            bad(5, Cause::UnknownWord { place: 1 }),
        ),
        (
            true,
            b"flr-script 1\ntargets 1\nclient 1\nevict 9\nschedule 1\n",
            bad(4, Cause::BadNumber { place: 2 }),
        ),
    ];
    for (scheduled, text, shape) in rows.iter() {
        assert_eq!(rt; read(alloc, *scheduled, text), *shape);
    }
    Ok(())
}
