use crate::scripts::ONE;
use flr_base::{Ids, MemSink, MemSource, Octets};
use flr_top::run_main;
use std::alloc::{AllocError, Global};
use std::sync::Wait;
use std::sync::atomic::{AtomicBool, AtomicU32, Ordering};
use std::test::Fail;
use std::thread::Threads;
use turn_crew::{FreeGate, Gate};

/// The report of the one run that `ONE` has.
const REPORT: &[u8] = b"flr-report 1
call 1.1 from 1 at 1 to 1 lfs setstripe -E -1 -S 1048576 -c 1 /a = created
call 1.2 from 2 at 5 to 6 write /a 0 61*1+62*1+63*1 = written
call 1.3 from 7 at 10 to 11 read /a 0 3 = bytes 61*1+62*1+63*1
take 0 3 65537 0.1@2
file /a size 3
layout generation 2 state 0 next 2 2 components 1
component 65537 mirror 1 flags init extent 0 EOF size 1048576 count 1 objects 0.1
schedule 1*11
";

/// What is no script, and the line that says so.
const REFUSED: [(&[u8], &[u8]); 3] = [
    (b"", b"flr: script: line 1: missing word\n"),
    (
        b"flr-script 1\ntargets 1\nclient 1\nlfs setst",
        b"flr: script: line 4: no newline\n",
    ),
    (
        b"flr-script 1\ntargets 1\nclient 1\nlfs setstripe --comp-set -I 65537 --comp-flags=fresh /a\n",
        b"flr: script: line 4: unknown word 6\n",
    ),
];

/// What `flr run` ends with and writes, where the listed calls of its source and of its sink fail.
fn ran<R: Threads + Wait + Sync>(
    rt: &R,
    alloc: Global,
    input: &[u8],
    reads: &[u32],
    writes: &[u32],
) -> Result<(u8, Octets), AllocError> {
    let bytes = Octets::from_vec(Vec::from_slice(alloc, input)?);
    let mut source = MemSource::new(bytes, Ids::from_vec(Vec::from_slice(alloc, reads)?));
    let mut out = MemSink::new(alloc, Ids::from_vec(Vec::from_slice(alloc, writes)?));
    let status = run_main(rt, alloc, &mut source, &mut out, &FreeGate);
    Ok((status, out.into_bytes()))
}

#[test]
fn scripts_are_run(rt: HostRuntime) -> Result<(), Fail> {
    let alloc = rt.alloc();
    let (status, text) = ran(&rt, alloc, ONE, &[], &[])?;
    assert!(rt; status == 0 && text.as_slice() == REPORT);
    for (input, line) in REFUSED {
        let (status, text) = ran(&rt, alloc, input, &[], &[])?;
        assert!(rt; status == 3 && text.as_slice() == line);
    }
    let mut long = Vec::new(alloc);
    for _ in 0..1048577 {
        long.push(b'#')?;
    }
    let (status, text) = ran(&rt, alloc, &long, &[], &[])?;
    assert!(rt; status == 3 && text.as_slice() == b"flr: script: too long\n".as_slice());
    Ok(())
}

#[test]
fn ends_fail_at_each_call(rt: HostRuntime) -> Result<(), Fail> {
    let alloc = rt.alloc();
    let mut read_faults: u32 = 0;
    let mut write_faults: u32 = 0;
    for call in 1..=16 {
        let (status, text) = ran(&rt, alloc, ONE, &[call], &[])?;
        if status == 4 && text.as_slice() == b"flr: read fault\n".as_slice() {
            read_faults = read_faults.saturating_add(1);
        }
        assert!(rt; status == 4 || text.as_slice() == REPORT);
        let (status, text) = ran(&rt, alloc, ONE, &[], &[call])?;
        if status == 5 && REPORT.starts_with(text.as_slice()) {
            write_faults = write_faults.saturating_add(1);
        }
        assert!(rt; status == 5 || text.as_slice() == REPORT);
    }
    let (both, text) = ran(&rt, alloc, ONE, &[1], &[1])?;
    assert!(rt;
        (read_faults, both) == (2, 5) && write_faults >= 6 && text.as_slice() == b"".as_slice()
    );
    Ok(())
}

/// Notes whether one client's steps go on as a gate is told of them: it is asked before each step, once,
/// and told after it; and once more where the client is found to have no command left.
#[derive(Drop)]
struct Pairs {
    told: AtomicU32,
    wrong: AtomicBool,
}

impl Pairs {
    /// The next of the gate's calls is this one, counted from 0.
    fn tell(&self, call: u32) {
        if self.told.load(Ordering::SeqCst) != call {
            self.wrong.store(true, Ordering::SeqCst);
        }
        self.told.store(call.saturating_add(1), Ordering::SeqCst);
    }
}

impl Gate for Pairs {
    fn before_step(&self, _client: u8, made: u32) {
        self.tell(made.saturating_mul(2));
    }

    fn after_step(&self, _client: u8, made: u32) {
        self.tell(made.saturating_mul(2).saturating_sub(1));
    }
}

#[test]
fn a_run_asks_its_gate(rt: HostRuntime) -> Result<(), Fail> {
    let alloc = rt.alloc();
    let gate = Pairs {
        told: AtomicU32::new(0),
        wrong: AtomicBool::new(false),
    };
    let bytes = Octets::from_vec(Vec::from_slice(alloc, ONE)?);
    let mut out = MemSink::new(alloc, Ids::new(alloc));
    let status = run_main(
        &rt,
        alloc,
        &mut MemSource::new(bytes, Ids::new(alloc)),
        &mut out,
        &gate,
    );
    let told = (
        gate.told.load(Ordering::SeqCst),
        gate.wrong.load(Ordering::SeqCst),
    );
    assert!(rt; status == 0 && told == (23, false));
    Ok(())
}
