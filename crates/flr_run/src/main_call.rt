//! The call of `flr run`.

ghost use Rattle.std.specs.Prelude.{◌≡◌, IfSome};
ghost use Rattle.std.specs.Io.KnownBytes.{Appends};
ghost use Rattle.flr_base.specs.Causes.{Rose};
ghost use Rattle.flr_statuses.specs.Statuses.{IsStatus, LeavesFront, Tells, TellsFront, read_fault_line};
ghost use Rattle.flr_migrate.specs.Migrations.{IsNoScript};
ghost use Rattle.flr_run.specs.Runs.{IsReport};

use crate::crew::{Outcome, run};
use flr_base::{NoMemory, ReadError, Sink, Source, read_all};
use flr_statuses::written;
use flr_world::reported;
use std::alloc::Global;
use std::sync::Wait;
use std::thread::Threads;
use turn_crew::Gate;

/// How many bytes a script may have.
const MOST_OF_SCRIPT: u32 = 1048576;

/// Reads a script to the end of the input, has each of its clients make its steps on a thread of its own
/// until none has a command left, and writes the report of that run, in which the schedule that came about
/// stands. The gate is called by each thread between its steps.
///
/// Status 0: the report is written. 3: the input is no script, and one line says why. 4: the source failed,
/// and one line says so. 5: the sink failed, after a front of the text. 6: memory ran out, when nothing or a
/// front of the report was written, and neither end failed. The input is read up to its first byte that is too many for a script.
/// The statuses are our own. It may wait without end.
pub fn run_main<S: Source, K: Sink, G: Gate + Sync, R: Threads + Wait + Sync>(
    rt: &R,
    alloc: Global,
    input: &mut S,
    out: &mut K,
    gate: &G,
) -> u8
    // The input spells a script, and what is written is the report of a run of it: each command stands in it
    // once and has ended, at a moment of its own between its first and its last step.
    ensures done { result ≡ 0 → IfSome (S.left input.old) (λ bytes. Tells IsReport bytes (K.taken out.old) (K.taken out.new)) }
    // The line tells the exact cause.
    ensures refused { result ≡ 3 → IfSome (S.left input.old) (λ bytes. Tells IsNoScript bytes (K.taken out.old) (K.taken out.new)) }
    ensures read { result ≡ 4 → Rose (S.faults input.old) (S.faults input.new) }
    ensures read_line { result ≡ 4 → Appends (K.taken out.old) (K.taken out.new) read_fault_line }
    ensures write { result ≡ 5 → Rose (K.faults out.old) (K.faults out.new) }
    ensures write_front { result ≡ 5 → IfSome (S.left input.old) (λ bytes. TellsFront IsReport IsNoScript bytes (S.faults input.old) (S.faults input.new) (K.taken out.old) (K.taken out.new)) }
    ensures memory { result ≡ 6 → IfSome (S.left input.old) (λ bytes. LeavesFront IsReport bytes (K.taken out.old) (K.taken out.new)) }
    ensures no_fault { result ≡ 6 → (S.faults input.new ≡ S.faults input.old) × (K.faults out.new ≡ K.faults out.old) }
    ensures status { IsStatus result }
{
    let bytes = match read_all(alloc, input, MOST_OF_SCRIPT) {
        Ok(bytes) => bytes,
        Err(ReadError::TooLong) => return written(out, b"flr: script: too long\n", 3),
        Err(ReadError::Failed) => return written(out, b"flr: read fault\n", 4),
        Err(ReadError::NoMemory) => return 6,
    };
    match run(rt, alloc, bytes.as_slice(), gate) {
        Ok(Outcome::Whole(world)) => reported(&world, out),
        Ok(Outcome::Refused(line)) => written(out, line.as_slice(), 3),
        Err(NoMemory) => 6,
    }
}
