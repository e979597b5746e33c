//! The call of `flr replay`.

ghost use Rattle.std.specs.Prelude.{◌≡◌, IfSome};
ghost use Rattle.std.specs.Io.KnownBytes.{Appends};
ghost use Rattle.flr_base.specs.Causes.{Rose};
ghost use Rattle.flr_statuses.specs.Statuses.{IsStatus, LeavesFront, Tells, TellsFront, read_fault_line};
ghost use Rattle.flr_replay.specs.Replays.{IsGoodInput, IsRefusal, IsReport};

use crate::play::{Played, replay};
use flr_base::{NoMemory, ReadError, Sink, Source, read_all};
use flr_statuses::written;
use flr_world::reported;
use std::alloc::Global;

/// How many bytes a script and its schedule may have.
const MOST_OF_INPUT: u32 = 67108864;

/// Reads a script with its schedule line, makes the steps of the schedule, and writes the report.
///
/// Status 0: the report is written. 3: the input is no script with a schedule, or the schedule doesn't fit
/// the script: its first step that can't be made is told, or the lowest client with a command left; one
/// line says why. 4: the source failed, and one line says so. 5: the sink failed, after a front of the
/// text. 6: memory ran out, when nothing or a front of the report was written, and neither end failed. The
/// statuses are our own.
pub fn replay_main<S: Source, K: Sink>(alloc: Global, input: &mut S, out: &mut K) -> u8
    // The input spells a script and a schedule, and what is written is the report of that very run: each
    // command stands in it once and has ended, at a moment of its own between its first and its last step.
    ensures done { result ≡ 0 → IfSome (S.left input.old) (λ bytes. Tells IsReport bytes (K.taken out.old) (K.taken out.new)) }
    // The line tells the exact cause.
    ensures refused { result ≡ 3 → IfSome (S.left input.old) (λ bytes. Tells IsRefusal bytes (K.taken out.old) (K.taken out.new)) }
    // An input that spells a script and a schedule that it takes isn't refused.
    ensures good { result ≡ 3 → IfSome (S.left input.old) (λ bytes. IsGoodInput bytes → ⊥) }
    ensures read { result ≡ 4 → Rose (S.faults input.old) (S.faults input.new) }
    ensures read_line { result ≡ 4 → Appends (K.taken out.old) (K.taken out.new) read_fault_line }
    ensures write { result ≡ 5 → Rose (K.faults out.old) (K.faults out.new) }
    ensures write_front { result ≡ 5 → IfSome (S.left input.old) (λ bytes. TellsFront IsReport IsRefusal bytes (S.faults input.old) (S.faults input.new) (K.taken out.old) (K.taken out.new)) }
    ensures memory { result ≡ 6 → IfSome (S.left input.old) (λ bytes. LeavesFront IsReport bytes (K.taken out.old) (K.taken out.new)) }
    ensures no_fault { result ≡ 6 → (S.faults input.new ≡ S.faults input.old) × (K.faults out.new ≡ K.faults out.old) }
    ensures status { IsStatus result }
{
    let bytes = match read_all(alloc, input, MOST_OF_INPUT) {
        Ok(bytes) => bytes,
        Err(ReadError::TooLong) => return written(out, b"flr: script: too long\n", 3),
        Err(ReadError::Failed) => return written(out, b"flr: read fault\n", 4),
        Err(ReadError::NoMemory) => return 6,
    };
    match replay(alloc, bytes.as_slice()) {
        Ok(Played::Whole(world)) => reported(&world, out),
        Ok(Played::Refused(line)) => written(out, line.as_slice(), 3),
        Err(NoMemory) => 6,
    }
}
