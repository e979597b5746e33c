//! The call of `flr migrate`.

ghost use Rattle.std.specs.Prelude.{◌≡◌, IfSome};
ghost use Rattle.std.specs.Io.KnownBytes.{Appends, Keeps};
ghost use Rattle.flr_base.specs.Causes.{Rose};
ghost use Rattle.flr_statuses.specs.Statuses.{IsStatus, Tells, TellsFront, read_fault_line};
ghost use Rattle.flr_migrate.specs.Migrations.{IsMigrated, IsRefusal};

use crate::migrate::{MOST_OF_SCRIPT, Outcome, migrate};
use flr_base::{NoMemory, ReadError, Sink, Source, read_all};
use flr_statuses::written;
use std::alloc::Global;

/// Reads a script of either version to the end of the input, and writes its one printed form, which is
/// of version 2. Who reads the text reads the script that the input spells, so both give the same
/// report for every schedule.
///
/// Status 0: the text is written. 3: the input is no script, or its printed form has more than 1048576
/// bytes, and one line says why. 4: the source failed, and one line says so. 5: the sink failed, after
/// a front of the text. 6: memory ran out, nothing is written, and neither end failed. The input is read up to its first
/// byte that is too many for a script.
pub fn migrate_main<S: Source, K: Sink>(alloc: Global, input: &mut S, out: &mut K) -> u8
    // What is written is the printed form of the script that the input spells. It spells that script again.
    ensures done { result ≡ 0 → IfSome (S.left input.old) (λ bytes. Tells IsMigrated bytes (K.taken out.old) (K.taken out.new)) }
    // The line tells the exact cause.
    ensures refused { result ≡ 3 → IfSome (S.left input.old) (λ bytes. Tells IsRefusal bytes (K.taken out.old) (K.taken out.new)) }
    ensures read { result ≡ 4 → Rose (S.faults input.old) (S.faults input.new) }
    ensures read_line { result ≡ 4 → Appends (K.taken out.old) (K.taken out.new) read_fault_line }
    ensures write { result ≡ 5 → Rose (K.faults out.old) (K.faults out.new) }
    ensures write_front { result ≡ 5 → IfSome (S.left input.old) (λ bytes. TellsFront IsMigrated IsRefusal bytes (S.faults input.old) (S.faults input.new) (K.taken out.old) (K.taken out.new)) }
    ensures memory { result ≡ 6 → Keeps (K.taken out.old) (K.taken out.new) }
    ensures no_fault { result ≡ 6 → (S.faults input.new ≡ S.faults input.old) × (K.faults out.new ≡ K.faults out.old) }
    ensures status { IsStatus result }
{
    let bytes = match read_all(alloc, input, MOST_OF_SCRIPT) {
        Ok(bytes) => bytes,
        Err(ReadError::TooLong) => return written(out, b"flr: script: too long\n", 3),
        Err(ReadError::Failed) => return written(out, b"flr: read fault\n", 4),
        Err(ReadError::NoMemory) => return 6,
    };
    match migrate(alloc, bytes.as_slice()) {
        Ok(Outcome::Script(text)) => written(out, text.as_slice(), 0),
        Ok(Outcome::Refusal(text)) => written(out, text.as_slice(), 3),
        Err(NoMemory) => 6,
    }
}
