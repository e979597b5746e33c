//! The report as the last thing that a call of the program writes.

ghost use Rattle.std.specs.Prelude.{◌≡◌, ◌≢◌, ◌⊎◌};
ghost use Rattle.std.specs.Io.KnownBytes.{Appends};
ghost use Rattle.flr_base.specs.Causes.{Rose};
ghost use Rattle.flr_statuses.specs.Statuses.{TakesFront};
ghost use Rattle.flr_steps.specs.Reports.{text_of_run};

use crate::world::World;
use flr_base::Sink;
use report_text::WriteError;

/// Writes the report of a world, and says how that ended. 0: it is written whole. 5: the sink failed, after
/// a front of it. 6: memory ran out, after a front of it, and the sink didn't fail.
pub fn reported<K: Sink>(world: &World, out: &mut K) -> u8
    ensures whole { result ≡ 0 → Appends (K.taken out.old) (K.taken out.new) (text_of_run world.now) }
    ensures cause { result ≡ 5 → Rose (K.faults out.old) (K.faults out.new) }
    ensures kept { result ≢ 5 → K.faults out.new ≡ K.faults out.old }
    ensures front { TakesFront (K.taken out.old) (K.taken out.new) (text_of_run world.now) }
    ensures status { (result ≡ 0) ⊎ ((result ≡ 5) ⊎ (result ≡ 6)) }
{
    match world.report(out) {
        Ok(()) => 0,
        Err(WriteError::Failed) => 5,
        Err(WriteError::NoMemory) => 6,
    }
}
