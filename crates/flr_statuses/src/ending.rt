//! What a call writes.

ghost use Rattle.std.specs.Prelude.{◌≡◌, ◌≢◌, ◌⊎◌};
ghost use Rattle.std.specs.Io.KnownBytes.{Appends};
ghost use Rattle.flr_base.specs.Causes.{Rose};
ghost use Rattle.flr_statuses.specs.Statuses.{TakesFront};

use flr_base::{Sink, write_all};

/// The status of a call whose output can't be written.
const WRITE_FAULT: u8 = 5;

/// Writes the text that a call ends with: its status where the sink took the text whole, else 5.
pub fn written<K: Sink>(out: &mut K, text: &[u8], status: u8) -> u8
    requires { status ≢ 5 }
    ensures status { (result ≡ status) ⊎ (result ≡ 5) }
    ensures whole { result ≡ status → Appends (K.taken out.old) (K.taken out.new) text.now }
    ensures cause { result ≡ 5 → Rose (K.faults out.old) (K.faults out.new) }
    ensures kept { result ≢ 5 → K.faults out.new ≡ K.faults out.old }
    ensures front { result ≡ 5 → TakesFront (K.taken out.old) (K.taken out.new) text.now }
{
    match write_all(out, text) {
        Ok(()) => status,
        Err(_) => WRITE_FAULT,
    }
}
