//! The call of `flr soak`.

ghost use Rattle.std.specs.Prelude.{◌≡◌, ◌⊎◌, ◌<◌, ◌≤◌, ◌^◌, IfOk};
ghost use Rattle.std.specs.Io.KnownBytes.{Keeps};
ghost use Rattle.flr_base.specs.Causes.{Rose};
ghost use Rattle.flr_statuses.specs.Statuses.{Told, TookFront};
ghost use Rattle.flr_soak.specs.Counts.{IsSoakLine};

use crate::line::line;
use crate::soaking::soak;
use flr_base::{NoMemory, Octets, Sink};
use flr_statuses::written;
use flr_world::World;
use script_values::{Generator, draw_script};
use std::alloc::Global;

/// The line of the run that these numbers make.
#[tactic(auto, using(crate::proofs::Ending::soak_line_is, crate::proofs::Ending::made_for))]
fn soaked(alloc: Global, seed: u32, clients: u8, calls: u8) -> Result<Octets, NoMemory>
    requires seed { seed < 2 ^ 31 }
    requires clients { (1 ≤ clients) × (clients ≤ 16) }
    requires calls { 1 ≤ calls }
    ensures { IfOk result (IsSoakLine seed clients calls) }
{
    let mut generator = Generator::new(seed);
    let script = draw_script(alloc, &mut generator, clients, calls)?;
    let mut world = World::start(alloc, script)?;
    soak(&mut world, &mut generator, clients)?;
    line(alloc, seed, clients, calls, &world)
}

/// Makes a script of so many clients with so many calls each from the numbers of a seed, and a run of it
/// from the numbers behind them, and writes one line: how many steps the run has, how many calls were
/// answered as reads, writes, resyncs and verifies, how many bytes were read, and how many clients have a
/// command left. The run goes on until nobody has one, so that number is 0, and it is sound.
///
/// Status 0: the line is written. 5: the sink failed, after a front of it. 6: memory ran out, nothing is
/// written, and the sink didn't fail. Nothing is read. The numbers and the line are this project's own.
pub fn soak_main<K: Sink>(alloc: Global, seed: u32, clients: u8, calls: u8, out: &mut K) -> u8
    requires seed { seed < 2 ^ 31 }
    requires clients { (1 ≤ clients) × (clients ≤ 16) }
    requires calls { 1 ≤ calls }
    ensures done { result ≡ 0 → Told (IsSoakLine seed clients calls) (K.taken out.old) (K.taken out.new) }
    ensures write { result ≡ 5 → Rose (K.faults out.old) (K.faults out.new) }
    ensures write_front { result ≡ 5 → TookFront (IsSoakLine seed clients calls) (K.taken out.old) (K.taken out.new) }
    ensures memory { result ≡ 6 → Keeps (K.taken out.old) (K.taken out.new) }
    ensures no_fault { result ≡ 6 → K.faults out.new ≡ K.faults out.old }
    ensures status { (result ≡ 0) ⊎ ((result ≡ 5) ⊎ (result ≡ 6)) }
{
    match soaked(alloc, seed, clients, calls) {
        Ok(line) => written(out, line.as_slice(), 0),
        Err(NoMemory) => 6,
    }
}
