//! The line of a soak. Its text is this project's own.

ghost use Rattle.std.specs.Prelude.{◌≡◌, IfOk};
ghost use Rattle.flr_base.specs.Puts.{Puts};
ghost use Rattle.flr_steps.specs.States.{IsRun};
ghost use Rattle.flr_soak.specs.Counts.{counted, soak_line};

use crate::counting::{Kind, bytes_read, count};
use flr_base::{NoMemory, Octets, put_decimal};
use flr_world::World;
use std::alloc::Global;

/// Appends a word, and a number behind it.
#[tactic(auto, using(flr_base::proofs::Puts::puts))]
fn put(out: &mut Vec<u8>, word: &[u8], number: u64) -> Result<(), NoMemory>
    ensures { Puts out.old.items out.new.items result (counted word.now number) }
{
    out.extend_from_slice(word)?;
    put_decimal(out, number)
}

/// The line that tells what a world comes to that was made from these numbers.
pub(crate) fn line(
    alloc: Global,
    seed: u32,
    clients: u8,
    calls: u8,
    world: &World,
) -> Result<Octets, NoMemory>
    requires run { IsRun world.now }
    ensures { IfOk result (λ line. line ≡ soak_line seed clients calls world.now) }
{
    let entries = world.entries();
    let mut out = Vec::new(alloc);
    put(&mut out, b"soak seed ", u64::from(seed))?;
    put(&mut out, b" clients ", u64::from(clients))?;
    put(&mut out, b" calls ", u64::from(calls))?;
    put(&mut out, b" steps ", world.schedule().len() as u64)?;
    put(&mut out, b" reads ", count(entries, Kind::Read))?;
    put(&mut out, b" writes ", count(entries, Kind::Write))?;
    put(&mut out, b" resyncs ", count(entries, Kind::Copy))?;
    put(&mut out, b" verifies ", count(entries, Kind::Verify))?;
    put(&mut out, b" bytes ", bytes_read(entries))?;
    put(&mut out, b" unfinished ", u64::from(world.left()))?;
    out.push(b'\n')?;
    Ok(Octets::from_vec(out))
}
