use flr_base::NoMemory;
use script_values::{Generator, make_script, print_script, work};
use std::alloc::Global;
use std::test::*;
use text_words::put_number;

/// The first ten numbers that are drawn from seed 1, each after a space.
fn put_draws(out: &mut Vec<u8>) -> Result<(), NoMemory> {
    let mut generator = Generator::new(1);
    for _ in 0..10 {
        put_number(out, u64::from(generator.draw()))?;
    }
    Ok(())
}

/// The script that seed 1 makes of one client with three commands, and its work.
fn put_made(alloc: Global, out: &mut Vec<u8>) -> Result<(), NoMemory> {
    let script = make_script(alloc, 1, 1, 3)?;
    let text = print_script(alloc, &script)?;
    out.extend_from_slice(text.as_slice())?;
    put_number(out, work(&script))
}

const MADE: &[u8] = b" 16838 5758 10113 17515 31051 5627 23010 7419 16212 4086
flr-script 2
targets 4
mirrors 16
client 1
lfs mirror create -N -E -1 -S 65536 -c 2 -N -E -1 -S 65536 -c 2 /s
lfs mirror resync /s
lfs mirror resync /s
write /s 560480 fb*2380
 560";

#[test]
fn seed_1_makes_its_script(rt: HostRuntime) -> Result<(), Fail> {
    let alloc = rt.alloc();
    let mut out = Vec::new(alloc);
    put_draws(&mut out)?;
    out.push(b'\n')?;
    put_made(alloc, &mut out)?;
    assert_eq!(rt; out.as_slice(), MADE);
    Ok(())
}
