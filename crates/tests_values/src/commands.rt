use flr_base::NoMemory;
use script_values::{Command, print_command, read_command, through_command};
use std::alloc::Global;
use std::test::*;
use text_words::parts;

/// Whether the line is printed as itself once it is read, at once and through its own printed form.
fn is_kept(alloc: Global, line: &[u8]) -> Result<bool, NoMemory> {
    let Some(command) = read_command(alloc, line, 16)? else {
        return Ok(false);
    };
    let text = print_command(alloc, &command)?;
    let Some(again) = through_command(alloc, &command, 16)? else {
        return Ok(false);
    };
    Ok(text.as_slice() == line && print_command(alloc, &again)?.as_slice() == line)
}

/// Appends the lines of which this is not so.
fn put_wrong(wrong: &mut Vec<u8>, table: &[u8], kept: bool) -> Result<(), NoMemory> {
    let alloc = *wrong.allocator();
    for line in &parts(alloc, table, b'\n')? {
        if is_kept(alloc, *line)? != kept {
            wrong.extend_from_slice(*line)?;
            wrong.push(b'\n')?;
        }
    }
    Ok(())
}

const FORMS: &[u8] = b"read /a 0 1
read /a 268435456 1048576
write /a 0 61*1+62*1+63*1
write /a 1099511627776 00*1048576
truncate /a 0
truncate /a 1099511627776
evict 1
evict 16
rot 0.1 0 00
rot 63.4294967295 268435455 ff
lfs setstripe -E -1 -S 1048576 -c 1 /a
lfs setstripe -E 65536 -S 65536 -c -1 -E -1 -S 1048576 -c 2 /a
lfs setstripe --comp-set -I 65537 --comp-flags=prefer,^offline,nosync,stale /a
lfs getstripe /a
lfs mirror create -N -E -1 -S 1048576 -c 1 -N --flags=prefer -E -1 -S 1048576 -c 1 /a
lfs mirror extend -N -E -1 -S 1048576 -c 1 /a
lfs mirror extend -N -f /b /a
lfs mirror split --mirror-id 1 /a
lfs mirror split --mirror-id 1 -d /a
lfs mirror split --mirror-id 65535 -f /b /a
lfs mirror delete --mirror-id 2 /a
lfs mirror resync /a
lfs mirror resync --only 2,1 /a
lfs mirror verify /a";

const OTHERS: &[u8] = b"
read
read /a 0
read /a 0 0
read /a 0 1 
read  /a 0 1
read a 0 1
read /a 00 1
read /a 268435457 1
read /a 0 1048577
read /a 0 1 2
write /a 0 -
write /a 0 61*1+61*1
write /a 0 00*1048577
write /a 1099511627777 00*1
truncate /a 1k
truncate /a 1099511627777
evict 0
evict 17
rot 64.1 0 00
rot 0.0 0 00
rot 0.1 268435456 00
rot 0.1 0 0
rot 0.1 0 0A
punch /a 0
lfs
lfs setstripe /a
lfs setstripe -E -1 -S 1M -c 1 /a
lfs mirror create -N2 -E -1 -S 1048576 -c 1 /a
lfs mirror resync --only=1 /a
lfs mirror extend -N -f /a /a";

#[test]
fn commands_have_one_printed_form(rt: HostRuntime) -> Result<(), Fail> {
    let mut wrong = Vec::new(rt.alloc());
    put_wrong(&mut wrong, FORMS, true)?;
    put_wrong(&mut wrong, OTHERS, false)?;
    assert_eq!(rt; wrong.as_slice(), b"".as_slice());
    Ok(())
}
