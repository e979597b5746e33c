//! Whole reports, read and written again.

use flr_base::{Ids, MemSink, NoMemory, put_decimal};
use layout_text::TextError;
use report_text::write_report;
use std::alloc::Global;
use std::test::Fail;
use whole_report::{read_report, through_text};

const EMPTY: &[u8] = b"flr-report 1\nschedule\n";

/// Each answer, and at least one line of each kind. Of a history nobody asks that it can be.
const EVERY: &[u8] = b"flr-report 1
call 1.1 from 1 at 1 to 1 lfs setstripe -E -1 -S 1048576 -c 1 /a = created
call 1.2 from 2 at 2 to 2 lfs getstripe /a = layout
layout generation 2 state 0 next 2 2 components 1
component 65537 mirror 1 flags init extent 0 EOF size 65536 count 2 objects 0.1,1.1
call 1.3 from 3 at 3 to 3 lfs setstripe --comp-set -I 65537 --comp-flags=prefer,^offline,nosync,stale /a = set
call 1.4 from 4 at 4 to 4 lfs mirror split --mirror-id 1 /a = split /a.mirror~1
call 1.5 from 5 at 5 to 5 lfs mirror delete --mirror-id 65535 /a = removed 65535
call 16.4294967295 from 6 at 6 to 6 evict 16 = evicted 16
call 2.1 from 7 at 9 to 10 read /a 65530 65552 = bytes 00*6+61*1+62*1+ff*4294
take 65530 65536 65537 0.1@2
take 65536 131072 65538 63.4294967295@4294967295
take 131072 131082 65537 hole
call 2.2 from 11 at 12 to 13 read /a 268435456 1048576 = bytes -
take 268435456 269484032 65537 hole
call 2.3 from 14 at 16 to 18 write /a 0 61*1+62*1+63*1 = written
call 3.1 from 8 at 17 to 19 truncate /a 1 = truncated
call 3.2 from 20 at 20 to 20 lfs mirror resync --only 2,1 /a = copied cleared 65538,131074 left 196611@0.1,4294967295@63.4294967295
call 3.3 from 21 at 21 to 21 lfs mirror extend -N --flags=prefer -E 65536 -S 65536 -c -1 -E -1 -S 1048576 -c 2 /a = copied cleared - left -
call 3.4 from 22 at 22 to 22 lfs mirror extend -N -f /b /a = merged 2,65535
call 3.5 from 23 at 23 to 23 lfs mirror verify /a = same 4294967295
call 3.6 from 24 at 24 to 24 lfs mirror verify /a = differ 2
differ 65537 131074 2 63 64
differ 65537 196611 18446744073709551615 00 ff
call 4.1 from 25 at 25 to 25 rot 63.4294967295 268435455 ff = rotted
call 4.2 from 26 at 26 to 26 read /c 0 1 = nofile /c
call 4.3 from 27 at 27 to 27 lfs mirror split --mirror-id 1 -f /b /a = exists /b
call 4.4 from 28 at 28 to 28 lfs mirror create -N -E -1 -S 1048576 -c 1 -N -E -1 -S 1048576 -c 1 /q = toomanyfiles
call 4.5 from 29 at 29 to 29 truncate /a 1099511627776 = toobig
call 4.6 from 30 at 30 to 30 write /a 0 61*1 = noprimary 0 18446744073709551614
call 4.7 from 31 at 31 to 31 truncate /a 0 = noprimary 0 EOF
call 4.8 from 32 at 32 to 32 read /a 0 1 = alloffline 18446744073709551615
call 4.9 from 33 at 34 to 34 read /a 0 1 = fault 0 by 0.4,1.3,0.4
call 4.10 from 35 at 35 to 35 read /a 0 1 = fault 18446744073709551615 by -
call 4.11 from 36 at 36 to 36 write /a 0 61*1 = failed 63.4294967295
call 4.12 from 37 at 37 to 37 write /a 0 61*1 = evicted at 4294967295
call 4.13 from 38 at 38 to 38 lfs mirror resync /a = busy 1
call 4.14 from 39 at 39 to 39 lfs mirror resync /a = broken at 9
call 4.15 from 40 at 40 to 40 lfs mirror delete --mirror-id 1 /a = lastfresh 1
call 4.16 from 41 at 41 to 41 lfs mirror split --mirror-id 2 -d /a = stalemirror 2
call 4.17 from 42 at 42 to 42 lfs mirror resync --only 65535 /a = nomirror 65535
call 4.18 from 43 at 43 to 43 lfs setstripe --comp-set -I 4294967295 --comp-flags=^prefer /a = nocomponent 4294967295
call 4.19 from 44 at 44 to 44 lfs mirror extend -N -E -1 -S 1048576 -c 1 /a = toomanymirrors
call 4.20 from 45 at 45 to 45 lfs mirror extend -N -E -1 -S 1048576 -c 1 /a = toomanycomponents
call 4.21 from 46 at 46 to 46 lfs mirror extend -N -f /b /a = differs at 2 61 62
call 4.22 from 47 at 47 to 47 lfs mirror extend -N -f /b /a = sizes 0 18446744073709551615
call 4.23 from 48 at 48 to 48 lfs mirror extend -N -f /b /a = copyfailed 0.1
call 4.24 from 49 at 49 to 49 lfs mirror verify /a = verifyfailed 63.1
call 4.25 from 50 at 50 to 50 rot 0.1 0 00 = noobject
file /a size 18446744073709551615
layout generation 2 state wp next 3 3 components 2
component 65537 mirror 1 flags init extent 0 EOF size 1048576 count 1 objects 0.1
component 131074 mirror 2 flags stale extent 0 EOF size 1048576 count 1 objects -
file /a.mirror~1 size 0
layout generation 1 state 0 next 2 2 components 1
component 65537 mirror 1 flags 0 extent 0 EOF size 1048576 count 1 objects -
schedule 1*5 16*1 2*1 3*1 2*8 3*1 2*1 3*6 4*26
";

/// What a run of one client wrote.
const FIRST: [&[u8]; 9] = [
    b"flr-report 1",
    b"call 1.1 from 1 at 1 to 1 lfs setstripe -E -1 -S 1048576 -c 1 /a = created",
    b"call 1.2 from 2 at 5 to 6 write /a 0 61*1+62*1+63*1 = written",
    b"call 1.3 from 7 at 10 to 11 read /a 0 3 = bytes 61*1+62*1+63*1",
    b"take 0 3 65537 0.1@2",
    b"file /a size 3",
    b"layout generation 2 state 0 next 2 2 components 1",
    b"component 65537 mirror 1 flags init extent 0 EOF size 1048576 count 1 objects 0.1",
    b"schedule 1*11",
];

/// The report of so many calls.
fn long(alloc: Global, calls: u64) -> Result<Vec<u8>, NoMemory> {
    let mut text = Vec::from_slice(alloc, b"flr-report 1\n")?;
    for call in 1..=calls {
        text.extend_from_slice(b"call 1.")?;
        put_decimal(&mut text, call)?;
        text.extend_from_slice(b" from ")?;
        put_decimal(&mut text, call)?;
        text.extend_from_slice(b" at ")?;
        put_decimal(&mut text, call)?;
        text.extend_from_slice(b" to ")?;
        put_decimal(&mut text, call)?;
        text.extend_from_slice(b" evict 1 = evicted 1\n")?;
    }
    text.extend_from_slice(b"schedule 1*")?;
    put_decimal(&mut text, calls)?;
    text.push(b'\n')?;
    Ok(text)
}

/// Whether the report is read, also from its own text, and written as it was.
fn is_kept(alloc: Global, text: &[u8]) -> Result<bool, TextError> {
    let report = read_report(alloc, text)?;
    let is_read_again = through_text(alloc, &report).is_ok();
    let mut out = MemSink::new(alloc, Ids::new(alloc));
    let is_written = write_report(alloc, &mut out, &report).is_ok();
    Ok(is_read_again && is_written && out.into_bytes().as_slice() == text)
}

#[test]
fn reports_are_read_and_written(rt: HostRuntime) -> Result<(), Fail> {
    let empty = is_kept(rt.alloc(), EMPTY)?;
    let every = is_kept(rt.alloc(), EVERY)?;
    let long = long(rt.alloc(), 5000)?;
    let many = is_kept(rt.alloc(), &long)?;
    assert!(rt; empty && every && many);
    Ok(())
}

#[test]
fn fronts_of_a_report_are_refused(rt: HostRuntime) -> Result<(), Fail> {
    let mut text = Vec::new(rt.alloc());
    let mut line: u32 = 0;
    let mut right = true;
    for next in FIRST {
        line = line.saturating_add(1);
        right = right && read_report(rt.alloc(), &text).err() == Some(TextError::Bad { line });
        text.extend_from_slice(next)?;
        text.push(b'\n')?;
    }
    let whole = is_kept(rt.alloc(), &text)?;
    assert!(rt; right && whole);
    Ok(())
}
