//! A report in which one line is changed, and the line at which it is refused.

use flr_base::NoMemory;
use layout_text::TextError;
use std::alloc::Global;
use std::test::*;
use text_words::{number, parts};
use whole_report::read_report;

const GOOD: [&[u8]; 15] = [
    b"flr-report 1",
    b"call 1.1 from 1 at 1 to 1 lfs setstripe -E -1 -S 1048576 -c 1 /a = created",
    b"call 1.2 from 2 at 5 to 6 write /a 0 61*1+62*1+63*1 = written",
    b"call 1.3 from 7 at 10 to 11 read /a 0 3 = bytes 61*1+62*1+63*1",
    b"take 0 3 65537 0.1@2",
    b"call 2.1 from 9 at 12 to 13 lfs mirror verify /a = differ 1",
    b"differ 65537 131074 2 63 64",
    b"call 2.2 from 14 at 14 to 14 lfs getstripe /a = layout",
    b"layout generation 2 state 0 next 2 2 components 1",
    b"component 65537 mirror 1 flags init extent 0 EOF size 1048576 count 1 objects 0.1",
    b"call 2.3 from 15 at 15 to 16 truncate /a 0 = noprimary 0 EOF",
    b"file /a size 3",
    b"layout generation 2 state 0 next 2 2 components 1",
    b"component 65537 mirror 1 flags init extent 0 EOF size 1048576 count 1 objects 0.1",
    b"schedule 1*8 2*1 1*2 2*5",
];

/// Rows of pieces with bars between them: the number of a line, a front, an end, and then what stands
/// between these two. With each of it they make a line that is at fault in the place of that line.
const ROWS: &[u8] = b"1||||flr-report|flr-report 2|flr-report 01|flr-report 1 | flr-report 1
2|call | from 1 at 1 to 1 evict 1 = set|0.1|17.1|1.0|1.01|1.4294967296|1|
2|call 1.1 | evict 1 = set|from 0 at 1 to 1|from 01 at 1 to 1|at 1 from 1 to 1|from 1 at 1
2|call 1.1 from 1 at 1 to 1 | = set|evict 17|rot 64.1 0 00|read /a 0 0||evict 1 | evict 1|evict 1 =
2|call 1.1 from 1 at 1 to 1 lfs | = set|setstripe /a|mirror create -N2 -E -1 -S 1048576 -c 1 /a
2|call 1.1 from 1 at 1 to 1 evict 1|||set| set| =| = | =  set| = set | = Set| = set set| = stuck
3|call 1.2 | write /a 0 61*1 = written|from 6 at 5 to 6|from 2 at 7 to 6|from 1 at 1 to 6
4|call 1.3 | read /a 0 3 = bytes 61*3|from 4 at 4 to 11|from 5 at 5 to 11
3|call 1.2 from 2 at 5 to 6 evict 1 = bytes||| | 61*0| 61*1+61*1| 6A*1| 61*4294967296
3|call 1.2 from 2 at 5 to 6 evict 1 = evicted||| 0| 17| 1 1| at 4294967296| at 01
3|call 1.2 from 2 at 5 to 6 evict 1 = copied cleared ||2,1 left -|1,1 left -|- left 2@0.1,1@0.1|- left 1@64.1|-
3|call 1.2 from 2 at 5 to 6 evict 1 = merged||| 2,1| 2,,3| 4294967296
3|call 1.2 from 2 at 5 to 6 evict 1 = noprimary ||0 18446744073709551615|0 eof|0 -1|EOF EOF|0 01|0
3|call 1.2 from 2 at 5 to 6 evict 1 = fault ||0 by 0.1,64.1|0 by|0 at 0.1|18446744073709551616 by -
3|call 1.2 from 2 at 5 to 6 evict 1 = ||failed 64.1|failed 0.01|failed 0.4294967296|copyfailed 64.1
3|call 1.2 from 2 at 5 to 6 evict 1 = ||removed 65536|same 4294967296|nocomponent 4294967296|busy 17
3|call 1.2 from 2 at 5 to 6 evict 1 = ||split a|exists /|broken 9|differs at 2 61|sizes 0|noobject 1
5||||differ 65537 131074 2 63 64
5|take ||0 3 65537 64.1@2|0 3 65537 0.1|0 3 65537 Hole|0 EOF 65537 hole|00 3 65537 hole|0 3 65537
6|call 2.1 from 9 at 12 to 13 evict 1 = differ||| 01| -1
7|||take 0 3 65537 hole|differ 65537 131074 2 63|differ 65537 131074 2 63 6A
9|layout generation | state 0 next 2 2 components 1|02|0
10|component 65537 mirror 1 flags init extent 0 | size 1048576 count 1 objects 0.1|65536|-1
10|component 65537 mirror 1 flags init extent 0 EOF size 1048576 count 1 objects ||64.1|0.1,1.1
12|file ||/a size 03|/a size 18446744073709551616|/a size 3 |/a  size 3|/a 3|a size 3
13|layout generation | state 0 next 2 2 components 1|02|0
15|schedule||| | 1*15| 1*8 2*1 2*7| 1*15 2| 0*1 1*16| 1*16 17*1| 1*16 2*0| 1*4294967296
15|schedule||  1*16| 1*16 | 01*16| 1*016";

/// Lines in place of one, and the line at which the report is then refused.
const PIECES: [(u64, &[u8], u64); 18] = [
    (15, b"", 15),
    (15, b"schedule 1*16", 15),
    (15, b"schedule 1*16\r\n", 15),
    (15, b"schedule 1*16\n\n", 16),
    (15, b"schedule 1*16\nschedule 1*16", 16),
    // a last step behind the last place
    (11, b"call 2.3 from 15 at 15 to 17 evict 1 = set\n", 15),
    // what comes behind the calls, in their midst
    (3, b"schedule 1*16\n", 4),
    (3, b"file /b size 0\n", 4),
    (
        3,
        b"file /b size 0
layout generation 1 state 0 next 2 2 components 1
component 65537 mirror 1 flags 0 extent 0 EOF size 1048576 count 1 objects -
",
        6,
    ),
    // a take behind another answer than that of a read
    (4, b"", 4),
    (4, b"call 1.3 from 7 at 10 to 11 evict 1 = set\n", 5),
    // another number of differences than was told
    (6, b"call 2.1 from 9 at 12 to 13 evict 1 = differ 2\n", 8),
    (6, b"call 2.1 from 9 at 12 to 13 evict 1 = differ 0\n", 7),
    (7, b"", 7),
    // a layout without its first line, or with too few components
    (9, b"", 9),
    (10, b"", 10),
    (12, b"", 12),
    (
        9,
        b"layout generation 2 state 0 next 2 3 components 2\n",
        10,
    ),
];

/// Rows of pieces with bars between them: the number of a line, a count, a front, a middle and an end. With
/// the middle so many times they make a line that is read in the place of that line, and with it once more
/// one that is at fault.
const LONGEST: &[u8] = b"2|140|call 1.1 from 1 at 1 to 1 evict 1 = split /|a|
2|140|call 1.1 from 1 at 1 to 1 evict 1 = exists /|a|
2|127|call 1.1 from 1 at 1 to 1 evict 1 = nofile /|a|
2|127|call 1.1 from 1 at 1 to 1 lfs getstripe /|a| = set
2|32|call 1.1 from 1 at 1 to 1 lfs mirror create| -N -E -1 -S 65536 -c 1| /a = set
12|140|file /|a| size 3";

/// The line at which the report is refused that has this in place of one of its lines.
fn fault(alloc: Global, place: u64, text: &[u8]) -> Result<Option<u64>, NoMemory> {
    let mut report = Vec::new(alloc);
    let mut at: u64 = 0;
    for line in GOOD {
        at = at.saturating_add(1);
        if at == place {
            report.extend_from_slice(text)?;
        } else {
            report.extend_from_slice(line)?;
            report.push(b'\n')?;
        }
    }
    match read_report(alloc, &report) {
        Ok(_) => Ok(None),
        Err(TextError::Bad { line }) => Ok(Some(u64::from(line))),
        Err(TextError::NoMemory) => Err(NoMemory),
    }
}

/// A line of a front, a middle so many times, and an end.
fn joined(
    alloc: Global,
    front: &[u8],
    middle: &[u8],
    times: u64,
    end: &[u8],
) -> Result<Vec<u8>, NoMemory> {
    let mut text = Vec::from_slice(alloc, front)?;
    for _ in 0..times {
        text.extend_from_slice(middle)?;
    }
    text.extend_from_slice(end)?;
    text.push(b'\n')?;
    Ok(text)
}

/// Appends those lines of the row that aren't at fault at its place.
fn put_wrong(wrong: &mut Vec<u8>, row: &[u8]) -> Result<(), NoMemory> {
    let alloc = *wrong.allocator();
    let pieces = parts(alloc, row, b'|')?;
    let [place, front, end, middles @ ..] = pieces.as_slice() else {
        wrong.extend_from_slice(row)?;
        return Ok(());
    };
    let place = number(place).unwrap_or(0);
    for middle in middles {
        let text = joined(alloc, front, middle, 1, end)?;
        if fault(alloc, place, &text)? != Some(place) {
            wrong.extend_from_slice(&text)?;
        }
    }
    Ok(())
}

/// Whether the line of the row is read with its middle so often, and is at fault with it once more.
fn is_longest(alloc: Global, row: &[u8]) -> Result<bool, NoMemory> {
    let pieces = parts(alloc, row, b'|')?;
    let [place, most, front, middle, end] = pieces.as_slice() else {
        return Ok(false);
    };
    let place = number(place).unwrap_or(0);
    let most = number(most).unwrap_or(0);
    let longest = joined(alloc, front, middle, most, end)?;
    let longer = joined(alloc, front, middle, most.saturating_add(1), end)?;
    let is_read = fault(alloc, place, &longest)?.is_none();
    Ok(is_read && fault(alloc, place, &longer)? == Some(place))
}

#[test]
fn lines_are_at_fault(rt: HostRuntime) -> Result<(), Fail> {
    let mut wrong = Vec::new(rt.alloc());
    for row in &parts(rt.alloc(), ROWS, b'\n')? {
        put_wrong(&mut wrong, *row)?;
    }
    assert_eq!(rt; wrong.as_slice(), b"".as_slice());
    Ok(())
}

#[test]
fn texts_are_at_fault(rt: HostRuntime) -> Result<(), Fail> {
    let alloc = rt.alloc();
    let mut right = fault(alloc, 0, b"")?.is_none();
    for (place, text, refused) in PIECES {
        right = right && fault(alloc, place, text)? == Some(refused);
    }
    for row in &parts(alloc, LONGEST, b'\n')? {
        right = right && is_longest(alloc, *row)?;
    }
    assert!(rt; right);
    Ok(())
}
