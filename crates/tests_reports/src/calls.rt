//! The lines of single calls, read from the front of a text and printed again.

use call_read::read_call;
use layout_text::TextError;
use report_text::print_call;
use std::alloc::Global;
use std::test::Fail;

/// The lines of a call, and what stands behind them and doesn't belong to it. No order is asked of its
/// places.
const CALLS: [(&[u8], &[u8]); 4] = [
    (
        b"call 16.1 from 5 at 3 to 0 write /a 0 61*1 = failed 0.1\n",
        b"take 0 3 65537 hole\n",
    ),
    (
        b"call 1.3 from 7 at 10 to 11 read /a 0 3 = bytes 61*3
take 0 2 65537 0.1@2
take 2 3 65538 hole
",
        b"take 3 4 65537 64.1@2\n",
    ),
    (
        b"call 1.3 from 7 at 10 to 11 read /a 0 3 = bytes -\n",
        b"take 0 3 65537 0.1@2",
    ),
    (
        b"call 2.1 from 1 at 2 to 3 lfs mirror verify /a = differ 1
differ 65537 131074 2 63 64
",
        b"differ 65537 131074 3 63 64\n",
    ),
];

/// Texts that begin with no call's lines, and the first line with which none goes on.
const OTHERS: [(&[u8], u32); 5] = [
    (b"", 1),
    (b"take 0 3 65537 hole\n", 1),
    (b"call 1.1 from 1 at 1 to 1 evict 1 = evicted 1", 1),
    (b"call 1.1 from 1 at 1 to 1 evict 1 = layout\n", 2),
    (
        b"call 2.1 from 1 at 2 to 3 lfs mirror verify /a = differ 2
differ 65537 131074 2 63 64
call 2.2 from 4 at 4 to 4 evict 1 = evicted 1
",
        3,
    ),
];

/// Whether the call is read, also where this stands behind its lines, and printed again.
fn is_read(alloc: Global, lines: &[u8], behind: &[u8]) -> Result<bool, TextError> {
    let mut text = Vec::from_slice(alloc, lines)?;
    text.extend_from_slice(behind)?;
    let (call, length) = read_call(alloc, &text)?;
    let printed = print_call(alloc, &call)?;
    Ok(length == lines.len() && printed.as_slice() == lines)
}

#[test]
fn calls_are_read_and_printed(rt: HostRuntime) -> Result<(), Fail> {
    let mut right = true;
    for (lines, behind) in CALLS {
        right = right && is_read(rt.alloc(), lines, behind)?;
    }
    for (text, line) in OTHERS {
        right = right && read_call(rt.alloc(), text).err() == Some(TextError::Bad { line });
    }
    assert!(rt; right);
    Ok(())
}
