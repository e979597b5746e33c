use flr_base::{NoMemory, put_decimal};
use layout_text::{TextError, has_text, next_layout, print_layout, read_layout, through_text};
use std::alloc::Global;
use std::test::Fail;

/// Layouts, and what stands behind them.
const LAYOUTS: [(&[u8], &[u8]); 6] = [
    (
        b"layout generation 2 state 0 next 2 2 components 1
component 65537 mirror 1 flags init extent 0 EOF size 1048576 count 1 objects 0.1
",
        b"schedule 1*11\n",
    ),
    (
        b"layout generation 2 state wp next 3 3 components 2
component 65537 mirror 1 flags init extent 0 EOF size 1048576 count 1 objects 0.1
component 131074 mirror 2 flags stale extent 0 EOF size 1048576 count 1 objects -
",
        b"",
    ),
    (
        b"layout generation 3 state sp next 3 3 components 2
component 65537 mirror 1 flags init extent 0 EOF size 1048576 count 1 objects 0.1
component 131074 mirror 2 flags init,stale extent 0 EOF size 1048576 count 1 objects 1.1
",
        b"layout",
    ),
    (
        b"layout generation 2 state 0 next 2 4 components 3
component 65537 mirror 1 flags init extent 0 1048576 size 1048576 count 1 objects 0.1
component 65538 mirror 1 flags init extent 1048576 2097152 size 1048576 count 1 objects 0.2
component 65539 mirror 1 flags 0 extent 2097152 EOF size 1048576 count 1 objects -
",
        b"\n",
    ),
    (
        b"layout generation 2 state 0 next 2 2 components 1
component 65537 mirror 1 flags init extent 0 EOF size 65536 count 2 objects 0.1,1.1
",
        b"file /a size 3\n",
    ),
    (
        b"layout generation 4294967295 state ro next 4 65536 components 2
component 65537 mirror 1 flags init,prefer,offline,nosync extent 0 EOF size 65536 count 1 objects 63.4294967295
component 262143 mirror 3 flags 0 extent 0 EOF size 1073741824 count 64 objects -
",
        b"",
    ),
];

/// Texts that are no layout's, and the first line with which none goes on.
const REFUSED: [(&[u8], u32); 8] = [
    (b"", 1),
    (b"layout generation 02 state 0 next 2 2 components 1\n", 1),
    (b"layout generation 2 state 0 next 2 2 components 1", 1),
    (b"layout generation 2 state 0 next 2 2 components 1\n", 2),
    (b"layout generation 2 state ro next 2 3 components 2\n", 1),
    (
        b"layout generation 2 state 0 next 2 2 components 1
component 65537 mirror 1 flags init extent 0 65536 size 1048576 count 1 objects 0.1
",
        2,
    ),
    (
        b"layout generation 2 state 0 next 2 2 components 1
component 65537 mirror 1 flags stale,init extent 0 EOF size 1048576 count 1 objects 0.1
",
        2,
    ),
    (
        b"layout generation 2 state 0 next 2 2 components 1
component 65537 mirror 1 flags init extent 0 EOF size 1048576 count 1 objects 0.1

",
        3,
    ),
];

/// The layout of a mirror that is cut into so many components.
fn long(alloc: Global, components: u64) -> Result<Vec<u8>, NoMemory> {
    let mut text = Vec::from_slice(alloc, b"layout generation 1 state 0 next 2 ")?;
    put_decimal(&mut text, components.saturating_add(1))?;
    text.extend_from_slice(b" components ")?;
    put_decimal(&mut text, components)?;
    text.push(b'\n')?;
    for number in 1..=components {
        text.extend_from_slice(b"component ")?;
        put_decimal(&mut text, number.saturating_add(65536))?;
        text.extend_from_slice(b" mirror 1 flags 0 extent ")?;
        put_decimal(&mut text, number.saturating_sub(1).saturating_mul(65536))?;
        text.push(b' ')?;
        if number == components {
            text.extend_from_slice(b"EOF")?;
        } else {
            put_decimal(&mut text, number.saturating_mul(65536))?;
        }
        text.extend_from_slice(b" size 65536 count 1 objects -\n")?;
    }
    Ok(text)
}

/// Whether the layout is read, also where this stands behind it, and printed again.
fn is_read(alloc: Global, text: &[u8], behind: &[u8]) -> Result<bool, TextError> {
    let layout = read_layout(alloc, text)?;
    has_text(&layout);
    let layout = through_text(alloc, &layout)?;
    let mut both = print_layout(alloc, &layout)?.into_vec();
    let is_printed = both.as_slice() == text;
    both.extend_from_slice(behind)?;
    let (layout, rest) = next_layout(alloc, &both)?;
    let printed = print_layout(alloc, &layout)?;
    Ok(is_printed && rest == behind && printed.as_slice() == text)
}

#[test]
fn layouts_are_read_and_printed(rt: HostRuntime) -> Result<(), Fail> {
    let mut right = true;
    for (text, behind) in LAYOUTS {
        right = right && is_read(rt.alloc(), text, behind)?;
    }
    let long = long(rt.alloc(), 1000)?;
    right = right && is_read(rt.alloc(), &long, b"")?;
    for (text, line) in REFUSED {
        right = right && read_layout(rt.alloc(), text).err() == Some(TextError::Bad { line });
    }
    assert!(rt; right);
    Ok(())
}
