//! The readers of words and of lines.

use std::test::Fail;
use text_words::{
    cut, end, hex_byte, is_name, is_name_to, line_words, next_line, next_word, number, number_in,
    number_to, parts, size,
};

/// Each word as a number, as one from 1 to 64 and as one up to 64.
#[test]
fn numbers(rt: HostRuntime) {
    let rows: [(&[u8], [Option<u64>; 3]); 5] = [
        (b"0", [Some(0), None, Some(0)]),
        (b"64", [Some(64), Some(64), Some(64)]),
        (b"18446744073709551615", [Some(u64::MAX), None, None]),
        (b"18446744073709551616", [None, None, None]),
        (b"07", [None, None, None]),
    ];
    for (word, wanted) in rows {
        assert!(rt; [number(word), number_in(word, 1, 64), number_to(word, 64)] == wanted);
    }
}

/// Each word as a size, as an end and as two hexadecimal digits.
#[test]
fn sizes(rt: HostRuntime) {
    let rows: [(&[u8], Option<u64>, Option<u64>, Option<u8>); 6] = [
        (b"64k", Some(65536), Some(65536), None),
        (b"1G", Some(1 << 30), Some(1 << 30), None),
        (b"-1", None, Some(u64::MAX), None),
        (b"EOF", None, Some(u64::MAX), None),
        (b"18446744073709551615", None, None, None),
        (b"a7", None, None, Some(0xa7)),
    ];
    for (word, bytes, up_to, byte) in rows {
        assert!(rt; size(word) == bytes && end(word) == up_to && hex_byte(word) == byte);
    }
}

/// Each word as the name of a file, and as one of at most four bytes.
#[test]
fn names(rt: HostRuntime) {
    let rows: [(&[u8], bool, bool); 5] = [
        (b"/a", true, true),
        (b"/a.b_c-d~e/F9", true, false),
        (b"/", false, false),
        (b"a", false, false),
        (b"/a+", false, false),
    ];
    for (word, is, is_short) in rows {
        assert!(rt; is_name(word) == is && is_name_to(word, 4) == is_short);
    }
}

#[test]
fn first_parts(rt: HostRuntime) {
    let rows: [(Option<(&[u8], &[u8])>, Option<(&[u8], &[u8])>); 6] = [
        (next_word(b"  read  /a "), Some((b"read", b"  /a "))),
        (next_word(b"   "), None),
        (next_line(b"\ntwo"), Some((b"", b"two"))),
        (next_line(b"two"), None),
        (cut(b"--only=1=2", b'='), Some((b"--only", b"1=2"))),
        (cut(b"--only", b'='), None),
    ];
    for (found, wanted) in rows {
        assert!(rt; found == wanted);
    }
}

#[test]
fn all_parts(rt: HostRuntime) -> Result<(), Fail> {
    let wanted: [&[u8]; 3] = [b"a", b"", b"b"];
    let [first, _, last] = wanted;
    let words = line_words(rt.alloc(), b" a  b ")?;
    assert!(rt;
        parts(rt.alloc(), b"a  b", b' ')?.as_slice() == wanted.as_slice()
            && words.as_slice() == [first, last].as_slice()
    );
    Ok(())
}
