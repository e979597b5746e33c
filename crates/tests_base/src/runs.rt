//! Bytes by runs.

use flr_base::{Run, RunsError, print_runs, read_runs, runs_of};
use std::test::Fail;

/// What is read is printed again as it was.
#[test]
fn spellings(rt: HostRuntime) -> Result<(), Fail> {
    let rows: [(&[u8], &[u8]); 4] = [
        (b"-", b""),
        (b"61*2+62*1", b"aab"),
        (b"00*3+ff*1", b"\0\0\0\xff"),
        (b"0a*10", b"\n\n\n\n\n\n\n\n\n\n"),
    ];
    for (text, bytes) in rows {
        let read = read_runs(rt.alloc(), text, 10)?;
        let same = read.as_slice() == bytes;
        assert!(rt; same && read.len() <= 10 && print_runs(rt.alloc(), &read)?.as_slice() == text);
    }
    Ok(())
}

#[test]
fn refused_spellings(rt: HostRuntime) {
    let rows: [(&[u8], RunsError); 8] = [
        (b"", RunsError::Bad { at: 0 }),
        (b"6A*1", RunsError::Bad { at: 1 }),
        (b"61*0", RunsError::Bad { at: 3 }),
        (b"61*1+", RunsError::Bad { at: 5 }),
        (b"61*1+61*1", RunsError::Bad { at: 6 }),
        (b"61*4294967296", RunsError::Bad { at: 12 }),
        (b"61*4294967295", RunsError::TooLong),
        (b"61*3", RunsError::TooLong),
    ];
    for (text, cause) in rows {
        assert!(rt; read_runs(rt.alloc(), text, 2).err() == Some(cause));
    }
}

#[test]
fn runs(rt: HostRuntime) -> Result<(), Fail> {
    let wanted = [Run { byte: 97, count: 2 }, Run { byte: 98, count: 1 }];
    assert!(rt; runs_of(rt.alloc(), b"aab")?.as_slice() == wanted.as_slice());
    Ok(())
}
