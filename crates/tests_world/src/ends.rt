//! A source and a sink that go on in small steps and then fail.

ghost use Rattle.std.specs.Prelude.{None};

use crate::scripts::{FIRST, FIRST_REPORT};
use flr_base::{Failed, Ids, MemSink, MemSource, Octets, Sink, Source};
use flr_top::replay_main;
use std::alloc::{AllocError, Global};
use std::test::Fail;

/// Gives at most sixteen bytes a call, and fails once it has given so many pieces.
#[derive(Drop)]
struct Drips {
    bytes: &'static [u8],
    left: usize,
    faults: u64,
}

impl Source for Drips {
    ghost left = { λ source. None };

    ghost faults = { λ source. source.faults };

    fn read(&mut self, buf: &mut [u8]) -> Result<usize, Failed> {
        if self.left == 0 {
            self.faults = self.faults.saturating_add(1);
            return Err(Failed);
        }
        let count = self.bytes.len().min(buf.len()).min(16);
        let (piece, rest) = self.bytes.split_at(count);
        buf[..count].copy_from_slice(piece);
        self.bytes = rest;
        self.left -= 1;
        Ok(count)
    }
}

/// Takes at most sixteen bytes a call, and fails once it has taken so many pieces.
#[derive(Drop)]
struct Sips {
    bytes: Vec<u8>,
    left: usize,
    faults: u64,
}

impl Sink for Sips {
    ghost taken = { λ sink. None };

    ghost faults = { λ sink. sink.faults };

    fn write(&mut self, piece: &[u8]) -> Result<usize, Failed> {
        let count = piece.len().min(16);
        if self.left == 0 || self.bytes.extend_from_slice(&piece[..count]).is_err() {
            self.faults = self.faults.saturating_add(1);
            return Err(Failed);
        }
        self.left -= 1;
        Ok(count)
    }
}

/// What a replay of the first script ends with and writes, whose source and sink fail the listed calls.
fn replayed(alloc: Global, reads: &[u32], writes: &[u32]) -> Result<(u8, Octets), AllocError> {
    let bytes = Octets::from_vec(Vec::from_slice(alloc, FIRST)?);
    let reads = Ids::from_vec(Vec::from_slice(alloc, reads)?);
    let writes = Ids::from_vec(Vec::from_slice(alloc, writes)?);
    let mut out = MemSink::new(alloc, writes);
    let status = replay_main(alloc, &mut MemSource::new(bytes, reads), &mut out);
    Ok((status, out.into_bytes()))
}

#[test]
fn ends_fail_at_each_call(rt: HostRuntime) -> Result<(), Fail> {
    let alloc = rt.alloc();
    let mut read_faults: u32 = 0;
    let mut write_faults: u32 = 0;
    for call in 1..=40 {
        let (status, text) = replayed(alloc, &[call], &[])?;
        if status == 4 && text.as_slice() == b"flr: read fault\n".as_slice() {
            read_faults = read_faults.saturating_add(1);
        }
        assert!(rt; status == 4 || text.as_slice() == FIRST_REPORT);
        let (status, text) = replayed(alloc, &[], &[call])?;
        if status == 5 && FIRST_REPORT.starts_with(text.as_slice()) {
            write_faults = write_faults.saturating_add(1);
        }
        assert!(rt; status == 5 || text.as_slice() == FIRST_REPORT);
    }
    assert!(rt; read_faults == 2 && write_faults >= 6);
    Ok(())
}

#[test]
fn ends_fail_in_mid_stream(rt: HostRuntime) -> Result<(), Fail> {
    // How many pieces are read and written: the status, and what was taken.
    let rows: [(usize, usize, u8, &[u8]); 4] = [
        (100, 100, 0, FIRST_REPORT),
        (3, 100, 4, b"flr: read fault\n"),
        (3, 0, 5, b""),
        (100, 2, 5, b"flr-report 1\ncall 1.1 from 1 "),
    ];
    for (reads, writes, status, taken) in rows {
        let mut input = Drips {
            bytes: FIRST,
            left: reads,
            faults: 0,
        };
        let mut out = Sips {
            bytes: Vec::new(rt.alloc()),
            left: writes,
            faults: 0,
        };
        let ended = replay_main(rt.alloc(), &mut input, &mut out);
        assert!(rt; ended == status && out.bytes.as_slice() == taken);
    }
    Ok(())
}
