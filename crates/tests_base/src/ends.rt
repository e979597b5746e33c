//! Sources and sinks, in memory and of the system.

use flr_base::{
    Failed, FromRead, Ids, MemSink, MemSource, NoMemory, Octets, ReadError, Sink, Source, ToWrite,
    read_all, write_all,
};
use std::alloc::Global;
use std::test::Fail;

fn failing(alloc: Global, call: u32) -> Result<Ids, NoMemory> {
    let mut calls = Ids::new(alloc);
    calls.push(call)?;
    Ok(calls)
}

/// Five thousand bytes.
fn bytes(alloc: Global) -> Result<Octets, NoMemory> {
    let mut bytes = Octets::new(alloc);
    for _ in 0..50 {
        bytes.extend_from_slice(&[7; 100])?;
    }
    Ok(bytes)
}

/// A source that fails in mid-stream: five thousand bytes come in two reads, and a third tells the end.
#[test]
fn reads(rt: HostRuntime) -> Result<(), Fail> {
    let rows: [(u32, u32, Result<usize, ReadError>); 5] = [
        (9, 5000, Ok(5000)),
        (9, 4999, Err(ReadError::TooLong)),
        (1, 5000, Err(ReadError::Failed)),
        (2, 4999, Err(ReadError::Failed)),
        (3, 5000, Err(ReadError::Failed)),
    ];
    for (call, most, wanted) in rows {
        let mut source = MemSource::new(bytes(rt.alloc())?, failing(rt.alloc(), call)?);
        let read = read_all(rt.alloc(), &mut source, most);
        assert!(rt; read.map(|bytes| bytes.len()) == wanted);
    }
    Ok(())
}

/// A sink that fails in mid-stream keeps what it took, and takes what comes behind.
#[test]
fn writes(rt: HostRuntime) -> Result<(), Fail> {
    let rows: [(u32, &[u8]); 3] = [(1, b"cde"), (2, b"abde"), (9, b"abcde")];
    for (call, kept) in rows {
        let mut sink = MemSink::new(rt.alloc(), failing(rt.alloc(), call)?);
        let mut answers = [Ok(()); 3];
        let pieces: [&[u8]; 3] = [b"ab", b"c", b"de"];
        for (answer, piece) in answers.iter_mut().zip(pieces) {
            *answer = write_all(&mut sink, piece);
        }
        let failed = answers.iter().filter(|answer| answer.is_err()).count();
        assert!(rt; failed == usize::from(call < 9) && sink.into_bytes().as_slice() == kept);
    }
    Ok(())
}

/// A reader and a writer of the system that fail at their second call, and take nothing at their third.
#[derive(Drop)]
struct Limping {
    calls: u32,
}

impl Limping {
    fn count(&mut self) -> std::io::Result<usize> {
        self.calls = self.calls.saturating_add(1);
        match self.calls {
            2 => Err(std::io::Error::from(std::io::ErrorKind::Other)),
            3 => Ok(0),
            _ => Ok(1),
        }
    }
}

impl std::io::Read for Limping {
    fn read(&mut self, buf: &mut [u8]) -> std::io::Result<usize> {
        let count = self.count()?;
        Ok(count.min(buf.len()))
    }
}

impl std::io::Write for Limping {
    fn write(&mut self, buf: &[u8]) -> std::io::Result<usize> {
        let count = self.count()?;
        Ok(count.min(buf.len()))
    }

    fn flush(&mut self) -> std::io::Result<()> {
        Ok(())
    }
}

/// An error of the system's reader is told as one, and its end as the end.
#[test]
fn system_reader(rt: HostRuntime) {
    let mut source = FromRead::new(Limping { calls: 0 });
    let mut buffer = [0; 4];
    for wanted in [Ok(1), Err(Failed), Ok(0)] {
        assert!(rt; source.read(&mut buffer) == wanted);
    }
}

/// An error of the system's writer is told as one, and so is a writer that takes nothing.
#[test]
fn system_writer(rt: HostRuntime) {
    let mut sink = ToWrite::new(Limping { calls: 0 });
    for wanted in [Ok(1), Err(Failed), Err(Failed), Ok(1)] {
        assert!(rt; sink.write(b"ab") == wanted);
    }
}
