ghost use Rattle.std.specs.Prelude.{◌≡◌, None};

use crate::outside::{Failed, Sink, Source};
use std::io::{Read, Write};

/// A reader of std as a source. What it gives is the outside's: it tells nothing of its bytes.
#[derive(Drop)]
pub struct FromRead<R> {
    inner: R,
    faults: u64,
}

impl<R: Read> FromRead<R> {
    /// A source that has not failed yet.
    pub fn new(inner: R) -> FromRead<R>
        ensures fresh { result.faults ≡ 0 }
    {
        FromRead { inner, faults: 0 }
    }
}

impl<R: Read> Source for FromRead<R> {
    ghost left = { λ source. None };

    ghost faults = { λ source. source.faults };

    fn read(&mut self, buf: &mut [u8]) -> Result<usize, Failed> {
        match self.inner.read(buf) {
            Ok(count) => Ok(count),
            Err(_) => {
                self.faults = self.faults.saturating_add(1);
                Err(Failed)
            }
        }
    }
}

/// A writer of std as a sink. What becomes of its bytes is the outside's: it tells nothing of them.
#[derive(Drop)]
pub struct ToWrite<W> {
    inner: W,
    faults: u64,
}

impl<W: Write> ToWrite<W> {
    /// A sink that has not failed yet.
    pub fn new(inner: W) -> ToWrite<W>
        ensures fresh { result.faults ≡ 0 }
    {
        ToWrite { inner, faults: 0 }
    }
}

impl<W: Write> Sink for ToWrite<W> {
    ghost taken = { λ sink. None };

    ghost faults = { λ sink. sink.faults };

    fn write(&mut self, piece: &[u8]) -> Result<usize, Failed> {
        match self.inner.write(piece) {
            Ok(count) if count > 0 || piece.is_empty() => Ok(count),
            _ => {
                self.faults = self.faults.saturating_add(1);
                Err(Failed)
            }
        }
    }
}
