ghost use Rattle.std.specs.Prelude.{◌≡◌, ◌↔◌, [], Some, IsTrue, IsErr, IfOk, Contains, length};
ghost use Rattle.std.specs.Io.{ReadsAtMost, WritesAtMost};
ghost use Rattle.std.specs.Io.KnownBytes.{ReadConsumes, WriteAppends};
ghost use Rattle.flr_base.specs.Causes.{HasCause};
ghost use Rattle.flr_base.specs.MemEnds.{next_call};

use crate::list::{Ids, Octets};
use crate::outside::{Failed, Sink, Source};
use std::alloc::Global;
use std::marker::Model;

/// A source in memory that fails the listed calls, counted from 1.
#[derive(Debug, Drop)]
pub struct MemSource {
    bytes: Octets,
    at: usize,
    failing: Ids,
    calls: u64,
    faults: u64,
}

impl Model for MemSource {
    ghost use Rattle.std.specs.Prelude.{◌≤◌, length, drop};
    ghost use Rattle.flr_base.specs.MemEnds.{SourceView};

    ghost Value = { SourceView };

    ghost view = { λ a. record { left = drop a.at a.bytes; failing = a.failing; calls = a.calls; faults = a.faults } };

    ghost invariant = { λ a. a.at ≤ length a.bytes };
}

impl MemSource {
    /// A source of these bytes that fails the calls with these numbers.
    pub fn new(bytes: Octets, failing: Ids) -> MemSource
        ensures bytes { result.left ≡ bytes }
        ensures failing { result.failing ≡ failing }
        ensures calls { result.calls ≡ 0 }
        ensures faults { result.faults ≡ 0 }
    {
        MemSource {
            bytes,
            at: 0,
            failing,
            calls: 0,
            faults: 0,
        }
    }
}

impl Source for MemSource {
    ghost left = { λ source. Some source.left };

    ghost faults = { λ source. source.faults };

    fn read(&mut self, buf: &mut [u8]) -> Result<usize, Failed>
        ensures bound { ReadsAtMost result buf.new }
        ensures bytes { ReadConsumes (Some self.old.left) (Some self.new.left) result buf.new }
        ensures cause { HasCause self.old.faults self.new.faults result }
        ensures listed { IsErr result ↔ Contains self.old.failing (next_call self.old.calls) }
        ensures counted { self.new.calls ≡ next_call self.old.calls }
        ensures failing { self.new.failing ≡ self.old.failing }
    {
        self.calls = self.calls.saturating_add(1);
        if is_listed(&self.failing, self.calls) {
            self.faults = self.faults.saturating_add(1);
            return Err(Failed);
        }
        let (_, left) = self.bytes.as_slice().split_at(self.at);
        let count = left.len().min(buf.len());
        let (front, _) = left.split_at(count);
        let (room, _) = buf.split_at_mut(count);
        room.copy_from_slice(front);
        self.at += count;
        Ok(count)
    }
}

/// Whether the call with this number is listed.
fn is_listed(failing: &Ids, call: u64) -> bool
    ensures { IsTrue result ↔ Contains failing.now call }
{
    failing
        .as_slice()
        .iter()
        .any(|listed| u64::from(*listed) == call)
}

/// A sink in memory that fails the listed calls, counted from 1.
#[derive(Debug, Drop)]
pub struct MemSink {
    bytes: Octets,
    failing: Ids,
    calls: u64,
    faults: u64,
}

impl Model for MemSink {
    ghost use Rattle.flr_base.specs.MemEnds.{SinkView};

    ghost Value = { SinkView };

    ghost view = { λ a. record { taken = a.bytes; failing = a.failing; calls = a.calls; faults = a.faults } };
}

impl MemSink {
    /// An empty sink that fails the calls with these numbers.
    pub fn new(alloc: Global, failing: Ids) -> MemSink
        ensures taken { result.taken ≡ [] }
        ensures failing { result.failing ≡ failing }
        ensures calls { result.calls ≡ 0 }
        ensures faults { result.faults ≡ 0 }
    {
        MemSink {
            bytes: Octets::new(alloc),
            failing,
            calls: 0,
            faults: 0,
        }
    }

    /// The bytes that it has taken.
    pub fn into_bytes(self) -> Octets
        ensures same { result ≡ self.taken }
    {
        let MemSink {
            bytes,
            failing: _,
            calls: _,
            faults: _,
        } = self;
        bytes
    }
}

impl Sink for MemSink {
    ghost taken = { λ sink. Some sink.taken };

    ghost faults = { λ sink. sink.faults };

    /// Takes the whole piece, or nothing where the call is listed or memory runs out.
    fn write(&mut self, piece: &[u8]) -> Result<usize, Failed>
        ensures bound { WritesAtMost result piece.now }
        ensures bytes { WriteAppends (Some self.old.taken) (Some self.new.taken) result piece.now }
        ensures some { IfOk result (λ count. count ≡ 0 → piece.now ≡ []) }
        ensures cause { HasCause self.old.faults self.new.faults result }
        ensures whole { IfOk result (λ count. count ≡ length piece.now) }
        ensures listed { Contains self.old.failing (next_call self.old.calls) → IsErr result }
        ensures counted { self.new.calls ≡ next_call self.old.calls }
        ensures failing { self.new.failing ≡ self.old.failing }
    {
        self.calls = self.calls.saturating_add(1);
        if is_listed(&self.failing, self.calls) || self.bytes.extend_from_slice(piece).is_err() {
            self.faults = self.faults.saturating_add(1);
            return Err(Failed);
        }
        Ok(piece.len())
    }
}
