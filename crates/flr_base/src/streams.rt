ghost use Rattle.std.specs.Prelude.{◌≡◌, ◌≢◌, ◌≤◌, ◌<◌, length, IfOk, Err};
ghost use Rattle.flr_base.specs.Causes.{HasCause, Rose};
ghost use Rattle.flr_base.specs.Streams.{WritesFront, ReadsWhole, ReadsSome, IsLonger};

use crate::list::Octets;
use crate::outside::{Failed, Sink, Source};
use std::alloc::Global;

/// Why a source was not read to its end.
#[derive(Clone, Copy, Debug, PartialEq, Eq)]
pub enum ReadError {
    /// The source failed.
    Failed,
    /// There are more bytes than were asked for.
    TooLong,
    /// Memory ran out.
    NoMemory,
}

/// All bytes that the source has left, at most `most`. They are read up to the first that is too many.
pub fn read_all<S: Source>(alloc: Global, source: &mut S, most: u32) -> Result<Octets, ReadError>
    ensures whole { IfOk result (λ bytes. ReadsWhole (S.left source.old) (S.left source.new) bytes) }
    ensures within { IfOk result (λ bytes. length bytes ≤ most) }
    ensures long { result ≡ Err ReadError.TooLong → IsLonger (S.left source.old) most }
    ensures later { S.faults source.old ≤ S.faults source.new }
    ensures kept { result ≢ Err ReadError.Failed → S.faults source.new ≡ S.faults source.old }
    // Memory is wanted for bytes that were read alone, and for no more than `most`: what is known to be
    // too long, and an empty source, never lack memory.
    ensures memory { result ≡ Err ReadError.NoMemory → ReadsSome (S.left source.old) (S.left source.new) most }
    ensures failed { result ≡ Err ReadError.Failed → Rose (S.faults source.old) (S.faults source.new) }
{
    let limit = most as usize;
    let mut bytes: Vec<u8> = Vec::new(alloc);
    let mut buffer = [0u8; 4096];
    loop {
        let Ok(count) = source.read(&mut buffer) else {
            return Err(ReadError::Failed);
        };
        if count == 0 {
            return Ok(Octets::from_vec(bytes));
        }
        if count > limit - bytes.len() {
            return Err(ReadError::TooLong);
        }
        if bytes.extend_from_slice(&buffer[..count]).is_err() {
            return Err(ReadError::NoMemory);
        }
    }
}

/// Writes the bytes, or a front of them where the sink fails.
pub fn write_all<K: Sink>(out: &mut K, bytes: &[u8]) -> Result<(), Failed>
    ensures front { WritesFront (K.taken out.old) (K.taken out.new) result bytes.now }
    ensures cause { HasCause (K.faults out.old) (K.faults out.new) result }
{
    let mut rest = bytes;
    while !rest.is_empty() {
        let count = out.write(rest)?;
        let (_, after) = rest.split_at(count);
        rest = after;
    }
    Ok(())
}
