//! The line that tells why an input is refused. Its text is this project's own.

ghost use Rattle.std.specs.Prelude.{◌≡◌, ◌++◌, IfOk, codes};
ghost use Rattle.std.specs.Fmt.{decimal};
ghost use Rattle.flr_base.specs.Puts.{Puts};
ghost use Rattle.script_text.specs.Refusals.{what_text, line_text, refusal_text, refusal_line};

use crate::error::ScriptError;
use flr_base::{NoMemory, Octets, put_decimal};
use lfs_values::{Cause, put_cause};
use script_values::What;
use std::alloc::Global;

#[tactic(auto, using(flr_base::proofs::Puts::puts))]
fn put(out: &mut Vec<u8>, text: &[u8]) -> Result<(), NoMemory>
    ensures { Puts out.old.items out.new.items result text.now }
{
    out.extend_from_slice(text)?;
    Ok(())
}

#[tactic(auto, using(flr_base::proofs::Puts::puts))]
fn put_what(out: &mut Vec<u8>, what: What) -> Result<(), NoMemory>
    ensures { Puts out.old.items out.new.items result (what_text what) }
{
    match what {
        What::Targets => put(out, b"targets"),
        What::Clients => put(out, b"clients"),
        What::Fails => put(out, b"fails"),
        What::Commands => put(out, b"commands"),
        What::Bytes => put(out, b"bytes"),
        What::Work => put(out, b"work"),
    }
}

/// Appends the number of a line.
#[tactic(auto, using(flr_base::proofs::Puts::puts))]
fn put_line(out: &mut Vec<u8>, line: u32) -> Result<(), NoMemory>
    ensures { Puts out.old.items out.new.items result (codes "line " ++ decimal line) }
{
    put(out, b"line ")?;
    put_decimal(out, u64::from(line))
}

#[tactic(auto, using(flr_base::proofs::Puts::puts))]
fn put_bad(out: &mut Vec<u8>, line: u32, cause: Cause) -> Result<(), NoMemory>
    ensures { Puts out.old.items out.new.items result (line_text line cause) }
{
    put_line(out, line)?;
    put(out, b": ")?;
    put_cause(out, cause)
}

#[tactic(auto, using(flr_base::proofs::Puts::puts))]
fn put_too_many(out: &mut Vec<u8>, what: What) -> Result<(), NoMemory>
    ensures { Puts out.old.items out.new.items result (codes "too many " ++ what_text what) }
{
    put(out, b"too many ")?;
    put_what(out, what)?;
    Ok(())
}

#[tactic(auto, using(flr_base::proofs::Puts::puts))]
fn put_refusal(out: &mut Vec<u8>, error: ScriptError) -> Result<(), NoMemory>
    ensures { Puts out.old.items out.new.items result (refusal_text error) }
{
    match error {
        ScriptError::Bad { line, cause } => put_bad(out, line, cause),
        ScriptError::TooLong => put(out, b"too long"),
        ScriptError::TooMany { what } => put_too_many(out, what),
        ScriptError::NoSchedule => put(out, b"no schedule"),
        ScriptError::NoMemory => Ok(()),
    }
}

/// The line that tells why an input is refused, with its byte 10. Want of memory has no text.
#[tactic(auto, using(flr_base::proofs::Puts::puts))]
pub fn print_refusal(alloc: Global, error: ScriptError) -> Result<Octets, NoMemory>
    ensures form { IfOk result (λ text. text ≡ refusal_line error) }
{
    let mut out = Vec::new(alloc);
    put(&mut out, b"flr: script: ")?;
    put_refusal(&mut out, error)?;
    out.push(b'\n')?;
    Ok(Octets::from_vec(out))
}
