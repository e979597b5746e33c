//! The lines that tell why a schedule is refused. Their texts are this project's own.

ghost use Rattle.std.specs.Prelude.{◌≡◌, ◌++◌, IfOk, OnOk};
ghost use Rattle.flr_replay.specs.Following.{cause_of};
ghost use Rattle.flr_replay.specs.Lines.{cut_short_line, stopped_line, why_text};

use crate::follow::{Stop, Why};
use flr_base::{NoMemory, put_decimal};
use std::alloc::Global;

fn put(out: &mut Vec<u8>, text: &[u8]) -> Result<(), NoMemory>
    ensures { OnOk result (out.new.items ≡ out.old.items ++ text.now) }
{
    out.extend_from_slice(text)?;
    Ok(())
}

fn put_why(out: &mut Vec<u8>, why: Why) -> Result<(), NoMemory>
    ensures { OnOk result (out.new.items ≡ out.old.items ++ why_text (cause_of why)) }
{
    match why {
        Why::Unknown => put(out, b"unknown"),
        Why::Finished => put(out, b"finished"),
        Why::Blocked { holder } => {
            put(out, b"blocked by ")?;
            put_decimal(out, u64::from(holder))
        }
    }
}

/// The line that names the place at which a schedule stops, counted from 1.
pub(crate) fn stopped(alloc: Global, place: u32, stop: Stop) -> Result<Vec<u8>, NoMemory>
    ensures { IfOk result (λ line. line.items ≡ stopped_line place stop.client (cause_of stop.why)) }
{
    let mut out = Vec::new(alloc);
    put(&mut out, b"flr: schedule: place ")?;
    put_decimal(&mut out, u64::from(place))?;
    put(&mut out, b": client ")?;
    put_decimal(&mut out, u64::from(stop.client))?;
    put(&mut out, b" ")?;
    put_why(&mut out, stop.why)?;
    put(&mut out, b"\n")?;
    Ok(out)
}

/// The line that names a client with a command left.
pub(crate) fn cut_short(alloc: Global, client: u8) -> Result<Vec<u8>, NoMemory>
    ensures { IfOk result (λ line. line.items ≡ cut_short_line client) }
{
    let mut out = Vec::new(alloc);
    put(&mut out, b"flr: schedule: client ")?;
    put_decimal(&mut out, u64::from(client))?;
    put(&mut out, b" unfinished")?;
    put(&mut out, b"\n")?;
    Ok(out)
}
