//! One byte of a scan.

ghost use Rattle.std.specs.Prelude.{◌≡◌};
ghost use Rattle.flr_base.specs.Scan.{hex_value, next};

use crate::runs::run::Run;

/// What stands before the next byte.
#[derive(Clone, Copy, Debug, PartialEq, Eq)]
pub(crate) enum Phase {
    /// Nothing.
    Start,
    /// The dash for no bytes.
    Dash,
    /// A plus.
    High,
    /// The first digit of a byte.
    Low { high: u8 },
    /// A byte.
    Star { byte: u8 },
    /// A byte and the star.
    First { byte: u8 },
    /// A byte, the star and digits.
    Count { byte: u8, count: u32 },
}

/// What the next byte does.
#[derive(Clone, Copy, Debug, PartialEq, Eq)]
pub(crate) enum Move {
    Go(Phase),
    /// A plus ends a run.
    Close(Run),
    /// No spelling goes on so.
    Stop,
}

fn hex_value(c: u8) -> Option<u8>
    ensures { result ≡ hex_value c }
{
    match c {
        b'0'..=b'9' => Some(c - 48),
        b'a'..=b'f' => Some(c - 87),
        _ => None,
    }
}

pub(crate) fn next(last: Option<u8>, phase: Phase, c: u8) -> Move
    ensures { result ≡ next last phase c }
{
    match phase {
        Phase::Start if c == b'-' => Move::Go(Phase::Dash),
        Phase::Start | Phase::High => match hex_value(c) {
            Some(high) => Move::Go(Phase::Low { high }),
            None => Move::Stop,
        },
        Phase::Dash => Move::Stop,
        Phase::Low { high } => match hex_value(c) {
            Some(low) if high < 16 && last != Some(high * 16 + low) => Move::Go(Phase::Star {
                byte: high * 16 + low,
            }),
            _ => Move::Stop,
        },
        Phase::Star { byte } if c == b'*' => Move::Go(Phase::First { byte }),
        Phase::Star { .. } => Move::Stop,
        Phase::First { byte } if b'1' <= c && c <= b'9' => Move::Go(Phase::Count {
            byte,
            count: u32::from(c - 48),
        }),
        Phase::First { .. } => Move::Stop,
        Phase::Count { byte, count } if c == b'+' => Move::Close(Run { byte, count }),
        Phase::Count { byte, count } if b'0' <= c && c <= b'9' => {
            let more = u64::from(count) * 10 + u64::from(c - 48);
            if more <= 4294967295 {
                Move::Go(Phase::Count {
                    byte,
                    count: more as u32,
                })
            } else {
                Move::Stop
            }
        }
        Phase::Count { .. } => Move::Stop,
    }
}
