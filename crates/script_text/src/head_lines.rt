//! The lines before the commands, but for those of calls that fail.

ghost use Rattle.std.specs.Prelude.{◌≡◌, ◌<◌, ◌≤◌, IfOk};
ghost use Rattle.script_text.specs.Answers.{texts};
ghost use Rattle.script_text.specs.HeadLines.{version_line, few_targets, targets_line, mirrors_line, is_next, client_line};

use crate::error::LineError;
use crate::slots::{nothing_in, number_in};
use crate::state::Version;
use lfs_values::Cause;
use script_values::What;

const MOST_TARGETS: u64 = 64;

const MOST_MIRRORS: u64 = 32;

/// `flr-script V`.
pub(crate) fn version_line(words: &[&[u8]]) -> Result<Version, LineError>
    ensures { result ≡ version_line (texts words.now) }
{
    let (number, words) = number_in(words, 2, 1, 2)?;
    nothing_in(words, 3)?;
    if number == 1 {
        Ok(Version::One)
    } else {
        Ok(Version::Two)
    }
}

fn few_targets(number: u64) -> Result<(), LineError>
    ensures value { result ≡ few_targets number }
    ensures few { IfOk result (λ _. number ≤ 64) }
{
    if number > MOST_TARGETS {
        return Err(LineError::TooMany(What::Targets));
    }
    Ok(())
}

/// `targets T`.
pub(crate) fn targets_line(words: &[&[u8]]) -> Result<u8, LineError>
    ensures { result ≡ targets_line (texts words.now) }
{
    let (number, words) = number_in(words, 2, 1, u64::MAX)?;
    few_targets(number)?;
    nothing_in(words, 3)?;
    Ok(number as u8)
}

/// `mirrors M`.
pub(crate) fn mirrors_line(words: &[&[u8]]) -> Result<u8, LineError>
    ensures value { result ≡ mirrors_line (texts words.now) }
    ensures within { IfOk result (λ most. (0 < most) × (most ≤ 32)) }
{
    let (number, words) = number_in(words, 2, 1, MOST_MIRRORS)?;
    nothing_in(words, 3)?;
    Ok(number as u8)
}

fn is_next(next: u64, number: u64) -> Result<(), LineError>
    ensures { result ≡ is_next next number }
{
    if number == next {
        Ok(())
    } else {
        Err(LineError::Bad(Cause::Misplaced))
    }
}

/// `client C`, where C is the number of the next client.
pub(crate) fn client_line(words: &[&[u8]], next: u64) -> Result<(), LineError>
    ensures { result ≡ client_line next (texts words.now) }
{
    let (number, words) = number_in(words, 2, 0, u64::MAX)?;
    is_next(next, number)?;
    nothing_in(words, 3)
}
