//! The lines of an input.

ghost use Rattle.std.specs.Prelude.{◌≡◌, ◌<◌, ◌∷◌, [], length, MatchOption, IfSome};
ghost use Rattle.script_text.specs.TextLines.{lines_in, is_text, IsFirstLine};
ghost use Rattle.script_text.specs.Step.{as_text};

use crate::error::LineError;
use lfs_values::Cause;
use text_words::cut;

/// The first line, whether byte 10 ends it, and what stands behind it.
pub(crate) fn next_line(text: &[u8]) -> Option<(&[u8], bool, &[u8])>
    ensures first { MatchOption result (text.now ≡ []) (λ found. lines_in text.now ≡ record { text = found.0.now; ended = found.1 } ∷ lines_in found.2.now) }
    ensures cut { IfSome result (λ found. IsFirstLine text.now (record { text = found.0.now; ended = found.1 }) found.2.now) }
    ensures shorter { IfSome result (λ found. length found.2.now < length text.now) }
{
    if text.is_empty() {
        return None;
    }
    match cut(text, b'\n') {
        Some((line, rest)) => Some((line, true, rest)),
        None => Some((text, false, b"".as_slice())),
    }
}

fn is_text(text: &[u8]) -> bool
    ensures { result ≡ is_text text.now }
{
    for byte in text {
        if *byte < 32 || 126 < *byte {
            return false;
        }
    }
    true
}

/// Every line has an end and is text.
pub(crate) fn as_text(text: &[u8], ended: bool) -> Result<(), LineError>
    ensures { result ≡ as_text (record { text = text.now; ended = ended }) }
{
    if !ended {
        return Err(LineError::Bad(Cause::NoNewline));
    }
    if !is_text(text) {
        return Err(LineError::Bad(Cause::NotText));
    }
    Ok(())
}
