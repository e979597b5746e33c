//! Lines of a text, counted.

ghost use Rattle.std.specs.Prelude.{◌≡◌, ◌-◌, length, min, take};
ghost use Rattle.whole_report.specs.Fronts.{begins, ends, further};

use layout_text::TextError;

/// Whether the text begins with the byte.
pub(crate) fn begins(text: &[u8], byte: u8) -> bool
    ensures { result ≡ begins byte text.now }
{
    match text {
        [] => false,
        [first, ..] => *first == byte,
    }
}

/// How many lines end in the text. The count stands still at its last value.
fn ends(text: &[u8]) -> u32
    ensures { result ≡ min (ends text.now) 4294967295 }
{
    let mut lines: u32 = 0;
    for byte in text {
        if *byte == b'\n' {
            lines = lines.saturating_add(1);
        }
    }
    lines
}

/// The error of what is left of the text, told for the text.
pub(crate) fn further(text: &[u8], rest: &[u8], error: TextError) -> TextError
    ensures { result ≡ further (ends (take (length text.now - length rest.now) text.now)) error }
{
    match error {
        TextError::Bad { line } => {
            let (front, _) = text.split_at(text.len().saturating_sub(rest.len()));
            TextError::Bad {
                line: ends(front).saturating_add(line),
            }
        }
        TextError::NoMemory => TextError::NoMemory,
    }
}
