ghost use Rattle.std.specs.Prelude.{◌≡◌, ◌∷◌, ◌++◌, MatchOption, IfSome, Some};
ghost use Rattle.text_words.specs.Lines.{lines_of, unended};

use crate::cuts::place_of;

/// The first line that byte 10 ends, without that byte, and what stands behind it. There is none where
/// the text is empty, or has bytes that no byte 10 ends.
#[tactic(auto, using(crate::proofs::LineLaws::first_line))]
pub fn next_line(text: &[u8]) -> Option<(&[u8], &[u8])>
    ensures first { MatchOption result (lines_of text.now ≡ unended text.now) (λ found. lines_of text.now ≡ Some found.0.now ∷ lines_of found.1.now) }
    // What is left is all that stands behind that byte, also bytes that no byte 10 ends.
    ensures rest { IfSome result (λ found. text.now ≡ found.0.now ++ 10 ∷ found.1.now) }
{
    let end = place_of(text, b'\n');
    if end == text.len() {
        return None;
    }
    let (line, _) = text.split_at(end);
    let (_, rest) = text.split_at(end + 1);
    Some((line, rest))
}
