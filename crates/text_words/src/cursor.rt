ghost use Rattle.std.specs.Prelude.{◌≡◌, ◌≤◌, ◌∷◌, [], length, MatchOption, IfSome};
ghost use Rattle.text_words.specs.Pieces.{word_len, words_of, IsFirstWord};

/// Where the word at the front ends.
#[tactic(auto, using(crate::proofs::Firsts::cursor))]
fn word_end(line: &[u8]) -> usize
    ensures end { result ≡ word_len line.now }
    ensures within { result ≤ length line.now }
{
    for (at, byte) in line.iter().enumerate() {
        if *byte == b' ' {
            return at;
        }
    }
    line.len()
}

/// The first word of a line, and what stands behind it. Words are parted by one or more spaces, and
/// spaces at either end of the line are ignored. It serves a line of too many words to hold them all.
#[tactic(auto, using(crate::proofs::Firsts::next))]
pub fn next_word(line: &[u8]) -> Option<(&[u8], &[u8])>
    ensures first { MatchOption result (words_of line.now ≡ []) (λ found. words_of line.now ≡ found.0.now ∷ words_of found.1.now) }
    // What is left is all that stands behind the word.
    ensures rest { IfSome result (λ found. IsFirstWord found.0.now found.1.now line.now) }
{
    let mut rest = line;
    while let [b' ', after @ ..] = rest {
        rest = after;
    }
    if rest.is_empty() {
        return None;
    }
    Some(rest.split_at(word_end(rest)))
}
