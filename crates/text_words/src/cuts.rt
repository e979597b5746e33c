ghost use Rattle.std.specs.Prelude.{◌≡◌, ◌<◌, ◌≤◌, length, take, get_or, MatchOption, None, Some};
ghost use Rattle.text_words.specs.Pieces.{Lacks};
ghost use Rattle.text_words.specs.Cuts.{cut_of};

/// Where the first byte `sep` is, or the length.
#[tactic(auto, using(crate::proofs::Splits::lacks_more))]
pub(crate) fn place_of(text: &[u8], sep: u8) -> usize
    ensures within { result ≤ length text.now }
    ensures before { Lacks sep (take result text.now) }
    ensures there { result < length text.now → get_or text.now result 0 ≡ sep }
{
    for (at, byte) in text.iter().enumerate() {
        if *byte == sep {
            return at;
        }
    }
    text.len()
}

/// What stands before the first byte `sep` of the word, and what stands behind it. There is none where
/// the word has no such byte.
#[tactic(auto, using(crate::proofs::CutLaws::first_cut))]
pub fn cut(word: &[u8], sep: u8) -> Option<(&[u8], &[u8])>
    ensures first { MatchOption result (cut_of sep word.now ≡ None) (λ found. cut_of sep word.now ≡ Some (found.0.now, found.1.now)) }
{
    let at = place_of(word, sep);
    if at == word.len() {
        return None;
    }
    let (front, _) = word.split_at(at);
    let (_, back) = word.split_at(at + 1);
    Some((front, back))
}
