ghost use Rattle.std.specs.Prelude.{◌≡◌, ℕ, ◌^◌, ◌<◌, ◌≤◌, ◌↔◌, Some, IfSome};
ghost use Rattle.std.specs.Fmt.{decimal};
ghost use Rattle.text_words.specs.Numbers.{number_of, number_from};

/// The number that the digits are, read one by one.
#[tactic(auto, using(crate::proofs::Decimals::reading))]
fn read(word: &[u8]) -> Option<u64>
    ensures { result ≡ number_of word.now }
{
    if word.is_empty() {
        return None;
    }
    if word.len() > 1 && word[0] == b'0' {
        return None;
    }
    let mut value: u64 = 0;
    for byte in word {
        if *byte < b'0' || b'9' < *byte {
            return None;
        }
        let digit = u64::from(*byte - b'0');
        if value > (u64::MAX - digit) / 10 {
            return None;
        }
        value = value * 10 + digit;
    }
    Some(value)
}

/// The number that the word spells: decimal, without a sign, without a leading zero but in `0`, at
/// most 18446744073709551615.
pub fn number(word: &[u8]) -> Option<u64>
    ensures value { result ≡ number_of word.now }
    ensures spelled { (n : ℕ) → ((result ≡ Some n) ↔ ((n < 2 ^ 64) × (word.now ≡ decimal n))) }
{
    read(word)
}

#[tactic(auto, unfolding(crate::specs::Numbers::number_from))]
fn read_within(word: &[u8], least: u64, most: u64) -> Option<u64>
    ensures value { result ≡ number_from least most word.now }
    ensures within { IfSome result (λ n. (least ≤ n) × (n ≤ most)) }
{
    let value = read(word)?;
    if least <= value && value <= most {
        Some(value)
    } else {
        None
    }
}

/// The number that the word spells, where it is from `least` to `most`.
pub fn number_in(word: &[u8], least: u64, most: u64) -> Option<u64>
    ensures value { result ≡ number_from least most word.now }
    ensures spelled { (n : ℕ) → ((result ≡ Some n) ↔ ((least ≤ n) × (n ≤ most) × (word.now ≡ decimal n))) }
    ensures within { IfSome result (λ n. (least ≤ n) × (n ≤ most)) }
{
    read_within(word, least, most)
}

/// The number that the word spells, where it is at most `most`.
pub fn number_to(word: &[u8], most: u64) -> Option<u64>
    ensures value { result ≡ number_from 0 most word.now }
    ensures spelled { (n : ℕ) → ((result ≡ Some n) ↔ ((n ≤ most) × (word.now ≡ decimal n))) }
    ensures within { IfSome result (λ n. n ≤ most) }
{
    read_within(word, 0, most)
}
