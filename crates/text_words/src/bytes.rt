ghost use Rattle.std.specs.Prelude.{◌≡◌, ℕ, ◌<◌, ◌^◌, ◌↔◌, Some, IfSome};
ghost use Rattle.flr_base.specs.Runs.{hex};
ghost use Rattle.text_words.specs.Bytes.{hex_digit, hex_byte};

fn hex_digit(digit: u8) -> Option<u8>
    ensures value { result ≡ hex_digit digit }
    ensures small { IfSome result (λ worth. worth < 16) }
{
    match digit {
        b'0'..=b'9' => Some(digit - b'0'),
        b'a'..=b'f' => Some(digit - b'a' + 10),
        _ => None,
    }
}

fn read(word: &[u8]) -> Option<u8>
    ensures { result ≡ hex_byte word.now }
{
    let [high, low] = word else {
        return None;
    };
    let high = hex_digit(*high)?;
    let low = hex_digit(*low)?;
    Some(high * 16 + low)
}

/// The byte that the word spells: two lower-case hexadecimal digits.
pub fn hex_byte(word: &[u8]) -> Option<u8>
    ensures value { result ≡ hex_byte word.now }
    ensures spelled { (n : ℕ) → ((result ≡ Some n) ↔ ((n < 2 ^ 8) × (word.now ≡ hex n))) }
{
    read(word)
}
