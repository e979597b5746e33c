ghost use Rattle.std.specs.Prelude.{◌≡◌, ℕ, ◌↔◌, Some, codes};
ghost use Rattle.flr_base.specs.Puts.{Puts};
ghost use Rattle.text_words.specs.Sizes.{unit_of, units, size_of, IsSize, is_eof, end_of, IsEnd, end_text};

use crate::numbers::{number, number_to};
use flr_base::{EOF, NoMemory, put_decimal};

fn unit_of(letter: u8) -> u64
    ensures { result ≡ unit_of letter }
{
    match letter {
        b'k' | b'K' => 1 << 10,
        b'm' | b'M' => 1 << 20,
        b'g' | b'G' => 1 << 30,
        _ => 1,
    }
}

fn units(unit: u64, count: u64) -> Option<u64>
    ensures { result ≡ units unit count }
{
    let bytes = count.checked_mul(unit)?;
    if bytes < EOF { Some(bytes) } else { None }
}

#[tactic(auto, using(crate::proofs::SizeLaws::no_size), unfolding(crate::specs::Sizes::size_of))]
fn read_size(word: &[u8]) -> Option<u64>
    ensures { result ≡ size_of word.now }
{
    if word.is_empty() {
        return None;
    }
    let unit = unit_of(word[word.len() - 1]);
    if unit == 1 {
        return number_to(word, EOF - 1);
    }
    units(unit, number(&word[..word.len() - 1])?)
}

/// The number of bytes that the word spells: a number, or a number and one of `k`, `K`, `m`, `M`, `g`,
/// `G`, which multiplies it by 1024 once, twice or three times. It is at most 18446744073709551614.
pub fn size(word: &[u8]) -> Option<u64>
    ensures value { result ≡ size_of word.now }
    ensures spelled { (n : ℕ) → ((result ≡ Some n) ↔ IsSize word.now n) }
{
    read_size(word)
}

fn is_eof(word: &[u8]) -> bool
    ensures { result ≡ is_eof word.now }
{
    word == b"-1".as_slice() || word == b"EOF".as_slice() || word == b"eof".as_slice()
}

#[tactic(auto, unfolding(crate::specs::Sizes::end_of))]
fn read_end(word: &[u8]) -> Option<u64>
    ensures { result ≡ end_of word.now }
{
    if is_eof(word) {
        Some(EOF)
    } else {
        read_size(word)
    }
}

/// The end that the word spells, in bytes: a size, or one of `-1`, `EOF` and `eof` for `EOF`.
pub fn end(word: &[u8]) -> Option<u64>
    ensures value { result ≡ end_of word.now }
    ensures spelled { (n : ℕ) → ((result ≡ Some n) ↔ IsEnd word.now n) }
{
    read_end(word)
}

#[tactic(auto, using(flr_base::proofs::Puts::puts))]
fn put_end_or(out: &mut Vec<u8>, end: u64, eof: &[u8]) -> Result<(), NoMemory>
    ensures { Puts out.old.items out.new.items result (end_text eof.now end) }
{
    if end == EOF {
        out.extend_from_slice(eof)?;
        return Ok(());
    }
    put_decimal(out, end)
}

/// Appends an end in bytes, with `EOF` for `EOF`. Without memory the text may have grown by a front of
/// it.
pub fn put_end(out: &mut Vec<u8>, end: u64) -> Result<(), NoMemory>
    ensures appended { Puts out.old.items out.new.items result (end_text (codes "EOF") end) }
{
    put_end_or(out, end, b"EOF")
}

/// Appends an end in bytes, with `-1` for `EOF`, as an option of a command has it. Without memory the
/// text may have grown by a front of it.
pub fn put_end_value(out: &mut Vec<u8>, end: u64) -> Result<(), NoMemory>
    ensures appended { Puts out.old.items out.new.items result (end_text (codes "-1") end) }
{
    put_end_or(out, end, b"-1")
}
