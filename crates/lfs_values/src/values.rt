//! The values of single words: what stands behind an option.

ghost use Rattle.flr_base.specs.Puts.{Puts};
ghost use Rattle.std.specs.Prelude.{◌≡◌, ℕ, ℤ, ◌++◌, ◌-◌, ◌^◌, ◌≤◌, ◌↔◌, Some, IfSome, OnOk};
ghost use Rattle.std.specs.Fmt.{decimal, signed_decimal};
ghost use Rattle.text_words.specs.Numbers.{number_from};
ghost use Rattle.text_words.specs.Sizes.{IsSize};
ghost use Rattle.lfs_values.specs.Values.{stripe_size_of, stripe_count_of, IsStripeCount, mirror_count_of, IsMirrorCount};

use flr_base::{NoMemory, put_decimal};
use text_words::{number_in, number_to, size};

const MOST_OF_STRIPE_SIZE: u64 = 1 << 30;

const MOST_OF_STRIPE_COUNT: u64 = 65535;

#[tactic(auto, unfolding(crate::specs::Values::stripe_size_of))]
fn read_stripe_size(word: &[u8]) -> Option<u64>
    ensures { result ≡ stripe_size_of word.now }
{
    let bytes = size(word)?;
    if bytes <= MOST_OF_STRIPE_SIZE {
        Some(bytes)
    } else {
        None
    }
}

/// The stripe size that the word spells, in bytes: a size of at most 1 GiB. 0 leaves it open.
pub fn stripe_size(word: &[u8]) -> Option<u64>
    ensures value { result ≡ stripe_size_of word.now }
    ensures spelled { (n : ℕ) → ((result ≡ Some n) ↔ ((n ≤ 2 ^ 30) × IsSize word.now n)) }
    ensures within { IfSome result (λ n. n ≤ 2 ^ 30) }
{
    read_stripe_size(word)
}

#[tactic(auto, unfolding(crate::specs::Values::stripe_count_of))]
fn read_stripe_count(word: &[u8]) -> Option<i32>
    ensures { result ≡ stripe_count_of word.now }
{
    if word == b"-1".as_slice() {
        return Some(-1);
    }
    let count = number_to(word, MOST_OF_STRIPE_COUNT)?;
    Some(count as i32)
}

/// The number of stripes that the word spells: a number of at most 65535, or -1 for all targets. 0
/// leaves it open.
pub fn stripe_count(word: &[u8]) -> Option<i32>
    ensures value { result ≡ stripe_count_of word.now }
    ensures spelled { (n : ℤ) → ((result ≡ Some n) ↔ (IsStripeCount n × (word.now ≡ signed_decimal n))) }
    ensures within { IfSome result IsStripeCount }
{
    read_stripe_count(word)
}

/// Appends a number of stripes, which may be negative. Without memory the text may have grown by a
/// front of it.
#[tactic(auto, using(flr_base::proofs::Puts::puts))]
pub fn put_count(out: &mut Vec<u8>, count: i32) -> Result<(), NoMemory>
    ensures appended { Puts out.old.items out.new.items result (signed_decimal count) }
{
    if count < 0 {
        out.push(b'-')?;
        return put_decimal(out, u64::from(count.unsigned_abs()));
    }
    put_decimal(out, count as u64)
}

#[tactic(auto, unfolding(crate::specs::Values::mirror_count_of))]
fn read_mirror_count(word: &[u8], most: u8) -> Option<u8>
    ensures { result ≡ mirror_count_of most word.now }
{
    if word.is_empty() {
        return Some(1);
    }
    let count = number_in(word, 1, u64::from(most))?;
    Some(count as u8)
}

/// How often a mirror is to be made, by what stands behind `-N` in its word: a number from 1 to
/// `most`, and nothing for 1.
pub fn mirror_count(word: &[u8], most: u8) -> Option<u8>
    ensures value { result ≡ mirror_count_of most word.now }
    ensures spelled { (n : ℕ) → ((result ≡ Some n) ↔ IsMirrorCount most word.now n) }
{
    read_mirror_count(word, most)
}

/// The id of a component that the word spells: a number from 1 to 4294967295.
pub fn component_id(word: &[u8]) -> Option<u32>
    ensures value { result ≡ number_from 1 (2 ^ 32 - 1) word.now }
    ensures spelled { (n : ℕ) → ((result ≡ Some n) ↔ ((1 ≤ n) × (n ≤ 2 ^ 32 - 1) × (word.now ≡ decimal n))) }
{
    let id = number_in(word, 1, u64::from(u32::MAX))?;
    Some(id as u32)
}

/// The id of a mirror that the word spells: a number from 1 to 65535.
pub fn mirror_id(word: &[u8]) -> Option<u16>
    ensures value { result ≡ number_from 1 65535 word.now }
    ensures spelled { (n : ℕ) → ((result ≡ Some n) ↔ ((1 ≤ n) × (n ≤ 65535) × (word.now ≡ decimal n))) }
{
    let id = number_in(word, 1, u64::from(u16::MAX))?;
    Some(id as u16)
}
