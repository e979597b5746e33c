ghost use Rattle.std.specs.Prelude.{◌≡◌, ◌∷◌, ◌<◌, ◌^◌, map, IfOk};
ghost use Rattle.std.specs.Fmt.{decimal};
ghost use Rattle.std.specs.Option.{option_map};
ghost use Rattle.std.specs.List.{flat_map};
ghost use Rattle.flr_base.specs.Puts.{Puts};
ghost use Rattle.text_words.specs.Lists.{SpellsList, items_of, list_of, list_text};
ghost use Rattle.text_words.specs.Items.{object_text, call_text, left_text, IsObjectItem, IsCallItem, IsLeftItem};

use crate::pieces::parts;
use flr_base::{FailedCall, Left, NoMemory, ObjectId};
use std::alloc::Global;

/// What may stand in a list that is written as one word.
pub trait Item {
    ghost use Rattle.std.specs.Prelude.{List, ℕ, Option, ◌≡◌};
    ghost use Rattle.flr_base.specs.Puts.{Puts};

    // the word of an item
    ghost text: { Self → List ℕ };

    // the item that a word spells
    ghost item_of: { List ℕ → Option Self };

    /// Appends the word of the item. Without memory the text may have grown by a front of it.
    fn put(&self, out: &mut Vec<u8>) -> Result<(), NoMemory>
        ensures appended { Puts out.old.items out.new.items result (text self.now) };

    /// The item that the word spells.
    fn read(word: &[u8]) -> Option<Self>
        ensures value { result ≡ item_of word.now };
}

fn put_more<T: Item>(out: &mut Vec<u8>, items: &[T]) -> Result<(), NoMemory>
    ensures { Puts out.old.items out.new.items result (flat_map (λ next. 44 ∷ T.text next) items.now) }
{
    for item in items {
        out.push(b',')?;
        item.put(out)?;
    }
    Ok(())
}

/// Appends the items as one word: joined by commas, and `-` for none. Without memory the text may have
/// grown by a front of it.
#[tactic(auto, using(flr_base::proofs::Puts::puts))]
pub fn put_list<T: Item>(out: &mut Vec<u8>, items: &[T]) -> Result<(), NoMemory>
    ensures appended { Puts out.old.items out.new.items result (list_text T.text items.now) }
{
    match items {
        [] => {
            out.push(b'-')?;
            Ok(())
        }
        [first, others @ ..] => {
            first.put(out)?;
            put_more(out, others)
        }
    }
}

fn read_items<T: Item + Drop>(alloc: Global, words: &[&[u8]]) -> Result<Option<Vec<T>>, NoMemory>
    ensures { IfOk result (λ found. option_map (λ items. items.items) found ≡ items_of T.item_of (map (λ word. word.now) words.now)) }
{
    let mut items = Vec::new(alloc);
    for word in words {
        match T::read(word) {
            None => return Ok(None),
            Some(item) => items.push(item)?,
        }
    }
    Ok(Some(items))
}

/// The items that the word spells: joined by commas, and `-` for none.
pub fn list<T: Item + Drop>(alloc: Global, word: &[u8]) -> Result<Option<Vec<T>>, NoMemory>
    ensures value { IfOk result (λ found. option_map (λ items. items.items) found ≡ list_of T.item_of word.now) }
{
    if word == b"-".as_slice() {
        return Ok(Some(Vec::new(alloc)));
    }
    let words = parts(alloc, word, b',')?;
    read_items(alloc, &words)
}

/// The numbers below 2^64 that the word spells.
pub fn number_list(alloc: Global, word: &[u8]) -> Result<Option<Vec<u64>>, NoMemory>
    ensures spelled { IfOk result (λ found. SpellsList decimal (λ n. n < 2 ^ 64) word.now (option_map (λ items. items.items) found)) }
{
    list(alloc, word)
}

/// The ids, numbers below 2^32, that the word spells.
pub fn id_list(alloc: Global, word: &[u8]) -> Result<Option<Vec<u32>>, NoMemory>
    ensures spelled { IfOk result (λ found. SpellsList decimal (λ n. n < 2 ^ 32) word.now (option_map (λ items. items.items) found)) }
{
    list(alloc, word)
}

/// The objects that the word spells.
pub fn object_list(alloc: Global, word: &[u8]) -> Result<Option<Vec<ObjectId>>, NoMemory>
    ensures spelled { IfOk result (λ found. SpellsList object_text IsObjectItem word.now (option_map (λ items. items.items) found)) }
{
    list(alloc, word)
}

/// The failed calls that the word spells.
pub fn call_list(alloc: Global, word: &[u8]) -> Result<Option<Vec<FailedCall>>, NoMemory>
    ensures spelled { IfOk result (λ found. SpellsList call_text IsCallItem word.now (option_map (λ items. items.items) found)) }
{
    list(alloc, word)
}

/// The components that were left that the word spells.
pub fn left_list(alloc: Global, word: &[u8]) -> Result<Option<Vec<Left>>, NoMemory>
    ensures spelled { IfOk result (λ found. SpellsList left_text IsLeftItem word.now (option_map (λ items. items.items) found)) }
{
    list(alloc, word)
}
