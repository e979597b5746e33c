//! Lists of mirror ids, as `--only` takes them.

ghost use Rattle.flr_base.specs.Puts.{Puts};
ghost use Rattle.std.specs.Prelude.{◌≡◌, ℕ, ◌++◌, List, map, OnOk, nat_eq, MatchResult};
ghost use Rattle.text_words.specs.Numbers.{number_from};
ghost use Rattle.lfs_values.specs.Answers.{Gives, IsNoMemory, IfWord};
ghost use Rattle.lfs_values.specs.DistinctItems.{items_of};
ghost use Rattle.lfs_values.specs.MirrorIds.{AreMirrorIds, ids_text, ids_of, IsIdsFault};
ghost use Rattle.lfs_values.specs.declared.cause.Fault.TheVariants as faults;

use crate::cause::{Fault, Stop};
use crate::values::mirror_id;
use flr_base::{Ids, NoMemory};
use std::alloc::Global;
use std::collections::HashSet;
use text_words::{parts, put_list};

fn collect_ids(alloc: Global, words: &[&[u8]]) -> Result<Ids, Stop>
    ensures { Gives result (items_of nat_eq faults.BadNumber (number_from 1 65535) (map (λ word. word.now) words.now)) }
{
    let mut ids = Ids::new(alloc);
    let mut seen = HashSet::new(alloc);
    for word in words {
        let Some(id) = mirror_id(word) else {
            return Err(Stop::Word(Fault::BadNumber));
        };
        let id = u32::from(id);
        if !seen.insert(id)? {
            return Err(Stop::Word(Fault::Repeated));
        }
        ids.push(id)?;
    }
    Ok(ids)
}

fn read_word(alloc: Global, word: &[u8]) -> Result<Ids, Stop>
    ensures { Gives result (ids_of word.now) }
{
    let words = parts(alloc, word, b',')?;
    collect_ids(alloc, &words)
}

/// The ids that the word spells: one or more, joined by commas, each from 1 to 65535, none of them
/// twice. The word is read from the left. Its first item that is no id is BadNumber, an empty one
/// too; the first that stood before is Repeated.
pub fn read_ids(alloc: Global, word: &[u8]) -> Result<Ids, Stop>
    ensures exact { Gives result (ids_of word.now) }
    ensures read { MatchResult result (λ ids. AreMirrorIds ids × (word.now ≡ ids_text ids)) (λ stop. IfWord stop (IsIdsFault word.now)) }
    ensures again { (ids : List ℕ) → AreMirrorIds ids → word.now ≡ ids_text ids → MatchResult result (λ found. found ≡ ids) IsNoMemory }
{
    read_word(alloc, word)
}

/// Appends the ids as one word, joined by commas. Without memory the text may have grown by a front of
/// it.
#[tactic(auto, using(flr_base::proofs::Puts::puts))]
pub fn put_ids(out: &mut Vec<u8>, ids: &Ids) -> Result<(), NoMemory>
    ensures appended { Puts out.old.items out.new.items result (ids_text ids.now) }
{
    put_list(out, ids.as_slice())
}
