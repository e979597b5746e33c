//! Lists of flags that are set or cleared, as `--comp-flags=` has them.

ghost use Rattle.flr_base.specs.Puts.{Puts};
ghost use Rattle.std.specs.Prelude.{◌≡◌, ◌≢◌, ◌++◌, false, map, IfOk, OnOk, MatchResult};
ghost use Rattle.composite_layout.specs.FlagChanges.{FlagSets, AreFlagSets};
ghost use Rattle.lfs_values.specs.Answers.{Gives, IsNoMemory, IfWord};
ghost use Rattle.lfs_values.specs.FlagLists.{flag_text, flag_word_of, is_named, with_word, no_change, only, words_of, change_by, flags_of, flags_text, SpellsFlags, IsFlagsFault};

use crate::cause::{Fault, Stop};
use composite_layout::{FlagChange, Flags};
use flr_base::NoMemory;
use std::alloc::Global;
use text_words::{Item, parts, put_list};

/// An item of a list of flags: a flag that is set, or one with `^` that is cleared.
#[derive(Clone, Copy, Debug, PartialEq, Eq)]
pub(crate) enum FlagWord {
    SetPrefer,
    ClearPrefer,
    SetOffline,
    ClearOffline,
    SetNosync,
    ClearNosync,
    SetStale,
}

#[tactic(auto, unfolding(crate::specs::FlagLists::flag_word_of))]
fn flag_word(word: &[u8]) -> Option<FlagWord>
    ensures { result ≡ flag_word_of word.now }
{
    if word == b"prefer".as_slice() {
        Some(FlagWord::SetPrefer)
    } else if word == b"^prefer".as_slice() {
        Some(FlagWord::ClearPrefer)
    } else if word == b"offline".as_slice() {
        Some(FlagWord::SetOffline)
    } else if word == b"^offline".as_slice() {
        Some(FlagWord::ClearOffline)
    } else if word == b"nosync".as_slice() {
        Some(FlagWord::SetNosync)
    } else if word == b"^nosync".as_slice() {
        Some(FlagWord::ClearNosync)
    } else if word == b"stale".as_slice() {
        Some(FlagWord::SetStale)
    } else {
        None
    }
}

fn text_of(word: FlagWord) -> &'static [u8]
    ensures { result.now ≡ flag_text word }
{
    match word {
        FlagWord::SetPrefer => b"prefer",
        FlagWord::ClearPrefer => b"^prefer",
        FlagWord::SetOffline => b"offline",
        FlagWord::ClearOffline => b"^offline",
        FlagWord::SetNosync => b"nosync",
        FlagWord::ClearNosync => b"^nosync",
        FlagWord::SetStale => b"stale",
    }
}

impl Item for FlagWord {
    ghost text = { flag_text };

    ghost item_of = { flag_word_of };

    #[tactic(auto, using(flr_base::proofs::Puts::puts))]
    fn put(&self, out: &mut Vec<u8>) -> Result<(), NoMemory> {
        out.extend_from_slice(text_of(*self))?;
        Ok(())
    }

    fn read(word: &[u8]) -> Option<FlagWord> {
        flag_word(word)
    }
}

/// Whether the flag of the word is set or cleared already.
fn is_named(change: FlagChange, word: FlagWord) -> bool
    ensures { result ≡ is_named change word }
{
    let FlagChange { set, clear } = change;
    match word {
        FlagWord::SetPrefer | FlagWord::ClearPrefer => set.prefer || clear.prefer,
        FlagWord::SetOffline | FlagWord::ClearOffline => set.offline || clear.offline,
        FlagWord::SetNosync | FlagWord::ClearNosync => set.nosync || clear.nosync,
        FlagWord::SetStale => set.stale,
    }
}

/// The change, and what the word sets or clears.
fn with_word(change: FlagChange, word: FlagWord) -> FlagChange
    requires { is_named change word ≡ false }
    ensures { result ≡ with_word change word }
{
    let FlagChange { mut set, mut clear } = change;
    match word {
        FlagWord::SetPrefer => set.prefer = true,
        FlagWord::ClearPrefer => clear.prefer = true,
        FlagWord::SetOffline => set.offline = true,
        FlagWord::ClearOffline => clear.offline = true,
        FlagWord::SetNosync => set.nosync = true,
        FlagWord::ClearNosync => clear.nosync = true,
        FlagWord::SetStale => set.stale = true,
    }
    FlagChange { set, clear }
}

fn no_change() -> FlagChange
    ensures { result ≡ no_change }
{
    let none = Flags {
        init: false,
        stale: false,
        prefer: false,
        offline: false,
        nosync: false,
    };
    FlagChange {
        set: none,
        clear: none,
    }
}

fn change_by(words: &[&[u8]]) -> Result<FlagChange, Fault>
    ensures { result ≡ change_by (map (λ word. word.now) words.now) }
{
    let mut change = no_change();
    for word in words {
        let Some(flag) = flag_word(word) else {
            return Err(Fault::UnknownWord);
        };
        if is_named(change, flag) {
            return Err(Fault::Repeated);
        }
        change = with_word(change, flag);
    }
    Ok(change)
}

fn read_word(alloc: Global, word: &[u8]) -> Result<FlagChange, Stop>
    ensures { Gives result (flags_of word.now) }
{
    let words = parts(alloc, word, b',')?;
    match change_by(&words) {
        Ok(change) => Ok(change),
        Err(fault) => Err(Stop::Word(fault)),
    }
}

/// The change of flags that the word spells: one or more of `prefer`, `^prefer`, `offline`, `^offline`,
/// `nosync`, `^nosync` and `stale`, joined by commas, none of them named twice, with or without `^`. The
/// word is read from the left. Its first item that is none of these is UnknownWord, an empty one and
/// `^stale` too; the first that names a flag named before is Repeated.
pub fn read_flags(alloc: Global, word: &[u8]) -> Result<FlagChange, Stop>
    ensures exact { Gives result (flags_of word.now) }
    ensures read { MatchResult result (SpellsFlags word.now) (λ stop. IfWord stop (IsFlagsFault word.now)) }
    ensures again { (change : FlagSets) → SpellsFlags word.now change → MatchResult result (λ found. found ≡ change) IsNoMemory }
{
    read_word(alloc, word)
}

fn push_if(words: &mut Vec<FlagWord>, wanted: bool, word: FlagWord) -> Result<(), NoMemory>
    ensures { OnOk result (words.new.items ≡ words.old.items ++ only wanted word) }
{
    if wanted {
        words.push(word)?;
    }
    Ok(())
}

fn words_of(alloc: Global, change: FlagChange) -> Result<Vec<FlagWord>, NoMemory>
    ensures { IfOk result (λ words. words.items ≡ words_of change) }
{
    let FlagChange { set, clear } = change;
    let mut words = Vec::new(alloc);
    push_if(&mut words, set.prefer, FlagWord::SetPrefer)?;
    push_if(&mut words, clear.prefer, FlagWord::ClearPrefer)?;
    push_if(&mut words, set.offline, FlagWord::SetOffline)?;
    push_if(&mut words, clear.offline, FlagWord::ClearOffline)?;
    push_if(&mut words, set.nosync, FlagWord::SetNosync)?;
    push_if(&mut words, clear.nosync, FlagWord::ClearNosync)?;
    push_if(&mut words, set.stale, FlagWord::SetStale)?;
    Ok(words)
}

#[tactic(auto, using(flr_base::proofs::Puts::puts))]
fn put_word(out: &mut Vec<u8>, change: FlagChange) -> Result<(), NoMemory>
    ensures { Puts out.old.items out.new.items result (flags_text change) }
{
    let words = words_of(*out.allocator(), change)?;
    put_list(out, &words)
}

/// Appends the change of flags as one word, in the order prefer, offline, nosync, stale, with `^` before
/// those that are cleared, and `-` for no change. Without memory the text may have grown by a front of it.
#[tactic(auto, using(flr_base::proofs::Puts::puts))]
pub fn put_flags(out: &mut Vec<u8>, change: FlagChange) -> Result<(), NoMemory>
    ensures appended { Puts out.old.items out.new.items result (flags_text change) }
    ensures spells { AreFlagSets change → change ≢ no_change → SpellsFlags (flags_text change) change }
{
    put_word(out, change)
}
