//! The name that a split makes by default.

ghost use Rattle.std.specs.Prelude.{◌≡◌, ◌≢◌, ◌++◌, ◌↔◌, List, ℕ, IsTrue, IfOk, MatchOption, is_some};
ghost use Rattle.std.specs.Fmt.{decimal};
ghost use Rattle.flr_base.specs.Puts.{Puts};
ghost use Rattle.meta_server.specs.Files.{file_named};
ghost use Rattle.lfs_words.specs.Naming.{default_end, default_name};

use flr_base::{Name, NoMemory, put_decimal};
use meta_server::Meta;
use std::alloc::Global;
use text_words::number;

/// The name of the file that a split of this mirror makes where it is told none.
pub(crate) fn default_name(alloc: Global, name: &Name, mirror: u16) -> Result<Name, NoMemory>
    ensures { IfOk result (λ new. new ≡ default_name name.now mirror) }
{
    let mut new = Vec::new(alloc);
    put_default(&mut new, name.as_slice(), mirror)?;
    Ok(Name::from_vec(new))
}

#[tactic(auto, using(flr_base::proofs::Puts::puts))]
fn put_default(out: &mut Vec<u8>, name: &[u8], mirror: u16) -> Result<(), NoMemory>
    ensures { Puts out.old.items out.new.items result (default_name name.now mirror) }
{
    put_text(out, name)?;
    put_numbered(out, b".mirror~", mirror)
}

#[tactic(auto, using(flr_base::proofs::Puts::puts))]
fn put_numbered(out: &mut Vec<u8>, text: &[u8], number: u16) -> Result<(), NoMemory>
    ensures { Puts out.old.items out.new.items result (text.now ++ decimal number) }
{
    put_text(out, text)?;
    put_decimal(out, u64::from(number))
}

#[tactic(auto, using(flr_base::proofs::Puts::puts))]
fn put_text(out: &mut Vec<u8>, text: &[u8]) -> Result<(), NoMemory>
    ensures { Puts out.old.items out.new.items result (text.now) }
{
    out.extend_from_slice(text)?;
    Ok(())
}

/// Whether there is a file of that name. It takes no memory.
pub(crate) fn has_default(meta: &Meta, name: &Name, mirror: u16) -> bool
    ensures { result ≡ is_some (file_named (default_name name.now mirror) meta.now.files) }
{
    for place in 0..meta.files() {
        let (other, _, _) = meta.file_at(place);
        if is_default(other.as_slice(), name.as_slice(), mirror) {
            return true;
        }
    }
    false
}

/// Whether a word is that name.
fn is_default(word: &[u8], name: &[u8], mirror: u16) -> bool
    ensures { IsTrue result ↔ (word.now ≡ default_name name.now mirror) }
{
    match behind(word, name) {
        Some(rest) => is_end(rest, mirror),
        None => false,
    }
}

/// Whether a word is what stands behind the file's name.
fn is_end(word: &[u8], mirror: u16) -> bool
    ensures { IsTrue result ↔ (word.now ≡ default_end mirror) }
{
    match behind(word, b".mirror~") {
        Some(digits) => spells(digits, mirror),
        None => false,
    }
}

/// What stands behind the front, if the word begins with it.
fn behind<'a>(word: &'a [u8], front: &[u8]) -> Option<&'a [u8]>
    ensures { MatchOption result ((rest : List ℕ) → word.now ≢ front.now ++ rest) (λ rest. word.now ≡ front.now ++ rest.now) }
{
    word.strip_prefix(front)
}

/// Whether the digits are those of the mirror's id.
fn spells(digits: &[u8], mirror: u16) -> bool
    ensures { IsTrue result ↔ (digits.now ≡ decimal mirror) }
{
    match number(digits) {
        Some(id) => id == u64::from(mirror),
        None => false,
    }
}
