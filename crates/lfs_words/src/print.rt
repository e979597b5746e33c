//! The one printed form of a command.

ghost use Rattle.flr_base.specs.Puts.{Puts};
ghost use Rattle.std.specs.Prelude.{◌≡◌, ℕ, List, ◌++◌, ◌∷◌, [], IfOk, codes};
ghost use Rattle.std.specs.Fmt.{decimal};
ghost use Rattle.std.specs.List.{flat_map};
ghost use Rattle.text_words.specs.Pieces.{words_of};
ghost use Rattle.lfs_words.specs.Printing.{after_spaces, words_after_lfs, words_of_command, text_of_command};
ghost use Rattle.lfs_words.specs.Grammar.{Spells};
ghost use Rattle.lfs_words.specs.declared.command.LfsCommand.{LfsCommand};
ghost use Rattle.lfs_words.specs.declared.command.LfsCommand.TheVariants as commands;

use crate::command::{LfsCommand, SplitTo};
use crate::options::{
    put_all_parts, put_change, put_file, put_mirrors, put_only, put_option, put_to, put_words,
};
use composite_layout::{FlagChange, Spec};
use flr_base::{Ids, Name, NoMemory, Octets};
use std::alloc::Global;
use text_words::put_word;

#[tactic(auto, using(flr_base::proofs::Puts::puts, crate::proofs::Spaced::spaced))]
fn put_setstripe(out: &mut Vec<u8>, name: &Name, spec: &Spec) -> Result<(), NoMemory>
    ensures { Puts out.old.items out.new.items result (after_spaces (words_after_lfs (commands.SetStripe name.now spec.now))) }
{
    put_word(out, b"setstripe")?;
    put_all_parts(out, spec)?;
    put_file(out, name)
}

#[tactic(auto, using(flr_base::proofs::Puts::puts, crate::proofs::Spaced::spaced))]
fn put_getstripe(out: &mut Vec<u8>, name: &Name) -> Result<(), NoMemory>
    ensures { Puts out.old.items out.new.items result (after_spaces (words_after_lfs (commands.GetStripe name.now))) }
{
    put_word(out, b"getstripe")?;
    put_file(out, name)
}

#[tactic(auto, using(flr_base::proofs::Puts::puts, crate::proofs::Spaced::spaced))]
fn put_comp_set(out: &mut Vec<u8>, name: &Name, id: u32, change: FlagChange) -> Result<(), NoMemory>
    ensures { Puts out.old.items out.new.items result (after_spaces (words_after_lfs (commands.CompSet name.now id change))) }
{
    put_words(out, b"setstripe", b"--comp-set")?;
    put_option(out, b"-I", id as u64)?;
    put_change(out, change)?;
    put_file(out, name)
}

#[tactic(auto, using(flr_base::proofs::Puts::puts, crate::proofs::Spaced::spaced))]
fn put_create(out: &mut Vec<u8>, name: &Name, spec: &Spec) -> Result<(), NoMemory>
    ensures { Puts out.old.items out.new.items result (after_spaces (words_after_lfs (commands.Create name.now spec.now))) }
{
    put_words(out, b"mirror", b"create")?;
    put_mirrors(out, spec)?;
    put_file(out, name)
}

#[tactic(auto, using(flr_base::proofs::Puts::puts, crate::proofs::Spaced::spaced))]
fn put_extend(out: &mut Vec<u8>, name: &Name, spec: &Spec) -> Result<(), NoMemory>
    ensures { Puts out.old.items out.new.items result (after_spaces (words_after_lfs (commands.Extend name.now spec.now))) }
{
    put_words(out, b"mirror", b"extend")?;
    put_mirrors(out, spec)?;
    put_file(out, name)
}

#[tactic(auto, using(flr_base::proofs::Puts::puts, crate::proofs::Spaced::spaced))]
fn put_extend_by(out: &mut Vec<u8>, name: &Name, victim: &Name) -> Result<(), NoMemory>
    ensures { Puts out.old.items out.new.items result (after_spaces (words_after_lfs (commands.ExtendBy name.now victim.now))) }
{
    put_words(out, b"mirror", b"extend")?;
    put_words(out, b"-N", b"-f")?;
    put_file(out, victim)?;
    put_file(out, name)
}

#[tactic(auto, using(flr_base::proofs::Puts::puts, crate::proofs::Spaced::spaced))]
fn put_split(out: &mut Vec<u8>, name: &Name, mirror: u16, to: &SplitTo) -> Result<(), NoMemory>
    ensures { Puts out.old.items out.new.items result (after_spaces (words_after_lfs (commands.Split name.now mirror to.now))) }
{
    put_words(out, b"mirror", b"split")?;
    put_option(out, b"--mirror-id", mirror as u64)?;
    put_to(out, to)?;
    put_file(out, name)
}

#[tactic(auto, using(flr_base::proofs::Puts::puts, crate::proofs::Spaced::spaced))]
fn put_delete(out: &mut Vec<u8>, name: &Name, mirror: u16) -> Result<(), NoMemory>
    ensures { Puts out.old.items out.new.items result (after_spaces (words_after_lfs (commands.Delete name.now mirror))) }
{
    put_words(out, b"mirror", b"delete")?;
    put_option(out, b"--mirror-id", mirror as u64)?;
    put_file(out, name)
}

#[tactic(auto, using(flr_base::proofs::Puts::puts, crate::proofs::Spaced::spaced))]
fn put_resync(out: &mut Vec<u8>, name: &Name, only: &Option<Ids>) -> Result<(), NoMemory>
    ensures { Puts out.old.items out.new.items result (after_spaces (words_after_lfs (commands.Resync name.now only.now))) }
{
    put_words(out, b"mirror", b"resync")?;
    put_only(out, only)?;
    put_file(out, name)
}

#[tactic(auto, using(flr_base::proofs::Puts::puts, crate::proofs::Spaced::spaced))]
fn put_verify(out: &mut Vec<u8>, name: &Name) -> Result<(), NoMemory>
    ensures { Puts out.old.items out.new.items result (after_spaces (words_after_lfs (commands.Verify name.now))) }
{
    put_words(out, b"mirror", b"verify")?;
    put_file(out, name)
}

/// Appends the words behind `lfs`.
#[tactic(auto, using(flr_base::proofs::Puts::puts, crate::proofs::Spaced::spaced))]
fn put_command(out: &mut Vec<u8>, command: &LfsCommand) -> Result<(), NoMemory>
    ensures { Puts out.old.items out.new.items result (after_spaces (words_after_lfs command.now)) }
{
    match command {
        LfsCommand::SetStripe { name, spec } => put_setstripe(out, name, spec),
        LfsCommand::GetStripe { name } => put_getstripe(out, name),
        LfsCommand::CompSet { name, id, change } => put_comp_set(out, name, *id, *change),
        LfsCommand::Create { name, spec } => put_create(out, name, spec),
        LfsCommand::Extend { name, spec } => put_extend(out, name, spec),
        LfsCommand::ExtendBy { name, victim } => put_extend_by(out, name, victim),
        LfsCommand::Split { name, mirror, to } => put_split(out, name, *mirror, to),
        LfsCommand::Delete { name, mirror } => put_delete(out, name, *mirror),
        LfsCommand::Resync { name, only } => put_resync(out, name, only),
        LfsCommand::Verify { name } => put_verify(out, name),
    }
}

/// The text that the command is printed as, with one space between words: each part as `-E END -S SIZE
/// -c COUNT`, each mirror of `create` and `extend` behind its own `-N`, options in the order of the
/// forms, flags in the order prefer, offline, nosync, stale. Ends and sizes are in bytes, `-1` is an
/// end at EOF. A spec has its defaults put in, and so has the text.
pub fn print_lfs(alloc: Global, command: &LfsCommand) -> Result<Octets, NoMemory>
    ensures form { IfOk result (λ text. text ≡ text_of_command command.now) }
{
    let mut out = Vec::from_slice(alloc, b"lfs")?;
    put_command(&mut out, command)?;
    Ok(Octets::from_vec(out))
}

/// The laws of the printed form of a command that some words spell: the words that it is printed as
/// spell it too, and its text comes apart at the spaces into these words. So reading the text word by
/// word gives the command again.
pub fn printed_spells()
    ensures again { (most : ℕ) (words : List (List ℕ)) (command : LfsCommand) → Spells most words command → Spells most (words_of_command command) command }
    ensures apart { (most : ℕ) (words : List (List ℕ)) (command : LfsCommand) → Spells most words command → words_of (text_of_command command) ≡ words_of_command command }
{}
