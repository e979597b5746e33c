//! The one printed form of a command.

ghost use Rattle.std.specs.Prelude.{◌≡◌, ◌∷◌, ◌++◌, IfOk};
ghost use Rattle.flr_base.specs.Puts.{Puts};
ghost use Rattle.flr_base.specs.Runs.{hex, text_of_bytes};
ghost use Rattle.script_values.specs.Commands.{IsSpellable, AreFew};
ghost use Rattle.script_values.specs.Texts.{command_text};
ghost use Rattle.script_values.specs.declared.command.Command.TheVariants as commands;

use crate::command::Command;
use flr_base::{Name, NoMemory, ObjectId, Octets, print_runs, put_hex};
use lfs_words::{LfsCommand, print_lfs};
use std::alloc::Global;
use text_words::{Item, put_number, put_word};

/// Appends the word that a command begins with, and the name of its file.
#[tactic(auto, using(flr_base::proofs::Puts::puts))]
fn put_head(out: &mut Vec<u8>, word: &[u8], name: &Name) -> Result<(), NoMemory>
    ensures { Puts out.old.items out.new.items result (word.now ++ 32 ∷ name.now) }
{
    out.extend_from_slice(word)?;
    put_word(out, name.as_slice())?;
    Ok(())
}

#[tactic(auto, using(flr_base::proofs::Puts::puts))]
fn put_read(out: &mut Vec<u8>, name: &Name, offset: u64, length: u32) -> Result<(), NoMemory>
    ensures { Puts out.old.items out.new.items result (command_text (commands.Read name.now offset length)) }
{
    put_head(out, b"read", name)?;
    put_number(out, offset)?;
    put_number(out, u64::from(length))?;
    Ok(())
}

/// Appends the word that spells the bytes.
#[tactic(auto, using(flr_base::proofs::Puts::puts))]
fn put_bytes(out: &mut Vec<u8>, bytes: &Octets) -> Result<(), NoMemory>
    requires { AreFew bytes.now }
    ensures { Puts out.old.items out.new.items result (32 ∷ text_of_bytes bytes.now) }
{
    let runs = print_runs(*out.allocator(), bytes)?;
    put_word(out, runs.as_slice())
}

#[tactic(auto, using(flr_base::proofs::Puts::puts))]
fn put_write(out: &mut Vec<u8>, name: &Name, offset: u64, bytes: &Octets) -> Result<(), NoMemory>
    requires { AreFew bytes.now }
    ensures { Puts out.old.items out.new.items result (command_text (commands.Write name.now offset bytes.now)) }
{
    put_head(out, b"write", name)?;
    put_number(out, offset)?;
    put_bytes(out, bytes)?;
    Ok(())
}

#[tactic(auto, using(flr_base::proofs::Puts::puts))]
fn put_truncate(out: &mut Vec<u8>, name: &Name, size: u64) -> Result<(), NoMemory>
    ensures { Puts out.old.items out.new.items result (command_text (commands.Truncate name.now size)) }
{
    put_head(out, b"truncate", name)?;
    put_number(out, size)?;
    Ok(())
}

#[tactic(auto, using(flr_base::proofs::Puts::puts))]
fn put_lfs(out: &mut Vec<u8>, command: &LfsCommand) -> Result<(), NoMemory>
    ensures { Puts out.old.items out.new.items result (command_text (commands.Lfs command.now)) }
{
    let text = print_lfs(*out.allocator(), command)?;
    out.extend_from_slice(text.as_slice())?;
    Ok(())
}

#[tactic(auto, using(flr_base::proofs::Puts::puts))]
fn put_evict(out: &mut Vec<u8>, client: u8) -> Result<(), NoMemory>
    ensures { Puts out.old.items out.new.items result (command_text (commands.Evict client)) }
{
    out.extend_from_slice(b"evict")?;
    put_number(out, u64::from(client))
}

/// Appends the word that spells the byte.
#[tactic(auto, using(flr_base::proofs::Puts::puts))]
fn put_byte(out: &mut Vec<u8>, byte: u8) -> Result<(), NoMemory>
    ensures { Puts out.old.items out.new.items result (32 ∷ hex byte) }
{
    out.push(b' ')?;
    put_hex(out, byte)
}

#[tactic(auto, using(flr_base::proofs::Puts::puts))]
fn put_rot(out: &mut Vec<u8>, object: ObjectId, offset: u64, byte: u8) -> Result<(), NoMemory>
    ensures { Puts out.old.items out.new.items result (command_text (commands.Rot object offset byte)) }
{
    out.extend_from_slice(b"rot ")?;
    object.put(out)?;
    put_number(out, offset)?;
    put_byte(out, byte)?;
    Ok(())
}

/// Appends the command as scripts and reports print it, with one space between words. Without memory
/// the text has grown by a front of it.
#[tactic(auto, using(flr_base::proofs::Puts::puts))]
pub fn put_command(out: &mut Vec<u8>, command: &Command) -> Result<(), NoMemory>
    requires { IsSpellable command.now }
    ensures appended { Puts out.old.items out.new.items result (command_text command.now) }
{
    match command {
        Command::Read {
            name,
            offset,
            length,
        } => put_read(out, name, *offset, *length),
        Command::Write {
            name,
            offset,
            bytes,
        } => put_write(out, name, *offset, bytes),
        Command::Truncate { name, size } => put_truncate(out, name, *size),
        Command::Lfs(command) => put_lfs(out, command),
        Command::Evict { client } => put_evict(out, *client),
        Command::Rot {
            object,
            offset,
            byte,
        } => put_rot(out, *object, *offset, *byte),
    }
}

/// The text that scripts and reports print the command as.
pub fn print_command(alloc: Global, command: &Command) -> Result<Octets, NoMemory>
    requires { IsSpellable command.now }
    ensures form { IfOk result (λ text. text ≡ command_text command.now) }
{
    let mut out = Vec::new(alloc);
    put_command(&mut out, command)?;
    Ok(Octets::from_vec(out))
}
