//! The one printed form of a script.

ghost use Rattle.std.specs.Prelude.{◌≡◌, ◌++◌, ◌∷◌, [], ◌<◌, length, IfOk, OnOk};
ghost use Rattle.std.specs.List.{flat_map, AllByRecursion};
ghost use Rattle.text_words.specs.Lines.{text_of};
ghost use Rattle.script_values.specs.Commands.{IsSpellable};
ghost use Rattle.script_values.specs.Texts.{command_text, kind_word, fail_line, number_line, client_block, client_lines, text_of_script};

use crate::command::{Command, Commands};
use crate::print::put_command;
use crate::script::Script;
use flr_base::{NoMemory, Octets};
use object_target::{Fail, FailKind};
use std::alloc::Global;
use text_words::{put_number, put_word};

/// Appends the line of a word and a number.
fn put_number_line(out: &mut Vec<u8>, word: &[u8], number: u64) -> Result<(), NoMemory>
    ensures { OnOk result (out.new.items ≡ out.old.items ++ (number_line word.now number ++ 10 ∷ [])) }
{
    out.extend_from_slice(word)?;
    put_number(out, number)?;
    out.push(b'\n')?;
    Ok(())
}

fn put_kind(out: &mut Vec<u8>, kind: FailKind) -> Result<(), NoMemory>
    ensures { OnOk result (out.new.items ≡ out.old.items ++ 32 ∷ kind_word kind) }
{
    match kind {
        FailKind::Refused => put_word(out, b"refused"),
        FailKind::Lost => put_word(out, b"lost"),
    }
}

/// Appends the line that lists the call alone.
fn put_fail(out: &mut Vec<u8>, fail: Fail) -> Result<(), NoMemory>
    ensures { OnOk result (out.new.items ≡ out.old.items ++ (fail_line fail ++ 10 ∷ [])) }
{
    out.extend_from_slice(b"fail")?;
    put_number(out, u64::from(fail.target))?;
    put_number(out, u64::from(fail.call))?;
    put_number(out, u64::from(fail.call))?;
    put_kind(out, fail.kind)?;
    out.push(b'\n')?;
    Ok(())
}

fn put_fails(out: &mut Vec<u8>, fails: &[Fail]) -> Result<(), NoMemory>
    ensures { OnOk result (out.new.items ≡ out.old.items ++ flat_map (λ fail. fail_line fail ++ 10 ∷ []) fails.now) }
{
    for fail in fails {
        put_fail(out, *fail)?;
    }
    Ok(())
}

fn put_line(out: &mut Vec<u8>, command: &Command) -> Result<(), NoMemory>
    requires { IsSpellable command.now }
    ensures { OnOk result (out.new.items ≡ out.old.items ++ (command_text command.now ++ 10 ∷ [])) }
{
    put_command(out, command)?;
    out.push(b'\n')?;
    Ok(())
}

fn put_commands(out: &mut Vec<u8>, commands: &[Command]) -> Result<(), NoMemory>
    requires { AllByRecursion IsSpellable commands.now }
    ensures { OnOk result (out.new.items ≡ out.old.items ++ flat_map (λ command. command_text command ++ 10 ∷ []) commands.now) }
{
    for command in commands {
        put_line(out, command)?;
    }
    Ok(())
}

fn put_client(out: &mut Vec<u8>, number: u64, commands: &[Command]) -> Result<(), NoMemory>
    requires { AllByRecursion IsSpellable commands.now }
    ensures { OnOk result (out.new.items ≡ out.old.items ++ text_of (client_block number commands.now)) }
{
    put_number_line(out, b"client", number)?;
    put_commands(out, commands)
}

fn put_clients(out: &mut Vec<u8>, clients: &[Commands]) -> Result<(), NoMemory>
    requires few { length clients.now < 256 }
    requires spellable { AllByRecursion (AllByRecursion IsSpellable) clients.now }
    ensures { OnOk result (out.new.items ≡ out.old.items ++ text_of (client_lines 1 clients.now)) }
{
    for (at, own) in clients.iter().enumerate() {
        put_client(out, at as u64 + 1, own.as_slice())?;
    }
    Ok(())
}

/// The text of the script, of version 2: one space between words, no line that would be skipped,
/// numbers plainly, a line for each call that fails, and commands in their printed form.
pub fn print_script(alloc: Global, script: &Script) -> Result<Octets, NoMemory>
    ensures form { IfOk result (λ text. text ≡ text_of_script script.now) }
{
    let mut out = Vec::new(alloc);
    put_number_line(&mut out, b"flr-script", 2)?;
    put_number_line(&mut out, b"targets", u64::from(script.targets()))?;
    put_number_line(&mut out, b"mirrors", u64::from(script.most()))?;
    put_fails(&mut out, script.fails())?;
    put_clients(&mut out, script.all())?;
    Ok(Octets::from_vec(out))
}
