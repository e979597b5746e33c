//! The text of a call.

ghost use Rattle.std.specs.Prelude.{◌≡◌, ◌++◌, ◌∷◌, [], OnOk, IfOk, codes};
ghost use Rattle.std.specs.Fmt.{decimal};
ghost use Rattle.text_words.specs.Words.{spaced};
ghost use Rattle.script_values.specs.Commands.{IsSpellable};
ghost use Rattle.script_values.specs.Texts.{command_text};
ghost use Rattle.report_text.specs.Answers.{IsPrintable, reply_words};
ghost use Rattle.report_text.specs.Texts.{call_line, call_name, places_text, text_of_call};

use crate::answers::{put, put_following, put_reply};
use crate::report::Call;
use flr_base::{Entry, NoMemory, Octets, put_decimal};
use script_values::{Command, put_command};
use std::alloc::Global;
use text_words::put_number;

/// Appends the client and the number of a call.
fn put_name(out: &mut Vec<u8>, entry: &Entry) -> Result<(), NoMemory>
    ensures { OnOk result (out.new.items ≡ out.old.items ++ call_name entry.now) }
{
    put_decimal(out, u64::from(entry.client))?;
    out.push(b'.')?;
    put_decimal(out, u64::from(entry.number))?;
    Ok(())
}

/// Appends a space, a word and a place.
fn put_place(out: &mut Vec<u8>, word: &[u8], place: u32) -> Result<(), NoMemory>
    ensures { OnOk result (out.new.items ≡ out.old.items ++ 32 ∷ spaced (word.now ∷ decimal place ∷ [])) }
{
    out.push(b' ')?;
    put(out, word)?;
    put_number(out, u64::from(place))?;
    Ok(())
}

fn put_places(out: &mut Vec<u8>, entry: &Entry) -> Result<(), NoMemory>
    ensures { OnOk result (out.new.items ≡ out.old.items ++ places_text entry.now) }
{
    put(out, b"call ")?;
    put_name(out, entry)?;
    put_place(out, b"from", entry.first)?;
    put_place(out, b"at", entry.at)?;
    put_place(out, b"to", entry.last)
}

fn put_line(out: &mut Vec<u8>, entry: &Entry, command: &Command) -> Result<(), NoMemory>
    requires command { IsSpellable command.now }
    requires reply { IsPrintable entry.now.reply }
    ensures { OnOk result (out.new.items ≡ out.old.items ++ call_line entry.now command.now) }
{
    put_places(out, entry)?;
    out.push(b' ')?;
    put_command(out, command)?;
    put(out, b" = ")?;
    put_reply(out, &entry.reply)
}

/// The lines of a call with this entry, which answers this command.
#[tactic(auto, unfolding(crate::specs::Texts::text_of_call))]
pub(crate) fn call_text(
    alloc: Global,
    entry: &Entry,
    command: &Command,
) -> Result<Vec<u8>, NoMemory>
    requires command { IsSpellable command.now }
    requires reply { IsPrintable entry.now.reply }
    ensures { IfOk result (λ text. text.items ≡ text_of_call entry.now command.now) }
{
    let mut out = Vec::new(alloc);
    put_line(&mut out, entry, command)?;
    out.push(b'\n')?;
    put_following(&mut out, &entry.reply, entry.takes.as_slice())?;
    Ok(out)
}

/// The lines of the call: `call C.K from F at A to L COMMAND = REPLY`, and those that follow the
/// answer. C is the client and K the number of its command, F, A and L are the places of its first
/// step, its point and its last step. It is as a report has it.
pub fn print_call(alloc: Global, call: &Call) -> Result<Octets, NoMemory>
    requires command { IsSpellable call.now.command }
    requires reply { IsPrintable call.now.entry.reply }
    ensures exact { IfOk result (λ text. text ≡ text_of_call call.now.entry call.now.command) }
{
    Ok(Octets::from_vec(call_text(alloc, &call.entry, &call.command)?))
}
