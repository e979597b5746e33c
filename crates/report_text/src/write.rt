//! Reports into a sink, piece by piece.

ghost use Rattle.std.specs.Prelude.{◌≡◌, ◌≢◌, ◌≤◌, ◌++◌, ◌∷◌, [], Err, IfOk};
ghost use Rattle.std.specs.List.{AllByRecursion};
ghost use Rattle.flr_base.specs.Causes.{HasCause, Rose};
ghost use Rattle.flr_base.specs.Streams.{WritesFront};
ghost use Rattle.script_values.specs.Commands.{IsSpellable};
ghost use Rattle.report_text.specs.Answers.{IsPrintable};
ghost use Rattle.report_text.specs.Texts.{IsWritable, file_head, head_text, runs_words, text_of_call, text_of_calls, text_of_file, text_of_files, text_of_report, text_of_schedule};

use crate::answers::put;
use crate::calls::call_text;
use crate::error::WriteError;
use crate::report::{Call, FileLine, Report};
use crate::schedules::runs_piece;
use composite_layout::Layout;
use flr_base::{Entry, Failed, Name, NoMemory, Sink, write_all};
use layout_text::print_layout;
use script_values::Command;
use std::alloc::Global;
use text_words::{put_number, put_word};

/// Writes a text.
fn write_text<K: Sink>(out: &mut K, text: &[u8]) -> Result<(), WriteError>
    ensures front { WritesFront (K.taken out.old) (K.taken out.new) result text.now }
    ensures later { K.faults out.old ≤ K.faults out.new }
    ensures failed { result ≡ Err WriteError.Failed → Rose (K.faults out.old) (K.faults out.new) }
    ensures kept { result ≢ Err WriteError.Failed → K.faults out.new ≡ K.faults out.old }
{
    match write_all(out, text) {
        Ok(()) => Ok(()),
        Err(_) => Err(WriteError::Failed),
    }
}

/// Writes the first line of a report. It takes no memory.
#[tactic(auto, unfolding(crate::specs::Texts::head_text))]
pub fn write_head<K: Sink>(out: &mut K) -> Result<(), Failed>
    ensures front { WritesFront (K.taken out.old) (K.taken out.new) result head_text }
    ensures cause { HasCause (K.faults out.old) (K.faults out.new) result }
{
    write_all(out, b"flr-report 1\n")
}

/// Writes the lines of a call with this entry, which answers this command. Memory is taken for the
/// text of the one call, before anything of it is written.
pub fn write_call<K: Sink>(
    alloc: Global,
    out: &mut K,
    entry: &Entry,
    command: &Command,
) -> Result<(), WriteError>
    requires command { IsSpellable command.now }
    requires reply { IsPrintable entry.now.reply }
    ensures front { WritesFront (K.taken out.old) (K.taken out.new) result (text_of_call entry.now command.now) }
    ensures later { K.faults out.old ≤ K.faults out.new }
    ensures failed { result ≡ Err WriteError.Failed → Rose (K.faults out.old) (K.faults out.new) }
    ensures kept { result ≢ Err WriteError.Failed → K.faults out.new ≡ K.faults out.old }
{
    let text = call_text(alloc, entry, command)?;
    write_text(out, &text)
}

#[tactic(auto, unfolding(crate::specs::Texts::file_head))]
fn file_text(alloc: Global, name: &Name, size: u64) -> Result<Vec<u8>, NoMemory>
    ensures { IfOk result (λ text. text.items ≡ file_head name.now size) }
{
    let mut out = Vec::new(alloc);
    put(&mut out, b"file")?;
    put_word(&mut out, name.as_slice())?;
    put_word(&mut out, b"size")?;
    put_number(&mut out, size)?;
    out.push(b'\n')?;
    Ok(out)
}

/// Writes the lines of a file with this name, this size in bytes and this layout. Memory is taken for
/// the text of the one file, before anything of it is written.
pub fn write_file<K: Sink>(
    alloc: Global,
    out: &mut K,
    name: &Name,
    size: u64,
    layout: &Layout,
) -> Result<(), WriteError>
    ensures front { WritesFront (K.taken out.old) (K.taken out.new) result (text_of_file name.now size layout.now) }
    ensures later { K.faults out.old ≤ K.faults out.new }
    ensures failed { result ≡ Err WriteError.Failed → Rose (K.faults out.old) (K.faults out.new) }
    ensures kept { result ≢ Err WriteError.Failed → K.faults out.new ≡ K.faults out.old }
{
    let line = file_text(alloc, name, size)?;
    let text = print_layout(alloc, layout)?;
    write_text(out, &line)?;
    write_text(out, text.as_slice())
}

fn write_runs<K: Sink>(alloc: Global, out: &mut K, schedule: &[u8]) -> Result<(), WriteError>
    ensures front { WritesFront (K.taken out.old) (K.taken out.new) result (runs_words schedule.now) }
    ensures later { K.faults out.old ≤ K.faults out.new }
    ensures failed { result ≡ Err WriteError.Failed → Rose (K.faults out.old) (K.faults out.new) }
    ensures kept { result ≢ Err WriteError.Failed → K.faults out.new ≡ K.faults out.old }
{
    let mut rest = schedule;
    while !rest.is_empty() {
        let (piece, after) = runs_piece(alloc, rest)?;
        write_text(out, &piece)?;
        rest = after;
    }
    Ok(())
}

/// Writes the line of who stepped, a client for each place. Memory is taken for a small piece of it at
/// a time.
pub fn write_schedule<K: Sink>(
    alloc: Global,
    out: &mut K,
    schedule: &[u8],
) -> Result<(), WriteError>
    ensures front { WritesFront (K.taken out.old) (K.taken out.new) result (text_of_schedule schedule.now) }
    ensures later { K.faults out.old ≤ K.faults out.new }
    ensures failed { result ≡ Err WriteError.Failed → Rose (K.faults out.old) (K.faults out.new) }
    ensures kept { result ≢ Err WriteError.Failed → K.faults out.new ≡ K.faults out.old }
{
    write_text(out, b"schedule")?;
    write_runs(alloc, out, schedule)?;
    write_text(out, b"\n")
}

fn write_calls<K: Sink>(alloc: Global, out: &mut K, calls: &[Call]) -> Result<(), WriteError>
    requires { AllByRecursion IsWritable calls.now }
    ensures front { WritesFront (K.taken out.old) (K.taken out.new) result (text_of_calls calls.now) }
    ensures later { K.faults out.old ≤ K.faults out.new }
    ensures failed { result ≡ Err WriteError.Failed → Rose (K.faults out.old) (K.faults out.new) }
    ensures kept { result ≢ Err WriteError.Failed → K.faults out.new ≡ K.faults out.old }
{
    for call in calls {
        write_call(alloc, out, &call.entry, &call.command)?;
    }
    Ok(())
}

fn write_files<K: Sink>(alloc: Global, out: &mut K, files: &[FileLine]) -> Result<(), WriteError>
    ensures front { WritesFront (K.taken out.old) (K.taken out.new) result (text_of_files files.now) }
    ensures later { K.faults out.old ≤ K.faults out.new }
    ensures failed { result ≡ Err WriteError.Failed → Rose (K.faults out.old) (K.faults out.new) }
    ensures kept { result ≢ Err WriteError.Failed → K.faults out.new ≡ K.faults out.old }
{
    for file in files {
        write_file(alloc, out, &file.name, file.size, &file.layout)?;
    }
    Ok(())
}

/// Writes the report: a first line, the lines of each call with its answer, those of each file with
/// its layout, and who stepped. Its text goes to the sink piece by piece, so that it is never held
/// whole. Without an answer Ok the sink took a front of it. Want of memory is no answer where the sink
/// failed.
pub fn write_report<K: Sink>(alloc: Global, out: &mut K, report: &Report) -> Result<(), WriteError>
    requires { AllByRecursion IsWritable report.now.calls }
    ensures front { WritesFront (K.taken out.old) (K.taken out.new) result (text_of_report report.now) }
    ensures later { K.faults out.old ≤ K.faults out.new }
    ensures failed { result ≡ Err WriteError.Failed → Rose (K.faults out.old) (K.faults out.new) }
    ensures kept { result ≢ Err WriteError.Failed → K.faults out.new ≡ K.faults out.old }
{
    let calls = report.calls.as_slice();
    let files = report.files.as_slice();
    let schedule = report.schedule.as_slice();
    write_head(out)?;
    write_calls(alloc, out, calls)?;
    write_files(alloc, out, files)?;
    write_schedule(alloc, out, schedule)
}
