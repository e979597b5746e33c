//! The report of a world.

ghost use Rattle.std.specs.Prelude.{◌≡◌, ◌≢◌, ◌≤◌, Err, option_copied};
ghost use Rattle.std.specs.List.{AllByRecursion};
ghost use Rattle.flr_base.specs.Causes.{Rose};
ghost use Rattle.flr_base.specs.Streams.{WritesFront};
ghost use Rattle.meta_server.specs.Files.{file_at};
ghost use Rattle.report_text.specs.declared.error.WriteError.TheVariants as errors;
ghost use Rattle.flr_steps.specs.Reports.{command_of, text_of_run};
ghost use Rattle.flr_world.specs.Reports.{IsWritable, text_of_entries, text_of_entry, text_of_kept_files};

use crate::world::World;
use flr_base::{Entry, Sink};
use meta_server::Meta;
use report_text::{WriteError, write_call, write_file, write_head, write_schedule};
use script_values::{Command, Script};
use std::alloc::Global;

impl World {
    /// Writes the report of the run so far: each call with its answer, each file with its layout, and who
    /// stepped. It is written from what the world keeps, piece by piece, and no second copy is made.
    /// Without an answer Ok the sink took a front of it. Want of memory is no answer where the sink failed.
    pub fn report<K: Sink>(&self, out: &mut K) -> Result<(), WriteError>
        ensures front { WritesFront (K.taken out.old) (K.taken out.new) result (text_of_run self.now) }
        ensures later { K.faults out.old ≤ K.faults out.new }
        ensures failed { result ≡ Err errors.Failed → Rose (K.faults out.old) (K.faults out.new) }
        ensures kept { result ≢ Err errors.Failed → K.faults out.new ≡ K.faults out.old }
    {
        write_head(out)?;
        write_entries(self.alloc, out, &self.script, self.entries.as_slice())?;
        write_files(self.alloc, out, &self.meta)?;
        write_schedule(self.alloc, out, self.schedule.as_slice())
    }
}

/// The command that an entry answers.
fn command_of<'a>(script: &'a Script, entry: &Entry) -> Option<&'a Command>
    ensures { option_copied result ≡ command_of script.now entry.now }
{
    let client = entry.client.max(1);
    if client > script.clients() {
        return None;
    }
    script
        .commands(client)
        .get(entry.number.saturating_sub(1) as usize)
}

fn write_entry<K: Sink>(
    alloc: Global,
    out: &mut K,
    script: &Script,
    entry: &Entry,
) -> Result<(), WriteError>
    requires { IsWritable script.now entry.now }
    ensures front { WritesFront (K.taken out.old) (K.taken out.new) result (text_of_entry script.now entry.now) }
    ensures later { K.faults out.old ≤ K.faults out.new }
    ensures failed { result ≡ Err errors.Failed → Rose (K.faults out.old) (K.faults out.new) }
    ensures kept { result ≢ Err errors.Failed → K.faults out.new ≡ K.faults out.old }
{
    match command_of(script, entry) {
        Some(command) => write_call(alloc, out, entry, command),
        None => Ok(()),
    }
}

fn write_entries<K: Sink>(
    alloc: Global,
    out: &mut K,
    script: &Script,
    entries: &[Entry],
) -> Result<(), WriteError>
    requires { AllByRecursion (IsWritable script.now) entries.now }
    ensures front { WritesFront (K.taken out.old) (K.taken out.new) result (text_of_entries script.now entries.now) }
    ensures later { K.faults out.old ≤ K.faults out.new }
    ensures failed { result ≡ Err errors.Failed → Rose (K.faults out.old) (K.faults out.new) }
    ensures kept { result ≢ Err errors.Failed → K.faults out.new ≡ K.faults out.old }
{
    for entry in entries {
        write_entry(alloc, out, script, entry)?;
    }
    Ok(())
}

fn write_files<K: Sink>(alloc: Global, out: &mut K, meta: &Meta) -> Result<(), WriteError>
    ensures front { WritesFront (K.taken out.old) (K.taken out.new) result (text_of_kept_files meta.now.files) }
    ensures later { K.faults out.old ≤ K.faults out.new }
    ensures failed { result ≡ Err errors.Failed → Rose (K.faults out.old) (K.faults out.new) }
    ensures kept { result ≢ Err errors.Failed → K.faults out.new ≡ K.faults out.old }
{
    for k in 0..meta.files() {
        let (name, size, layout) = meta.file_at(k);
        write_file(alloc, out, name, size, layout)?;
    }
    Ok(())
}
