//! The command line, and what `clap` makes of words by it.

ghost use Rattle.std.specs.Prelude.{◌≡◌, ◌≢◌, [], map, string_bytes, IfOk, MatchOption, false};
ghost use Rattle.clap.specs.Words.{app_of, fault_of, subcommand_of, subcommand_rows_of};
ghost use Rattle.clap.specs.declared.builder.command.Command.TheViews.{out-Command as fields_of};
ghost use Rattle.flr_words.specs.CommandLine.{command_line, random, soak, wanted};

use clap::error::ErrorKind;
use clap::{Arg, ArgMatches, Command};
use flr_base::NoMemory;
use std::alloc::{AllocError, Global};

/// The form `soak SEED CLIENTS CALLS`. Its numbers are handed on as text.
fn soak<'a>(alloc: Global) -> Result<Command<'a>, AllocError>
    ensures shape { IfOk result (λ command. app_of command ≡ soak) }
    ensures local { IfOk result (λ command. (fields_of command).has_globals ≡ false) }
{
    let seed = Arg::new(alloc, "seed").required(true);
    let clients = Arg::new(alloc, "clients").required(true);
    let calls = Arg::new(alloc, "calls").required(true);
    Command::new(alloc, "soak")
        .arg(seed)?
        .arg(clients)?
        .arg(calls)
}

/// The form `random SEED`. Its number is handed on as text.
fn random<'a>(alloc: Global) -> Result<Command<'a>, AllocError>
    ensures shape { IfOk result (λ command. app_of command ≡ random) }
    ensures local { IfOk result (λ command. (fields_of command).has_globals ≡ false) }
{
    let seed = Arg::new(alloc, "seed").required(true);
    Command::new(alloc, "random").arg(seed)
}

/// A form for each call. `clap` answers nothing by itself: it has no help here, and no version.
fn command_line<'a>(alloc: Global) -> Result<Command<'a>, AllocError>
    ensures { IfOk result (λ command. app_of command ≡ command_line) }
{
    let run = Command::new(alloc, "run");
    let replay = Command::new(alloc, "replay");
    let migrate = Command::new(alloc, "migrate");
    let soak = soak(alloc)?;
    let random = random(alloc)?;
    Command::new(alloc, "flr")
        .no_binary_name(true)
        .disable_help_flag(true)
        .disable_help_subcommand(true)
        .subcommand_required(true)
        .subcommand(run)?
        .subcommand(replay)?
        .subcommand(migrate)?
        .subcommand(soak)?
        .subcommand(random)
}

/// What `clap` makes of the words: nothing, where it finds a fault in them.
pub(crate) fn matched<'a>(
    alloc: Global,
    words: &'a [String],
) -> Result<Option<ArgMatches<'a>>, NoMemory>
    ensures { IfOk result (λ found. MatchOption found
        (fault_of command_line (map string_bytes words.entry.now) ≢ [])
        (λ matches. (fault_of command_line (map string_bytes words.entry.now) ≡ [])
        × (subcommand_rows_of matches ≡ subcommand_of command_line (map string_bytes words.entry.now)))) }
{
    let command = command_line(alloc)?;
    match command.try_get_matches_from(words) {
        Ok(matches) => Ok(Some(matches)),
        Err(error) if error.kind() == ErrorKind::OutOfMemory => Err(NoMemory),
        Err(_) => Ok(None),
    }
}
