ghost use Rattle.std.specs.Prelude.{◌≡◌, ℕ, ◌<◌, ◌≤◌, IfOk, IfSome, Some};
ghost use Rattle.text_words.specs.Pieces.{Lacks, parts_of};
ghost use Rattle.text_words.specs.Words.{AreWords};
ghost use Rattle.script_values.specs.declared.command.Command.{Command};
ghost use Rattle.script_values.specs.Commands.{IsCommand, IsCommandAlone, IsSpellable};
ghost use Rattle.script_values.specs.Texts.{AreNoEquals, words_of, command_text};

use crate::command::Command;
use crate::print::print_command;
use crate::read::read_command;
use flr_base::NoMemory;
use std::alloc::Global;

/// The command that is read from the text printed of this one, for files of at most `most` mirrors.
pub fn through_command(
    alloc: Global,
    command: &Command,
    most: u8,
) -> Result<Option<Command>, NoMemory>
    requires most { (0 < most) × (most ≤ 32) }
    requires few { IsSpellable command.now }
    // A command that may stand in some script is read again, unless memory runs out.
    ensures same { IsCommandAlone most command.now → IfOk result (λ found. found ≡ Some command.now) }
    ensures good { IfOk result (λ found. IfSome found (λ again. IsCommandAlone most again × IsSpellable again)) }
{
    let text = print_command(alloc, command)?;
    read_command(alloc, text.as_slice(), most)
}

/// What is known of the printed form of each command that may stand in some script: its words are
/// words, the text comes apart into them at its spaces, and no line ends in it. None of its words is
/// `=`, so where a reply stands behind a command and that word, the command ends before the first one.
/// A command of a script is such a command, and there is one whatever the most mirrors of a file are.
pub fn printed_commands()
    ensures words { (most : ℕ) (command : Command) → IsCommandAlone most command → AreWords (words_of command) }
    ensures apart { (most : ℕ) (command : Command) → IsCommandAlone most command → parts_of 32 (command_text command) ≡ words_of command }
    ensures one_line { (most : ℕ) (command : Command) → IsCommandAlone most command → Lacks 10 (command_text command) }
    ensures ends { (most : ℕ) (command : Command) → IsCommandAlone most command → AreNoEquals (words_of command) }
    ensures some { (most : ℕ) → (command : Command) × IsCommandAlone most command }
    ensures alone { (most targets clients : ℕ) (command : Command) → targets ≤ 64 → clients ≤ 16 → IsCommand most targets clients command → IsCommandAlone most command }
{}
