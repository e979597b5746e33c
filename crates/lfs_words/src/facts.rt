ghost use Rattle.std.specs.Prelude.{ℕ, ◌≤◌, List};
ghost use Rattle.text_words.specs.Words.{AreWords};
ghost use Rattle.lfs_words.specs.Facts.{IsSound};
ghost use Rattle.lfs_words.specs.Grammar.{Spells};
ghost use Rattle.lfs_words.specs.Printing.{words_of_command};
ghost use Rattle.lfs_words.specs.declared.command.LfsCommand.{LfsCommand};

/// What is known of a command that some words spell, where a file may have at most 32 mirrors: names
/// are names and differ where they have to, specs are checked, ids are within their range, and those
/// of a list differ. Each word that it is printed as is a word: it isn't empty, and has no space and
/// no byte that isn't graphic.
pub fn spelled_facts()
    ensures sound { (most : ℕ) (words : List (List ℕ)) (command : LfsCommand) → most ≤ 32 → Spells most words command → IsSound most command }
    ensures words { (most : ℕ) (words : List (List ℕ)) (command : LfsCommand) → Spells most words command → AreWords (words_of_command command) }
{}
