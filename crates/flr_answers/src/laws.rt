//! What holds in every run, and of every script.

ghost use Rattle.flr_answers.specs.Laws.{AnswersCanBePrinted, CommandsCanBePrinted, EntriesAreFew};

/// Each answer of a run for whose steps there is room has a text: where it tells bytes, they are few
/// enough to be spelled.
pub fn answers_can_be_printed()
    ensures runs { AnswersCanBePrinted }
{}

/// Each command of a script has a text.
pub fn commands_can_be_printed()
    ensures scripts { CommandsCanBePrinted }
{}

/// A run has at most as many answers as steps.
pub fn entries_are_few()
    ensures runs { EntriesAreFew }
{}
