//! What holds of the answers of every run, on plain files.

ghost use Rattle.flr_honest.specs.Legal.Laws.{
  LastWritesAreRead,
  RunsAreLegal,
  RunsAreLinear,
  RunsJudgeAll,
  RunsKnowFiles,
  RunsReadLastWrites,
  StartKnowsFiles,
  StepsAnswerSo,
  StepsKnowFiles,
};

/// Before any step, after each step for which there is room, and so after each run that had room, a copy has the key
/// of the file that it was told, and a merge keeps for its last step no answer but that a call failed, or that sizes
/// or bytes differ.
pub fn copies_know_their_files()
    ensures start { StartKnowsFiles }
    ensures steps { StepsKnowFiles }
    ensures runs { RunsKnowFiles }
{}

/// Where the files are honest against the plain files, a step that fixes an answer fixes one that its command may
/// have on these plain files.
pub fn answers_are_allowed()
    ensures allowed { StepsAnswerSo }
{}

/// In every run of every script the calls that are judged are the entries. Without rot they are legal on plain files in the
/// order of their points, and linear: each within its interval, at a point of its own, and in its client's order.
pub fn calls_are_linear()
    ensures all { RunsJudgeAll }
    ensures legal { RunsAreLegal }
    ensures linear { RunsAreLinear }
{}

/// A read that began after a write of the same bytes had ended, with no other write to the file, truncate of it, or
/// extend that takes it in under way from the begin of the write to the end of the read, answers the bytes that were
/// written: in every linear history, and so in every run without rot.
pub fn last_writes_are_read()
    ensures histories { LastWritesAreRead }
    ensures runs { RunsReadLastWrites }
{}
