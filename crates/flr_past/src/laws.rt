//! What holds of the answered calls of every run.

ghost use Rattle.flr_claims.specs.Claims.{AreWhole};
ghost use Rattle.flr_past.specs.Laws.{
  AnswersAreFixedOnce,
  ClosingIsOfOne,
  EntriesHaveClients,
  FixedIsOpenLast,
  FixesWithNoneOpen,
  LastStepsEndOne,
  OneIsOpen,
  OnlyLastIsOpen,
  OthersStayOpen,
  RunsAreInOrder,
};

/// A step of a call whose answer is open leaves it open, or fixes it, and then the call may end at once. A
/// step of one whose answer is fixed is its last.
pub fn answers_are_fixed_once()
    ensures once { AnswersAreFixedOnce }
{}

/// In every run each entry is within its interval, the points of all entries ascend, and each client's
/// entries stand in its order. Each entry is of a client that is there.
pub fn entries_are_in_order()
    ensures order { RunsAreInOrder }
    ensures clients { EntriesHaveClients }
{}

/// Where nobody has a command left, each client has an entry for each of its commands, and each entry has
/// ended.
pub fn finished_runs_are_whole()
    ensures whole { AreWhole }
{}

/// In every run a client has an ended entry for each command that is done. Where the answer of its call is
/// fixed, it has one more behind these, which has not ended; and it has no other such at any place of the
/// list. A step that fixes an answer finds none, and where the call goes on leaves its own behind all others. A
/// step that ends a call whose answer was fixed finds one and changes that alone. The steps of others leave it.
pub fn one_call_is_open()
    ensures last { OnlyLastIsOpen }
    ensures one { OneIsOpen }
    ensures none { FixesWithNoneOpen }
    ensures behind { FixedIsOpenLast }
    ensures ends { LastStepsEndOne }
    ensures only { ClosingIsOfOne }
    ensures others { OthersStayOpen }
{}
