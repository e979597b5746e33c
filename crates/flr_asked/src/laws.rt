//! What holds before any step, after each step, and so after every run.

ghost use Rattle.flr_asked.specs.Laws.{RunsAskSo, StartAsksSo, StepsAskSo};

/// The call that a client has under way is the one that its next command began: what it was asked doesn't change
/// with its steps.
pub fn calls_are_of_their_commands()
    ensures start { StartAsksSo }
    ensures steps { StepsAskSo }
    ensures runs { RunsAskSo }
{}
