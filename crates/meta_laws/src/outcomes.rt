//! What the contracts of calls say of runs.

ghost use Rattle.meta_laws.specs.Laws.{BeginsLeave, CommandsLeave, EndsLeave, MergesLeave, OpensLeave};

/// A call whose contract says that it meets an outcome left the server as that outcome does, or as it
/// was. So each call that was made is one of a run, or changed nothing.
pub fn calls_leave_their_outcomes()
    ensures opens { OpensLeave }
    ensures begins { BeginsLeave }
    ensures commands { CommandsLeave }
    ensures ends { EndsLeave }
    ensures merges { MergesLeave }
{}
