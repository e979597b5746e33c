//! What holds of extent locks in every run for whose steps there is room.

ghost use Rattle.flr_locks.specs.Laws.{RunsLock, StartLocks, StepsLock};

/// Before any step nobody holds an extent lock. Each step leaves every client with exactly those that the
/// phase of its call lists, and grants none that conflicts with one that is held. So after each run that had
/// room the locks are those of the calls, and are apart.
pub fn locks_are_those_of_the_calls()
    ensures start { StartLocks }
    ensures steps { StepsLock }
    ensures runs { RunsLock }
{}
