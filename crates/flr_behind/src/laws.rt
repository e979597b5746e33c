//! What holds of open files in every run for whose steps there is room.

ghost use Rattle.flr_behind.specs.Laws.{RunsKnow, StartKnows, StepsKnow};

/// Before any step no call has a file open. Each step leaves every call that has one, whether or not it still
/// holds the cookie, with this: while the file is there its name is the one by which it was opened, and its
/// generation is at least the one that was got, and greater where a lease of the file stands and the call
/// writes. So it is after each run that had room.
pub fn calls_know_their_files()
    ensures start { StartKnows }
    ensures steps { StepsKnow }
    ensures runs { RunsKnow }
{}
