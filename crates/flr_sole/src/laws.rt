//! Who may still write, in every run for whose steps there is room.

ghost use Rattle.flr_sole.specs.Laws.{ClearedAreFree, FencesShut, MergesShut, MergesStay, OnlyOneIsFresh, RunsAreSole, RunsHaveSoleHolder, SettledStay, StartIsSole, StepsKeepSole, TakenInAreFree};

/// After each run that had room, evictions included: each part of a writing call that may still land, or has
/// landed before the call's point, lies in the only fresh component there. The call's file is there, the part's
/// component is in its layout, fresh and with its objects, and every component of another mirror that the part
/// reaches is stale. So its mirror is the only one that is wholly fresh.
pub fn parts_lie_alone()
    ensures holder { RunsHaveSoleHolder }
    ensures one { OnlyOneIsFresh }
{}

/// Before any step, after each step for which there is room, and so after each run that had room: besides, each
/// writing call has sent what its phase says, and each copy knows that the fences and resets that it has made
/// are in force for the destinations that aren't left, and once it has settled that nothing has landed over
/// them while its lease stands.
pub fn calls_know_who_writes()
    ensures start { StartIsSole }
    ensures steps { StepsKeepSole }
    ensures runs { RunsAreSole }
{}

/// After each run that had room, while the lease of a copy stands: once its fences are made no part of a writing
/// call that reaches a destination that isn't left may still land, and once it has settled none has landed for a
/// call before its point. So it is of the components that it is to clear.
pub fn copies_keep_writes_out()
    ensures fenced { FencesShut }
    ensures settled { SettledStay }
    ensures cleared { ClearedAreFree }
{}

/// The same of the two files of an extend by a victim, for each whose lease stands: once the fences are made no
/// part may still land on it, and once it has settled none has landed there for a call before its point.
pub fn merges_keep_writes_out()
    ensures fenced { MergesShut }
    ensures settled { MergesStay }
    ensures taken { TakenInAreFree }
{}
