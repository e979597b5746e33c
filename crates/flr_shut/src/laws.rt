//! What copies can't change any more, in every run for whose steps there is room.

ghost use Rattle.flr_shut.specs.Laws.{CopiesAreOld, DestinationsAreStale, PutsAreOld, ResetsAreOld, RunsAreShut, StartIsShut, StepsKeepShut};

/// Before any step, after each step for which there is room, and so after each run that had room, evictions
/// included: where an object that a copy resets stands in a fresh component, its target keeps a version above the
/// generation that the copy got at begin, whether or not the copy's lease stands. Where it stands in a file of
/// which another lease stands, that file's generation is above it.
pub fn copies_are_kept_off()
    ensures start { StartIsShut }
    ensures steps { StepsKeepShut }
    ensures runs { RunsAreShut }
{}

/// So after each run that had room a put or a reset of a copy, at an object of a fresh component, is too old: that
/// of any object that it resets, of the one that it resets next, and of the one to which it puts next. While the
/// copy's lease stands its destinations are stale.
pub fn copies_are_too_old()
    ensures any { CopiesAreOld }
    ensures resets { ResetsAreOld }
    ensures puts { PutsAreOld }
    ensures stale { DestinationsAreStale }
{}
