//! What callers of a copy can rely on, from its begin to its end.

ghost use Rattle.copy_laws.specs.Causes.{FailedAreLogged, LeftHaveCauses};
ghost use Rattle.copy_laws.specs.Merged.{MergedAreSame, MergesWhereSame, TellsFirstDifference};
ghost use Rattle.copy_laws.specs.Whole.{ClearedAreWhole};

/// A destination that a copy hands over to be cleared was copied whole: each object of each source
/// that overlaps it was fenced with the generation of the begin, then each of its own objects was
/// reset, then nobody else had a PW lock on an object of a source, where the size was read, and then
/// each chunk below that size was put with the bytes that a take from a fresh component gave, or is a
/// hole.
pub fn a_cleared_destination_was_copied_whole()
    ensures whole { ClearedAreWhole }
{}

/// A destination that a copy left is one of its begin, and carries a call of this copy that failed: of
/// the fences of its sources the first, a reset of its own, of the takes for it the last, or a put to
/// it. Each of these calls stands in its target's log, as failed.
pub fn a_left_destination_has_its_cause()
    ensures cause { LeftHaveCauses }
    ensures logged { FailedAreLogged }
{}

/// A merge takes its victim in only where every chunk below the size that both files had at its settle
/// is the same in both, each by an Ok take from a fresh component or by a hole's zeros; or where a
/// file was gone at the settle, whose lease is broken then. Where its done step answers `Merged`, and
/// files that are gone stay gone over the run, every such chunk is the same. Where it answers that the
/// files differ, the byte is the first that does, and the two bytes are those that each file has there.
pub fn a_merge_takes_in_what_is_the_same()
    ensures same { MergesWhereSame }
    ensures merged { MergedAreSame }
    ensures first { TellsFirstDifference }
{}
