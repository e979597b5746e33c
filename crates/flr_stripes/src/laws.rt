//! What holds in every run for whose steps there is room.

ghost use Rattle.flr_stripes.specs.Laws.{RunsAreShort, RunsHoldFew};

/// A truncate has at most as many tails in hand as all commands of the script name stripes.
pub fn truncates_are_short()
    ensures runs { RunsAreShort }
{}

/// A copy has at most as many objects to fence and to reset as all commands of the script name stripes,
/// and a copy that takes another file in has at most as many objects of both files to fence.
pub fn copies_hold_few()
    ensures runs { RunsHoldFew }
{}
