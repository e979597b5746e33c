//! What holds in every run for whose steps there is room.

ghost use Rattle.flr_chunks.specs.Laws.{RunsSettleWithin};

/// Where no file has more mirrors than its script allows, a copy that settles has at most a take and a put
/// left for each block of the longest file in each mirror but one: its destinations are stale components, of
/// which those in one mirror have no byte in common, and some mirror is wholly fresh. An extend by a victim takes
/// each block of both files once, and is begun only where two mirrors are allowed.
pub fn copies_settle_within()
    ensures runs { RunsSettleWithin }
{}
