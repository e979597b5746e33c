//! What holds of evictions and of lost cookies in every run for whose steps there is room.

ghost use Rattle.flr_evicted.specs.Laws.{RunsExplain};

/// After each run that had room, the eviction of a client that the metadata server has noted was made at that
/// place, by the step of a command that evicts it, and no such step was made behind it. And where a call has a
/// file open whose cookie isn't held any more, the client's latest eviction is behind the place at which the
/// call opened the file, which isn't before the call's first.
pub fn lost_cookies_were_evicted()
    ensures runs { RunsExplain }
{}
