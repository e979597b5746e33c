//! Whom a client waits for.

ghost use Rattle.flr_claims.specs.Blocking.{BlockedWhereWaiting};

/// In every state of a run the next step of a client is blocked by a holder exactly where the client waits
/// for it.
pub fn blocked_where_waiting()
    ensures exactly { BlockedWhereWaiting }
{}
