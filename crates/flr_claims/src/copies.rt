//! What a copy did for a destination that it cleared.

ghost use Rattle.flr_claims.specs.Meanings.{WholeIsPut};

/// A destination that was copied whole has each of its chunks below the size put, with the bytes that a
/// fresh component had, but for those that are holes.
pub fn whole_is_put()
    ensures put { WholeIsPut }
{}
