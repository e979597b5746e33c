//! What is sent, what has landed, and which bytes a component holds.

ghost use Rattle.flr_claims.specs.Meanings.{HeldByStriping, LandedWasSent};

/// A part of a writing call that has landed is one of those that were sent.
#[tactic(auto, using(crate::proofs::ByteLaws::landed_was_sent))]
pub fn landed_parts_were_sent()
    ensures sent { LandedWasSent }
{}

/// The byte that a component with objects holds for a byte of the file is the one at the object and the
/// offset that striping names.
#[tactic(auto, using(crate::proofs::ByteLaws::held_by_striping))]
pub fn held_bytes_are_striped()
    ensures striped { HeldByStriping }
{}
