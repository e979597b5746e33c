//! Which answers a command has, and that a refused call has no other.

ghost use Rattle.flr_claims.specs.Replies.{AnswersAreOfCommands, EvictionsNameTheirClient, RefusalsAreAlone};

/// An answer that its command doesn't have has no cause.
#[tactic(auto, using(crate::proofs::ReplyLaws::answers_are_of_commands))]
pub fn answers_are_of_commands()
    ensures own { AnswersAreOfCommands }
{}

/// A call that is refused has no other answer.
#[tactic(auto, using(crate::proofs::ReplyLaws::refusals_are_alone))]
pub fn refusals_are_alone()
    ensures alone { RefusalsAreAlone }
{}

/// An eviction is answered with the client that it was told.
#[tactic(auto, using(crate::proofs::ReplyLaws::evictions_name_their_client))]
pub fn evictions_name_their_client()
    ensures named { EvictionsNameTheirClient }
{}
