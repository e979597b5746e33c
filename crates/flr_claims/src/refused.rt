//! With what commands are refused.

ghost use Rattle.flr_claims.specs.Refusals.{RefusedExactly};

/// A command that begins is refused exactly for the first of its refusals that is so, whoever is in its way,
/// and a refused step changes nothing. Where none is so it refuses nothing.
#[tactic(auto, using(crate::proofs::RefusalLaws::refused_exactly))]
pub fn refused_exactly()
    ensures exactly { RefusedExactly }
{}
