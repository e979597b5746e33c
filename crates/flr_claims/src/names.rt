//! Which names a store has.

ghost use Rattle.flr_claims.specs.Meanings.{NamesAreLeft};

/// The names of the store that some calls leave are those of the files that they made and didn't take in,
/// in the order in which these were made.
#[tactic(auto, using(crate::proofs::NameLaws::names_are_left))]
pub fn names_are_left()
    ensures names { NamesAreLeft }
{}
