//! What a split makes.

ghost use Rattle.flr_claims.specs.Meanings.{SplitFilesHaveTheBytes};

/// A file that is split off has the bytes of the file that it is split from.
#[tactic(auto, using(crate::proofs::SplitLaws::split_files_have_the_bytes))]
pub fn split_files_have_the_bytes()
    ensures same { SplitFilesHaveTheBytes }
{}
