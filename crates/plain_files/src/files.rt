//! What writes and truncates that got only so far leave of a file.

ghost use Rattle.plain_files.specs.Files.{FitsItself, LandsWhole};

/// A write that got to its end leaves what a write leaves.
#[tactic(auto, using(crate::proofs::FileLaws::lands_whole))]
pub fn lands_whole()
    ensures whole { LandsWhole }
{}

/// A file that is given its own size stays as it is.
#[tactic(auto, using(crate::proofs::FileLaws::fits_itself))]
pub fn fits_itself()
    ensures same { FitsItself }
{}
