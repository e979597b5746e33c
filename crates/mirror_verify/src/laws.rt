//! What callers of a verify can rely on.

ghost use Rattle.mirror_verify.specs.Left.{CloseIsLast, OpenLeaves, TakeLowers};
ghost use Rattle.mirror_verify.specs.Told.{NoEntryWhereEqual, TellsWhatItCompared};

/// A verify has a number of steps left: one for each copy that isn't a hole, and one, once it is
/// open. A take lowers it by one where it doesn't fail, and close is the last step where the cookie
/// isn't lost.
pub fn a_step_lowers_what_is_left()
    ensures lowers { TakeLowers }
    ensures last { CloseIsLast }
    ensures opened { OpenLeaves }
{}

/// The bytes that a verify compares are those that Ok reads of this verify answered, and zeros for a
/// component without `init`. A later component has no entry for a block exactly where its bytes are
/// those of the first.
pub fn a_verify_tells_what_it_compared()
    ensures told { TellsWhatItCompared }
    ensures equal { NoEntryWhereEqual }
{}
