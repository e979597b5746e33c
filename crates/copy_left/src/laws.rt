//! What callers of a copy can rely on, of how it ends.

ghost use Rattle.copy_left.specs.Left.{BeginLeaves, DoneIsLast, MergeBeginLeaves, MergeDoneIsLast, StepLowers};
ghost use Rattle.copy_left.specs.Nothing.{LostClearsNothing};

/// A copy has a number of steps left once it has begun, told by the size that its file has when it is
/// settled. A step between begin and done lowers it by one where its call doesn't fail and isn't too
/// old, and where the file is there; of a merge, where both files are the same. At done one is left,
/// and done is the last step. After the begin of a resync that selects something, or of an extend by
/// copy, it is one for each object to fence, one for each object to reset, two for each chunk that has
/// a take, and two.
pub fn a_step_lowers_what_is_left()
    ensures lowers { StepLowers }
    ensures last { DoneIsLast }
    ensures begun { BeginLeaves }
{}

/// After the begin of a merge that number is one for each object to fence, one for each take, and two.
/// At its done one is left, and done is the last step.
pub fn a_merge_has_so_many_steps()
    ensures last { MergeDoneIsLast }
    ensures begun { MergeBeginLeaves }
{}

/// A copy one of whose resets or puts was too old, or whose file was gone at its settle, hands nothing
/// over to be cleared.
pub fn a_copy_that_lost_its_file_clears_nothing()
    ensures nothing { LostClearsNothing }
{}
