//! What callers of a write and of a truncate can rely on.

ghost use Rattle.client_write.specs.CutRuns.{CutAgainHasNone, CutAnsweredAtOpen, CutFixedAtCommit, CutStepDoesDeed, EvictedHasPunched, PunchesInOrder, TruncatedIsWhole};
ghost use Rattle.client_write.specs.Left.{CutLowers, CutOpenLeaves, OpenLeaves, StepLowers};
ghost use Rattle.client_write.specs.WriteRuns.{AnsweredAtOpen, BegunAgainHasNone, EvictedHasAccepted, FixedAtCommit, SendsInOrder, StepDoesDeed, WrittenIsWhole};

/// A write has a number of steps left: two for each piece, and two, once it is open. A step lowers
/// it by one where its piece is accepted and its file is there at the commit, and the last one leaves
/// none.
pub fn a_step_of_a_write_lowers_what_is_left()
    ensures lowers { StepLowers }
    ensures opened { OpenLeaves }
{}

/// The same of a truncate: one for each tail, and three, once it is open.
pub fn a_step_of_a_truncate_lowers_what_is_left()
    ensures lowers { CutLowers }
    ensures opened { CutOpenLeaves }
{}

/// Since it opened its file last, a write has sent the first of its pieces in their order, each once
/// and with the generation that the open got. It calls no target for anything else. Where it answers
/// `Written`, these are all, and each is accepted.
pub fn a_write_sends_its_pieces_in_order()
    ensures order { SendsInOrder }
    ensures calls { StepDoesDeed }
    ensures whole { WrittenIsWhole }
{}

/// A write is begun again only where none of its pieces is accepted, if the file of an attempt with
/// an accepted piece is still there at its commit. It answers `Evicted` only where some piece is
/// accepted.
pub fn a_write_is_begun_again_only_with_nothing_accepted()
    ensures again { BegunAgainHasNone }
    ensures evicted { EvictedHasAccepted }
{}

/// A write's answer is fixed only at a commit whose file is there, and it is answered at once only
/// at an open that is refused, which leaves all servers as they were.
pub fn a_write_is_answered_at_its_commit_or_open()
    ensures fixed { FixedAtCommit }
    ensures answered { AnsweredAtOpen }
{}

/// Since it opened its file last, a truncate has punched the first of its tails in their order, each
/// once and with the generation that the open got. It calls no target for anything else. Where it
/// answers `Truncated`, these are all, and each is accepted.
pub fn a_truncate_punches_its_tails_in_order()
    ensures order { PunchesInOrder }
    ensures calls { CutStepDoesDeed }
    ensures whole { TruncatedIsWhole }
{}

/// A truncate is begun again only where none of its punches is accepted, if the file of an attempt
/// with an accepted punch is still there at its commit. It answers `Evicted` only where some punch is
/// accepted.
pub fn a_truncate_is_begun_again_only_with_nothing_accepted()
    ensures again { CutAgainHasNone }
    ensures evicted { EvictedHasPunched }
{}

/// A truncate's answer is fixed only at a commit whose file is there, and it is answered at once only
/// at an open that is refused, which leaves all servers as they were.
pub fn a_truncate_is_answered_at_its_commit_or_open()
    ensures fixed { CutFixedAtCommit }
    ensures answered { CutAnsweredAtOpen }
{}
