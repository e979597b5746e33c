//! What the order of a linear history says of time.

ghost use Rattle.plain_files.specs.Histories.{EndedComesBefore};

/// A call that ended before another began stands before it in the history.
#[tactic(auto, using(crate::proofs::HistoryLaws::ended_comes_before))]
pub fn ended_comes_before()
    ensures before { EndedComesBefore }
{}
