//! Why calls are answered as they are, in every run.

ghost use Rattle.flr_honest.specs.Causes.{
  RunsAnswerAlone,
  RunsHaveCauses,
  RunsRefuseFirst,
  RunsTellWhatTheyRead,
};
ghost use Rattle.flr_honest.specs.GoingWell.Wells.{RunsGoWell};

/// In every run without rot each answer has its cause, where the command copies no bytes from mirror to mirror: each
/// byte that a read answers came from a fresh component that isn't offline, by a call of this read, and a fault names
/// the lowest byte that nobody is left to answer, by just the calls that failed; a write or a truncate is done, failed
/// or cut off by an eviction as its calls were answered; a verify tells what it compared; and a command of one step is
/// refused, or is granted.
#[tactic(auto, using(crate::proofs::Causes::runs_have_causes))]
pub fn answers_have_causes()
    ensures causes { RunsHaveCauses }
{}

/// And of such a call no other answer has its cause: so each answer comes exactly where it is due.
#[tactic(auto, using(crate::proofs::Causes::runs_answer_alone))]
pub fn answers_are_alone()
    ensures alone { RunsAnswerAlone }
{}

/// In every run what refuses a command in the state before its call's first step is its answer, and the call ends with
/// that step.
#[tactic(auto, using(crate::proofs::Causes::runs_refuse_first))]
pub fn refusals_come_first()
    ensures first { RunsRefuseFirst }
{}

/// In every run, with rot too, what a verify answers that compared its file is so.
#[tactic(auto, using(crate::proofs::Causes::runs_tell_what_they_read))]
pub fn verifies_tell_what_they_read()
    ensures told { RunsTellWhatTheyRead }
{}

/// In a script that lists no failure, evicts nobody, lets no byte rot and takes no component offline, each read, write,
/// truncate and resync is answered as well as may be.
#[tactic(auto, using(crate::proofs::GoingWell::Answers::runs_go_well))]
pub fn calls_go_well()
    ensures well { RunsGoWell }
{}
