//! What holds of each step, made or not, and of runs place by place.

ghost use Rattle.flr_steps.specs.Owners.{CallsAreOwn};
ghost use Rattle.flr_steps.specs.Runs.{
  EachPlaceIs,
  EachRunKeeps,
  EachStepLeaves,
  FrontsAreRuns,
  HoldsBeside,
  HoldsOfRuns,
  StepsAreThese,
  StepsAreTraced,
  StopsAreThese,
  TraceGoesOn,
  TracesStandBeside,
  UnfinishedIsLowest,
};

/// A step is made from one state to another exactly where it is a step of one client's call, in the command
/// that it has next, and that is what the step leaves.
#[tactic(auto, using(crate::proofs::StepLaws::steps_are_these))]
pub fn steps_are_these()
    ensures exactly { StepsAreThese }
{}

/// Each step changes what the servers keep, one client and the entries, adds one place to the schedule, and
/// leaves the script.
#[tactic(auto, using(crate::proofs::StepLaws::each_step_leaves))]
pub fn steps_leave_so_much()
    ensures leaves { EachStepLeaves }
{}

/// A step isn't made exactly where a holder is in the way, where the client has no command left, or where
/// there is no such client.
#[tactic(auto, using(crate::proofs::StepLaws::stops_are_these))]
pub fn stops_are_these()
    ensures exactly { StopsAreThese }
{}

/// A run leaves the script and the number of clients, and the schedule grows by its places.
pub fn runs_keep_the_script()
    ensures keeps { EachRunKeeps }
{}

/// At each place of a run the client that is named there made a step, from the state after the places
/// before it.
#[tactic(auto, using(crate::proofs::Fronts::each_place_is))]
pub fn each_place_is_a_step()
    ensures step { EachPlaceIs }
{}

/// The states that a run went through are states of runs.
pub fn fronts_are_runs()
    ensures runs { FrontsAreRuns }
{}

/// What holds at the start and is kept by each step holds of every run.
pub fn holds_of_runs()
    ensures holds { HoldsOfRuns }
{}

/// What holds at the start of a state and its trace, and is kept by each step, holds of every run.
pub fn holds_beside()
    ensures holds { HoldsBeside }
{}

/// The trace goes on with each step that is made.
#[tactic(auto, using(crate::proofs::TraceLaws::trace_goes_on))]
pub fn traces_go_on()
    ensures on { TraceGoesOn }
{}

/// What a step leaves of the trace, told by what it came to.
#[tactic(auto, using(crate::proofs::TraceLaws::steps_are_traced))]
pub fn steps_are_traced()
    ensures traced { StepsAreTraced }
{}

/// The trace of a run has something for each client, and something for each entry.
pub fn traces_stand_beside()
    ensures beside { TracesStandBeside }
{}

/// The client that a state tells to be unfinished is the lowest that has a command left.
pub fn unfinished_is_lowest()
    ensures lowest { UnfinishedIsLowest }
{}

/// In every run the call that a client has under way is its own, and so are the keys of leases that it has.
#[tactic(auto, using(crate::proofs::OwnCalls::calls_are_own))]
pub fn calls_are_own()
    ensures own { CallsAreOwn }
{}
