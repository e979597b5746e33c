//! What holds of the steps and runs of every script.

ghost use Rattle.flr_steps.specs.Steps.{EachStepIs, GoesOn, StaysSo, StopsThere};

/// A step from one state to the next is a step of one client's call, in the command that it has next. What
/// it came to says what is left: the call goes on, with its answer open or fixed at this step; it has ended;
/// or its answer is fixed at this step and it has ended.
#[tactic(auto, using(crate::proofs::Inversion::step_is))]
pub fn each_step_is_one_of_these()
    ensures is { EachStepIs }
{}

/// A run goes on with each step that is made.
#[tactic(auto, using(crate::proofs::Runs::after_more))]
pub fn runs_go_on()
    ensures on { GoesOn }
{}

/// A schedule that has a step which isn't made leads nowhere, whatever stands behind that step.
#[tactic(auto, using(crate::proofs::Runs::after_stops))]
pub fn runs_stop()
    ensures nowhere { StopsThere }
{}

/// The state after the first so many places of a schedule stays what it was when the schedule grows.
#[tactic(auto, using(crate::proofs::Runs::state_stays))]
pub fn what_was_stays()
    ensures same { StaysSo }
{}
