//! One step of one client: its next command begins, or the call that it has under way goes on.
#![tactic(auto)]

mod answer;
mod beginning;
mod caller;
mod one_step;
mod stepping;
mod widening;

pub use answer::CallerAnswer;
pub use caller::Caller;
