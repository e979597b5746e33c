//! Storage targets: each keeps objects with a layout version, counts its calls, fails those that
//! are listed to fail, and logs every call.
#![tactic(auto)]

mod call;
mod fail;
mod objects;
mod target;
mod targets;

pub use call::{CallAnswer, CallEntry, CallKind, RotError, TargetError};
pub use fail::{Fail, FailKind};
pub use target::Target;
pub use targets::Targets;
