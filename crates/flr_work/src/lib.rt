//! How many steps calls have left, and what each step pays of them: theorems alone.
#![tactic(auto)]

mod calls;

pub use calls::{copies_pay, reads_pay, truncates_pay, verifies_pay, writes_pay};
