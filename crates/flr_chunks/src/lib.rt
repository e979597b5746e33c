//! How many chunks a copy has to take and put in every run: theorems alone.
#![tactic(auto)]

mod laws;

pub use laws::copies_settle_within;
