//! Layout locks, which clients share and an eviction takes, and leases of files, which a write or an
//! eviction breaks.
//!
//! That a client shares the layout lock while it uses a layout, that a change of the layout takes it
//! exclusively, and that a resync runs under a lease of the file which a write breaks, are Lustre's
//! (its design of file level redundancy, and its layout lock). This project's own are the numbers of
//! cookies and keys, what an eviction takes, and that a broken key keeps the place that broke it.
#![tactic(auto)]

mod history;
mod holders;
mod lease;
mod shared;

pub use history::only_evictions_take_cookies;
pub use holders::{cookies_in_hand, holders_of_leases, keys_in_hand, states_of_keys};
pub use lease::{KeyState, Lease, LeaseKey, LeaseTable};
pub use shared::{Cookie, LayoutLock, Share};
