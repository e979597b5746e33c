//! Extent locks on the objects of targets: PR, which readers share, and PW, which one writer holds.
//!
//! The modes, and that locks of one client never conflict, are those of Lustre's lock manager
//! (`LCK_PR`, `LCK_PW` on extents of an object). This project's own are that a lock is granted for
//! exactly the range asked, that nobody queues, and which of several conflicting locks is named.
#![tactic(auto)]

mod extents;
mod laws;
mod lock;

pub use extents::{ExtentLocks, LockError};
pub use laws::{several_locks, whole_object};
pub use lock::{Lock, Mode};
