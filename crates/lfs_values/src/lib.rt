//! The single words of lfs command lines, each read and printed exactly: sizes, counts, ids, lists of
//! ids and of flags, and which option a word is; and why a line is no command. The commands are after
//! the lfs manual pages; which options there are, and how they are spelt, is this project's own.
#![tactic(auto)]

mod cause;
mod flags;
mod keys;
mod mirror_ids;
mod values;

pub use cause::{Cause, Fault, Stop, cause_at, put_cause};
pub use flags::{put_flags, read_flags};
pub use keys::{Key, key_of, value_of};
pub use mirror_ids::{put_ids, read_ids};
pub use values::{component_id, mirror_count, mirror_id, put_count, stripe_count, stripe_size};
