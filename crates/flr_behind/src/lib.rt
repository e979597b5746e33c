//! What calls know of the files that they have open, in every state of a run: a file that is there has the
//! name by which it was opened, and its generation is at least the one that the call got. Where a lease of the
//! file stands, a write's generation is less.
#![tactic(auto)]

mod laws;

pub use laws::calls_know_their_files;
