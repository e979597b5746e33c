//! The bytes of files: what is kept of them in every run, against plain files, and what each step may do to
//! them.
#![tactic(auto)]

mod laws;

pub use laws::files_begin_honest;
