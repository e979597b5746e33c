//! Who may still write, in every state of a run: each part of a writing call that may still land, or has landed
//! before the call's point, lies in the only fresh components there.
#![tactic(auto)]

mod laws;

pub use laws::{
    calls_know_who_writes, copies_keep_writes_out, merges_keep_writes_out, parts_lie_alone,
};
