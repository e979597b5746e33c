//! Who was evicted, in every state of a run: each eviction that the metadata server has noted was made at its
//! place, and a call that has lost its cookie belongs to a client that was evicted since the call opened its
//! file.
#![tactic(auto)]

mod laws;

pub use laws::lost_cookies_were_evicted;
