//! Who holds what, in every state of a run: cookies, keys and extent locks are those of the calls that
//! run, versions are at most the generations of their files, and so whatever the next step of a client
//! asks for is there.
#![tactic(auto)]

mod laws;

pub use laws::{each_step_finds_what_it_wants, everybody_holds_what_is_his};
