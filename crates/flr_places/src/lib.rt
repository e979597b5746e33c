//! At which places keys were broken, in every state of a run: after the copy that has the key began, and up to
//! now. And whose cookies calls have in hand: those of their own clients.
#![tactic(auto)]

mod laws;

pub use laws::broken_keys_have_their_places;
