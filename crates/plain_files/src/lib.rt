//! Plain files and the calls on them: the store, what each answered call says of it and leaves of it, and
//! linear histories. Here are definitions and laws of them; no code runs here.
#![tactic(auto)]

mod files;
mod histories;

pub use files::{fits_itself, lands_whole};
pub use histories::ended_comes_before;
