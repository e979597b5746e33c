//! The words of the program: which call they ask for, read by `clap`.
#![tactic(auto)]

mod command_line;
mod laws;
mod words;

pub use laws::words_ask_for_one;
pub use words::{Words, read_words};
