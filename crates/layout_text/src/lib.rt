//! Layouts as text, both ways: one line for the layout and one for each of its components, as
//! `lfs getstripe` answers it and reports hold it. The text is this project's own.
#![tactic(auto)]

mod error;
mod fields;
mod line;
mod place;
mod print;
mod read;
mod round_trip;
mod seen;
mod spellable;
mod words;

pub use error::TextError;
pub use print::print_layout;
pub use read::{next_layout, read_layout};
pub use round_trip::through_text;
pub use spellable::has_text;
