//! What the project's text formats are made of: numbers, sizes, names, bytes, lists, the words of a
//! line and the lines of a text, each read and printed exactly. The spellings are this project's own,
//! sizes and ends after the lfs manual pages.
#![tactic(auto)]

mod bytes;
mod cursor;
mod cuts;
mod items;
mod lines;
mod lists;
mod names;
mod numbers;
mod pieces;
mod put;
mod sizes;

pub use bytes::hex_byte;
pub use cursor::next_word;
pub use cuts::cut;
pub use flr_base::{put_decimal, put_hex};
pub use lines::next_line;
pub use lists::{Item, call_list, id_list, left_list, list, number_list, object_list, put_list};
pub use names::{is_name, is_name_to};
pub use numbers::{number, number_in, number_to};
pub use pieces::{line_words, parts};
pub use put::{put_number, put_word};
pub use sizes::{end, put_end, put_end_value, size};
