//! Which mirrors answer a read and take a write: the choice of a component for each byte, and the
//! pieces and tails of a file's bytes by the objects that hold them.
#![tactic(auto)]

mod choosing;
mod laws;
mod reading;
mod ready;
mod truncating;
mod types;
mod writing;

pub use choosing::choose;
pub use laws::{
    chosen_is_least, chosen_is_there, read_pieces_are_whole, ready_range_has_mirror, tail_covers,
    tails_are_all, tails_ascend, write_pieces_are_whole,
};
pub use reading::pieces;
pub use ready::ready_for_write;
pub use truncating::tails;
pub use types::{Choice, Piece, PieceError, Pieces, Tail, Tails};
pub use writing::write_pieces;
