//! RAID0 striping: which object of a component holds a byte of the file, and where.
#![tactic(auto)]

mod cutting;
mod laws;
mod mapping;
mod places;

pub use cutting::{Cuts, cut};
pub use laws::{
    chunk_lies_in_one_unit, places_are_apart, tail_begins_at_the_cut, unit_is_consecutive,
};
pub use mapping::{back, place};
pub use places::{Cut, Place};
