//! What the words of a report say: the answers of calls, the pieces of a read and the differences
//! that a verify found, each read exactly as it is printed.
#![tactic(auto)]

mod answer;
mod lines;
mod loops;
mod replies;
mod values;

pub use answer::Answer;
pub use lines::{read_diff, read_take};
pub use replies::{answer_facts, read_answer};
