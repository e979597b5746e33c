//! A cell whose value is lent to one seat at a time.
//!
//! Threads share a `TurnCell`, and each has a `TurnSeat` of its own. A seat tries for the turn. While
//! it has the turn it alone has the value, asks it for one step of a client, and gives it back. No
//! call waits: a seat that finds another with the turn comes back at once.
//!
//! The value makes a schedule: the clients that stepped, in order. What a seat has seen of it is a
//! front of the schedule from then on, and the places that a seat made stay its own. So what each
//! thread knows of its steps holds of the value that the cell gives back in the end.
#![tactic(auto)]

mod cell;
mod rule;
mod seat;
mod stepped;
mod turn;
mod view;

pub use cell::{TurnCell, TurnOut};
pub use seat::TurnSeat;
pub use stepped::{StepAnswer, Stepped};
pub use turn::Turn;
