//! What a seat knows.
use std::collections::LinkedList;

/// What the seat of a cell knows. No value of this type is ever made: it stands in contracts alone.
pub struct View<O> {
    /// The origin of the cell's value, or None where the seat was joined to another.
    pub origin: Option<O>,
    /// The schedule that the seat has seen.
    pub seen: LinkedList<u8>,
    /// What a seat that was joined to this one had seen, if that is less.
    pub told: LinkedList<u8>,
    /// The places that the seat made, in ascending order.
    pub mine: LinkedList<u32>,
    /// How often the seat found that another had the turn. It never falls.
    pub busy: u64,
    /// The word that its last load gave, or None after a claim.
    pub read: Option<u64>,
    /// Whether the seat has the turn.
    pub has_turn: bool,
}
