//! What a seat knows, which contracts alone read.
use one_history::PassStep;
use std::collections::LinkedList;
use ticket_order::Record;

/// What the seat of a pass knows. No value of it is ever made.
pub struct SeatView {
    /// All that the pass did and saw.
    pub pass: Record,
    /// The steps of all passes in their one order, up to the last step of this pass or further.
    pub order: LinkedList<PassStep>,
    /// The places of the passes that it lists, all of whose steps it knows: its own, or the two
    /// that were compared.
    pub places: LinkedList<u64>,
}
