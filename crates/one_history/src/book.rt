//! What contracts know of the words. No value of `Book` is ever made.
use map_types::Command;
use std::collections::LinkedList;
use ticket_order::{Entry, Opening, Record, StepMade};

/// What the keeper's pass has done.
pub struct KeeperEffects {
    /// The number of the keeper's pass.
    pub keeper: usize,
    /// The entries that its sweeps took, in the order of the sweeps.
    pub taken: LinkedList<Entry>,
    /// The durable count.
    pub durable: u64,
    /// It has made a FAIL.
    pub failed: bool,
}

/// A step of one pass.
pub struct PassStep {
    /// The number of the pass.
    pub pass: usize,
    pub step: StepMade,
}

/// The one history, with the record of each pass.
pub struct Book {
    pub opening: Opening,
    /// How many stripes there are.
    pub stripes: usize,
    /// The changes in the order of their tickets, from the opening on.
    pub history: LinkedList<Command>,
    /// The number of the pass that made each change of the history.
    pub authors: LinkedList<usize>,
    pub passes: LinkedList<Record>,
    /// The steps of all passes, in one order in which they find what they found.
    pub interleaving: LinkedList<PassStep>,
    pub effects: KeeperEffects,
}
