//! A vector that is kept for its memory.
use std::alloc::Global;
use std::marker::Model;
use std::mem;
use ticket_order::Entry;

/// A vector that the next stripe gets for its outbox. It is kept for its memory alone: contracts don't
/// see what is in it.
#[derive(Drop)]
pub struct Spare {
    entries: Vec<Entry>,
}

impl Model for Spare {
    ghost Value = { Unit {0} };

    ghost view = { λ _. tt };
}

impl Spare {
    /// It takes no memory.
    pub(crate) fn new(alloc: Global) -> Spare {
        Spare {
            entries: Vec::new(alloc),
        }
    }

    /// The vector, in whose place comes one with no memory.
    pub(crate) fn take(&mut self, alloc: Global) -> Vec<Entry> {
        mem::replace(&mut self.entries, Vec::new(alloc))
    }

    /// Keeps this vector.
    pub(crate) fn keep(&mut self, entries: Vec<Entry>) {
        drop(mem::replace(&mut self.entries, entries));
    }
}
