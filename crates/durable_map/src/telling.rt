//! How a running map stands, for who watches it. The figures are hints: no clause speaks of them.

use crate::map::DurableMap;
use disk_model::Disk;
use std::sync::Wait;
use std::time::{Duration, Instant};

/// A checkpoint that was sealed.
#[derive(Clone, Copy)]
pub struct SealedCheckpoint {
    pub generation: u64,
    /// How many entries it has.
    pub entries: u64,
    /// When it was begun and when it was sealed, if the clock told.
    pub begun: Option<Instant>,
    pub ended: Option<Instant>,
}

impl SealedCheckpoint {
    /// How long it took, if the clock told.
    pub fn spent(&self) -> Option<Duration> {
        match (self.begun, self.ended) {
            (Some(begun), Some(ended)) => Some(ended.duration_since(begun)),
            _ => None,
        }
    }
}

/// How a running map stands.
#[derive(Clone, Copy)]
pub struct Standing {
    /// How many changes were made, those before this life too.
    pub tickets: u64,
    /// How many of them are durable.
    pub durable: u64,
    /// How many batches were committed in this life.
    pub batches: u64,
    /// How many bytes the newest log has, without the zeros ahead.
    pub log_bytes: u64,
    /// The generation of the sealed checkpoint.
    pub generation: u64,
    /// The checkpoint that was sealed last in this life.
    pub sealed: Option<SealedCheckpoint>,
}

impl<D: Disk + Drop> DurableMap<D> {
    /// How the map stands. It waits for the turn of a loop that is under way.
    pub fn standing<R: Wait>(&self, rt: &R) -> Standing {
        let (locked, loan) = self.take_keeper(rt);
        let standing = locked.standing(self.stripes.ticket_count());
        self.give_keeper(locked, loan);
        standing
    }
}

/// What is told of the work that was done in this life.
#[derive(Clone, Copy)]
pub(crate) struct Done {
    // how many batches were committed
    pub(crate) batches: u64,
    // when the checkpoint under way was begun, and how many entries of it were captured
    pub(crate) begun: Option<Instant>,
    pub(crate) captured: u64,
    // the checkpoint that was sealed last
    pub(crate) sealed: Option<SealedCheckpoint>,
}

impl Done {
    pub(crate) fn new() -> Done {
        Done {
            batches: 0,
            begun: None,
            captured: 0,
            sealed: None,
        }
    }

    /// A batch was committed, if so.
    pub(crate) fn note_batch(&mut self, is_batch: bool) {
        if is_batch {
            self.batches = self.batches.saturating_add(1);
        }
    }

    /// A checkpoint was begun.
    pub(crate) fn note_begun(&mut self, now: Option<Instant>) {
        self.begun = now;
        self.captured = 0;
    }

    /// A stripe with so many entries was captured.
    pub(crate) fn note_captured(&mut self, entries: usize) {
        self.captured = self.captured.saturating_add(entries as u64);
    }
}
