//! What wakes the workers.

use crate::begun::Begun;
use crate::errands::Errand;
use crossbeam_channel::Sender;
use disk_model::Disk;
use durable_map::{DurableMap, Ends};
use mio::{Registry, Token, Waker};
use std::alloc::Global;
use std::io;
use std::sync::atomic::{AtomicU64, AtomicUsize, Ordering};
use ticket_order::Position;

/// The token of what wakes a worker.
pub(crate) const WAKE: Token = Token(usize::MAX);

/// The bells of all workers, one of which is rung after each turn of the log.
#[derive(Drop)]
pub(crate) struct Chime<'a, D: Disk + Drop> {
    pub(crate) map: &'a DurableMap<D>,
    pub(crate) bells: &'a [Bell],
}

impl<D: Disk + Drop> Ends for Chime<'_, D> {
    fn has_ended(&self) -> bool {
        false
    }

    fn turn_ended(&self) {
        ring_next(self.bells, self.map);
    }
}

/// Wakes the first worker that waits for a position that is durable, if one does. That worker wakes the
/// next one so, and the log goes on behind one wake.
pub(crate) fn ring_next<D: Disk + Drop>(bells: &[Bell], map: &DurableMap<D>) {
    for bell in bells {
        if bell.ring_for(map) {
            return;
        }
    }
}

/// What wakes a worker: for connections that come, and once the least position that it awaits is
/// durable.
#[derive(Drop)]
pub struct Bell {
    waker: Waker,
    // the number of that position; 0 is for none
    awaited: AtomicU64,
    // how many clients the worker has, with those that were handed to it
    clients: AtomicUsize,
    // the least number that one of its clients waited for at the end of its last round; 0 is for none
    least: AtomicU64,
}

impl Bell {
    /// The bell of the worker that waits with this registry.
    pub(crate) fn new(registry: &Registry) -> io::Result<Bell> {
        Ok(Bell {
            waker: Waker::new(registry, WAKE)?,
            awaited: AtomicU64::new(0),
            clients: AtomicUsize::new(0),
            least: AtomicU64::new(0),
        })
    }

    /// Wakes the worker. If it can't be woken, it looks by itself after a while.
    pub(crate) fn ring(&self) {
        let _ = self.waker.wake();
    }

    /// How many clients the worker has, with those that were handed to it.
    pub(crate) fn clients(&self) -> usize {
        self.clients.load(Ordering::SeqCst)
    }

    /// A client was handed to the worker, which is woken.
    pub(crate) fn client_came(&self) {
        let _ = self.clients.fetch_add(1, Ordering::SeqCst);
        self.ring();
    }

    /// The least number that a client of the worker waits for, if one does.
    pub(crate) fn note_least(&self, number: Option<u64>) {
        self.least.store(number.unwrap_or(0), Ordering::SeqCst);
    }

    /// The same, as it was last noted; 0 is for none.
    pub(crate) fn least(&self) -> u64 {
        self.least.load(Ordering::SeqCst)
    }

    /// A client of the worker is gone.
    pub(crate) fn client_left(&self) {
        let _ = self.clients.fetch_sub(1, Ordering::SeqCst);
    }

    /// The worker is to be woken once the position with this number is durable.
    pub(crate) fn listen(&self, number: u64) {
        self.awaited.store(number, Ordering::SeqCst);
    }

    /// The worker is awake.
    pub(crate) fn rest(&self) {
        self.awaited.store(0, Ordering::SeqCst);
    }

    /// Wakes the worker, if it waits for a position that is durable, or if the store has failed.
    /// Nothing is asked of the system for one that waits for none. It says whether it was woken.
    pub fn ring_for<D: Disk + Drop>(&self, map: &DurableMap<D>) -> bool {
        let number = self.awaited.load(Ordering::SeqCst);
        if number == 0 || !map.may_finish_at(Position::new(number)) {
            return false;
        }
        let waits = self.awaited.swap(0, Ordering::SeqCst) != 0;
        if waits {
            self.ring();
        }
        waits
    }
}
