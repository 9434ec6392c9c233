//! What each worker counts, if a server writes records of its work. A figure is a hint: no clause
//! speaks of it.

use std::alloc::{AllocError, Global};
use std::sync::atomic::{AtomicU64, Ordering};

/// How many ranges of times are told apart. The first is below a microsecond, and each further one
/// reaches to twice as many as the one before it.
const RANGES: usize = 40;

/// How many nanoseconds a microsecond has.
const MICROSECOND: u64 = 1_000;

/// What a worker counts. It alone adds to it, and the thread that writes the records takes it.
#[derive(Drop)]
pub struct Tally {
    // of the requests that were answered or given up since the last record: the sum of their times,
    // the longest, and how many lie in each range
    nanos: AtomicU64,
    longest: AtomicU64,
    ranges: Vec<AtomicU64>,
    // how many clients there are, and how many connections hold calls
    clients: AtomicU64,
    held: AtomicU64,
}

impl Tally {
    fn new(alloc: Global) -> Result<Tally, AllocError> {
        let mut ranges = Vec::with_capacity(alloc, RANGES)?;
        for _ in 0..RANGES {
            ranges.push(AtomicU64::new(0))?;
        }
        Ok(Tally {
            nanos: AtomicU64::new(0),
            longest: AtomicU64::new(0),
            ranges,
            clients: AtomicU64::new(0),
            held: AtomicU64::new(0),
        })
    }

    /// A request took so many nanoseconds.
    pub(crate) fn note_time(&self, nanos: u64) {
        let micros = nanos / MICROSECOND;
        let range = u64::BITS.saturating_sub(micros.leading_zeros()) as usize;
        if let Some(count) = self.ranges.get(range.min(RANGES - 1)) {
            let _ = count.fetch_add(1, Ordering::SeqCst);
        }
        let _ = self.nanos.fetch_add(nanos, Ordering::SeqCst);
        if self.longest.load(Ordering::SeqCst) < nanos {
            self.longest.store(nanos, Ordering::SeqCst);
        }
    }

    /// The worker has so many clients, of whose connections so many hold calls.
    pub(crate) fn note_clients(&self, clients: usize, held: usize) {
        self.clients.store(clients as u64, Ordering::SeqCst);
        self.held.store(held as u64, Ordering::SeqCst);
    }
}

/// A tally for each of so many workers.
pub(crate) fn tallies(alloc: Global, count: usize) -> Result<Vec<Tally>, AllocError> {
    let mut tallies = Vec::with_capacity(alloc, count)?;
    for _ in 0..count {
        tallies.push(Tally::new(alloc)?)?;
    }
    Ok(tallies)
}

/// What all workers have counted since the last record.
#[derive(Drop)]
pub(crate) struct Totals {
    /// How many requests were answered or given up.
    pub(crate) calls: u64,
    nanos: u64,
    longest: u64,
    ranges: [u64; RANGES],
    /// How many clients have a worker, and how many connections hold calls.
    pub(crate) clients: u64,
    pub(crate) held: u64,
}

impl Totals {
    /// Takes what these have counted: they begin again.
    pub(crate) fn of(tallies: &[Tally]) -> Totals {
        let mut totals = Totals {
            calls: 0,
            nanos: 0,
            longest: 0,
            ranges: [0; RANGES],
            clients: 0,
            held: 0,
        };
        for tally in tallies {
            totals.take(tally);
        }
        totals
    }

    fn take(&mut self, tally: &Tally) {
        let mut calls: u64 = 0;
        for (total, count) in self.ranges.iter_mut().zip(&tally.ranges) {
            let count = count.swap(0, Ordering::SeqCst);
            *total = total.saturating_add(count);
            calls = calls.saturating_add(count);
        }
        self.calls = self.calls.saturating_add(calls);
        let nanos = tally.nanos.swap(0, Ordering::SeqCst);
        self.nanos = self.nanos.saturating_add(nanos);
        self.longest = self.longest.max(tally.longest.swap(0, Ordering::SeqCst));
        let clients = tally.clients.load(Ordering::SeqCst);
        self.clients = self.clients.saturating_add(clients);
        self.held = self.held.saturating_add(tally.held.load(Ordering::SeqCst));
    }

    /// The mean time of a request, in microseconds; 0 if there was none.
    pub(crate) fn mean(&self) -> u64 {
        if self.calls == 0 {
            return 0;
        }
        self.nanos / self.calls / MICROSECOND
    }

    /// The longest, in microseconds.
    pub(crate) fn longest(&self) -> u64 {
        self.longest / MICROSECOND
    }

    /// The least power of two of microseconds below which so many of a hundred requests were; 0 if
    /// there was none.
    pub(crate) fn percentile(&self, percent: u64) -> u64 {
        let wanted = self.calls.saturating_mul(percent);
        let mut bound: u64 = 1;
        let mut found: u64 = 0;
        for count in &self.ranges {
            found = found.saturating_add(*count);
            if found > 0 && found.saturating_mul(100) >= wanted {
                return bound;
            }
            bound = bound.saturating_mul(2);
        }
        0
    }
}
