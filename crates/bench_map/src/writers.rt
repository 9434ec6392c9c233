//! Threads that make changes until they are told to end, and one that commits what they change.

use crate::maps::MapCaller;
use disk_model::MemDisk;
use durable_map::{DurableMap, Ends, flush_loop};
use map_types::Refusal;
use std::alloc::Global;
use std::sync::Wait;
use std::sync::atomic::{AtomicBool, AtomicU32, Ordering};

/// How many amounts may be added.
const AMOUNTS: u32 = 8;

/// For each 16 entries the writers have one key more, which isn't mapped at first.
const NEW_KEYS: u32 = 16;

/// What the threads share.
#[derive(Drop)]
pub(crate) struct Writing {
    keys: u32,
    is_ending: AtomicBool,
    was_refused: AtomicBool,
    /// How many writers have begun and not ended.
    writers: AtomicU32,
}

/// The thread that commits ends behind the writers, which wait for it.
impl Ends for Writing {
    fn has_ended(&self) -> bool {
        self.is_ending.load(Ordering::SeqCst) && self.writers.load(Ordering::SeqCst) == 0
    }
}

/// Numbers that look random: Knuth's linear congruence, whose upper bits are taken.
#[derive(Drop)]
struct Dice {
    state: u64,
}

impl Dice {
    fn below(&mut self, most: u32) -> u32 {
        self.state = self
            .state
            .wrapping_mul(6364136223846793005)
            .wrapping_add(1442695040888963407);
        ((self.state >> 33) % u64::from(most.max(1))) as u32
    }
}

impl Writing {
    /// Of a map with `entries` entries.
    pub(crate) fn new(entries: u32) -> Writing {
        Writing {
            keys: entries.saturating_add(entries / NEW_KEYS),
            is_ending: AtomicBool::new(false),
            was_refused: AtomicBool::new(false),
            writers: AtomicU32::new(0),
        }
    }

    /// Tells the threads to end.
    pub(crate) fn end(&self) {
        self.is_ending.store(true, Ordering::SeqCst);
    }

    /// Whether a call of a writer was refused.
    pub(crate) fn was_refused(&self) -> bool {
        self.was_refused.load(Ordering::SeqCst)
    }

    /// Adds to the values of random keys. Each change is durable before the one that follows.
    fn add_on<R: Wait>(
        &self,
        rt: &R,
        alloc: Global,
        map: &DurableMap<MemDisk>,
        thread: u32,
    ) -> Result<(), Refusal> {
        let mut caller = MapCaller::new(alloc, map)?;
        let mut dice = Dice {
            state: u64::from(thread),
        };
        for _change in rt.forever() {
            if self.is_ending.load(Ordering::SeqCst) {
                return Ok(());
            }
            let number = dice.below(self.keys);
            caller.add(rt, number, dice.below(AMOUNTS))?;
        }
        unreachable!()
    }
}

/// The work of the thread of this number: the first one commits, and each other is a writer.
pub(crate) fn work<R: Wait>(
    rt: &R,
    alloc: Global,
    map: &DurableMap<MemDisk>,
    writing: &Writing,
    thread: u32,
) {
    if thread == 0 {
        let _ended = flush_loop(rt, map, writing);
        return;
    }
    writing.writers.fetch_add(1, Ordering::SeqCst);
    if writing.add_on(rt, alloc, map, thread).is_err() {
        writing.was_refused.store(true, Ordering::SeqCst);
    }
    writing.writers.fetch_sub(1, Ordering::SeqCst);
}
