//! When the loop that commits a batch is to end.

use durable_map::Ends;
use std::sync::atomic::{AtomicU32, Ordering};

/// A batch has four device calls, and a turn before them takes up what was changed.
const TURNS_OF_A_BATCH: u32 = 5;

/// Ends a loop after as many turns as one batch takes.
#[derive(Drop)]
pub(crate) struct Turns {
    left: AtomicU32,
}

impl Turns {
    /// As many turns as one batch takes.
    pub(crate) fn of_a_batch() -> Turns {
        Turns {
            left: AtomicU32::new(TURNS_OF_A_BATCH),
        }
    }
}

impl Ends for Turns {
    fn has_ended(&self) -> bool {
        let left = self.left.load(Ordering::SeqCst);
        self.left.store(left.saturating_sub(1), Ordering::SeqCst);
        left == 0
    }
}
