//! Threads that sleep until a position is durable, or until changes come. None of it makes a step, and
//! no clause speaks of it. A wake that is lost costs the rest of a sleep.

use crate::stripes::{DURABLE, FAILURE, Stripes, TICKETS};
use std::sync::Wait;
use std::sync::atomic::Ordering;
use std::time::Duration;
use ticket_order::Position;

/// For how many milliseconds a thread sleeps at most before it looks again.
const LONGEST_SLEEP: u64 = 100;

/// What the kernel compares before it lets a thread sleep: the low 32 bits of the word.
fn low_bits(word: u64) -> u32 {
    (word % (1 << 32)) as u32
}

impl Stripes {
    /// Whether a release at this position will likely end: the durable count has reached it, or a FAIL
    /// was made. It is a hint, and makes no step.
    pub fn may_release(&self, position: Position) -> bool {
        let words = &self.table.shared;
        position.number() <= words.peek(DURABLE) || words.peek(FAILURE) != 0
    }

    /// Returns at once if the durable count has reached the position or a FAIL was made, else after a
    /// sleep of at most a tenth of a second. `wake_released` ends the sleep. The caller looks again.
    pub fn sleep_until_durable<R: Wait>(&self, rt: &R, position: Position) {
        let words = &self.table.shared;
        self.waiters.fetch_add(1, Ordering::SeqCst);
        let durable = words.peek(DURABLE);
        if durable < position.number() && words.peek(FAILURE) == 0 {
            words.park_timeout(
                rt,
                DURABLE,
                low_bits(durable),
                Duration::from_millis(LONGEST_SLEEP),
            );
        }
        self.waiters.fetch_sub(1, Ordering::SeqCst);
    }

    /// Wakes all threads that sleep until a position is durable. If none does, nothing is asked of the
    /// system.
    pub fn wake_released(&self) {
        if self.waiters.load(Ordering::SeqCst) != 0 {
            self.table.shared.wake_all(DURABLE);
        }
    }

    /// Wakes all threads that sleep until a position is durable, or until a FAIL is made.
    pub fn wake_failed(&self) {
        self.table.shared.wake_all(DURABLE);
        self.table.shared.wake_all(FAILURE);
    }

    /// Whether the ticket count isn't this one: other changes have drawn their tickets. It is a hint,
    /// and makes no step.
    pub fn has_changed(&self, count: u64) -> bool {
        self.table.shared.peek(TICKETS) != count
    }

    /// Returns at once if the ticket count isn't this one, else after a sleep of at most a tenth of a
    /// second, which `wake_keeper` ends. The caller looks again.
    pub fn sleep_until_changed<R: Wait>(&self, rt: &R, count: u64) {
        self.resting.store(1, Ordering::SeqCst);
        if !self.has_changed(count) {
            self.table.shared.park_timeout(
                rt,
                TICKETS,
                low_bits(count),
                Duration::from_millis(LONGEST_SLEEP),
            );
        }
        self.resting.store(0, Ordering::SeqCst);
    }

    /// How many tickets were drawn. It is a hint, and makes no step.
    pub fn ticket_count(&self) -> u64 {
        self.table.shared.peek(TICKETS)
    }

    /// Whether the thread that sleeps until changes come does so now, and wasn't woken. It is a hint.
    pub fn is_keeper_resting(&self) -> bool {
        self.resting.load(Ordering::SeqCst) != 0
    }

    /// Wakes the thread that sleeps until changes come. If it doesn't sleep, or was woken since it went
    /// to sleep, nothing is asked of the system.
    pub fn wake_keeper(&self) {
        if self.resting.load(Ordering::SeqCst) != 0 && self.resting.swap(0, Ordering::SeqCst) != 0 {
            self.table.shared.wake_one(TICKETS);
        }
    }

    /// Returns at once if a FAIL was made, else after a sleep of at most so long, which `wake_failed`
    /// ends. The caller looks again.
    pub fn sleep_until_failed<R: Wait>(&self, rt: &R, longest: Duration) {
        let words = &self.table.shared;
        if words.peek(FAILURE) == 0 {
            words.park_timeout(rt, FAILURE, 0, longest);
        }
    }
}
