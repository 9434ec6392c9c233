//! How long a batch waits for others. Those whose changes were just committed often come back at once with
//! the next ones. A batch that waits a moment for them serves them all with the same syncs. None of it makes
//! a step, and no clause speaks of it.

use std::sync::atomic::{AtomicU64, Ordering};
use stripe_locks::Stripes;

/// A batch that waits has at most so many changes. Of more changes that come back, half wait already as
/// the others are committed. The halves then keep the disk busy by turns, and a wait would let it rest.
const MOST_EXPECTED: u64 = 8;

/// How often a thread looks at most whether those that are expected have come. That takes about a tenth of
/// a millisecond.
const MOST_LOOKS: u32 = 150_000;

/// How many batches don't wait at most after a wait in vain.
const MOST_SKIPS: u64 = 64;

/// How many changes are expected to come soon.
#[derive(Drop)]
pub(crate) struct Gathering {
    // how many changes were committed after the last batch
    committed: AtomicU64,
    // the ticket count once they have come; 0 if none are expected
    expected: AtomicU64,
    // how many batches are still to be begun without a wait
    skips: AtomicU64,
    // how many batches were to be begun so after the last wait; 0 if it wasn't in vain
    last_skips: AtomicU64,
}

impl Gathering {
    pub(crate) fn new() -> Gathering {
        Gathering {
            committed: AtomicU64::new(0),
            expected: AtomicU64::new(0),
            skips: AtomicU64::new(0),
            last_skips: AtomicU64::new(0),
        }
    }

    /// The ticket count that is expected after a batch of so many changes, or 0.
    fn expected_after(&self, tickets: u64, committed: u64, count: u64) -> u64 {
        let skips = self.skips.load(Ordering::SeqCst);
        if skips > 0 {
            self.skips.store(skips - 1, Ordering::SeqCst);
            return 0;
        }
        let expected = tickets.saturating_add(count);
        if expected.saturating_sub(committed) > MOST_EXPECTED {
            return 0;
        }
        expected
    }

    /// A batch has ended: `committed` changes are committed, and `before` were. As many as it had are
    /// expected again, beside those that wait already.
    pub(crate) fn batch_ended(&self, stripes: &Stripes, before: u64, committed: u64) {
        let count = committed.saturating_sub(before);
        if count > 0 {
            self.committed.store(committed, Ordering::SeqCst);
            let expected = self.expected_after(stripes.ticket_count(), committed, count);
            self.expected.store(expected, Ordering::SeqCst);
        }
    }

    /// Whether some of those that are expected haven't come.
    pub(crate) fn lacks(&self, stripes: &Stripes) -> bool {
        stripes.ticket_count() < self.expected.load(Ordering::SeqCst)
    }

    /// How many changes wait.
    pub(crate) fn waiting(&self, stripes: &Stripes) -> u64 {
        let committed = self.committed.load(Ordering::SeqCst);
        stripes.ticket_count().saturating_sub(committed)
    }

    /// Waits a moment, and says whether so many tickets were drawn.
    fn wait(stripes: &Stripes, expected: u64) -> bool {
        for _look in 0..MOST_LOOKS {
            if stripes.ticket_count() >= expected {
                return true;
            }
        }
        false
    }

    /// Returns once those have come that are expected, or after a moment. After a wait in vain the next
    /// batches don't wait: one, and twice as many each time.
    pub(crate) fn gather(&self, stripes: &Stripes) {
        if self.expected.load(Ordering::SeqCst) == 0 {
            return;
        }
        let expected = self.expected.swap(0, Ordering::SeqCst);
        let skips = if Gathering::wait(stripes, expected) {
            0
        } else {
            let last = self.last_skips.load(Ordering::SeqCst);
            last.saturating_mul(2).clamp(1, MOST_SKIPS)
        };
        self.last_skips.store(skips, Ordering::SeqCst);
        self.skips.store(skips, Ordering::SeqCst);
    }
}
