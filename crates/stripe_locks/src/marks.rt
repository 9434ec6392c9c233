//! Which stripes have entries for the next sweep. It is a hint: none of it makes a step, and no clause
//! speaks of it.

use crate::stripes::Stripes;
use std::sync::atomic::{AtomicU64, Ordering};

/// How many stripes one word has a bit for.
const WORD_BITS: usize = 64;

/// How many words have a bit for each of the most stripes, 256.
pub(crate) const MARK_WORDS: usize = 4;

/// The stripes that were marked when the marks were taken.
#[derive(Clone, Copy)]
pub struct Marks {
    words: [u64; MARK_WORDS],
}

/// The bit of a stripe in its word.
fn bit_of(stripe: usize) -> u64 {
    1 << (stripe % WORD_BITS)
}

/// Words in which no stripe is marked.
pub(crate) fn no_marks() -> [AtomicU64; MARK_WORDS] {
    [
        AtomicU64::new(0),
        AtomicU64::new(0),
        AtomicU64::new(0),
        AtomicU64::new(0),
    ]
}

impl Marks {
    /// Whether the stripe was marked.
    pub fn contains(&self, stripe: usize) -> bool {
        match self.words.get(stripe / WORD_BITS) {
            Some(word) => word & bit_of(stripe) != 0,
            None => false,
        }
    }
}

impl Stripes {
    /// Marks the stripe. If it is marked already, that costs a look.
    pub(crate) fn mark(&self, stripe: usize) {
        if let Some(word) = self.marks.get(stripe / WORD_BITS) {
            let bit = bit_of(stripe);
            if word.load(Ordering::SeqCst) & bit == 0 {
                word.fetch_or(bit, Ordering::SeqCst);
            }
        }
    }

    /// Takes the marks: no stripe is marked then. Each stripe that is given back with entries is marked,
    /// whoever gives it back. So a stripe that a sweep finds held, or puts back for want of memory, is
    /// marked again.
    pub fn take_marks(&self) -> Marks {
        let [first, second, third, fourth] = &self.marks;
        Marks {
            words: [
                first.swap(0, Ordering::SeqCst),
                second.swap(0, Ordering::SeqCst),
                third.swap(0, Ordering::SeqCst),
                fourth.swap(0, Ordering::SeqCst),
            ],
        }
    }
}
