//! The keys of one thread.

use map_types::Refusal;
use std::alloc::Global;

/// The text of a key, and the number that it has.
#[derive(Drop)]
pub(crate) struct NumberedKey {
    pub number: u32,
    pub text: String,
}

/// The numbers of one thread's keys: from `first` on, each `step` above the one before, below `end`.
#[derive(Clone, Copy)]
pub(crate) struct Share {
    pub first: u32,
    pub step: usize,
    pub end: u32,
}

impl Share {
    /// The keys of these numbers.
    pub(crate) fn keys(self, alloc: Global) -> Result<Vec<NumberedKey>, Refusal> {
        let mut keys = Vec::new(alloc);
        for number in (self.first..self.end).step_by(self.step.max(1)) {
            keys.push(NumberedKey {
                number,
                text: format!(in alloc; "key{number:07}")?,
            })?;
        }
        Ok(keys)
    }
}
