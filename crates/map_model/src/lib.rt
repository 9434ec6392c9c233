//! The model: a finite map from keys to values, changed by one command at a time. Its replies are
//! those of a `ConcurrentMap` of one thread.
#![tactic(auto)]

pub mod laws;
pub mod outcomes;
pub mod reference;

pub use outcomes::{Outcome, answer_at};
pub use reference::ReferenceMap;

/// The most entries of a stripe of which a checkpoint has a section: their count has four bytes there.
pub const MOST_ENTRIES: usize = u32::MAX as usize;
