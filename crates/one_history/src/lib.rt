//! The one history of all passes on the same words: what each of the eight steps does to it, and
//! that each step keeps it. The words of one thread and those that threads share stand on it.
#![tactic(auto)]

pub mod book;
pub mod parts;
pub mod slot;

pub use book::{Book, KeeperEffects, PassStep};
pub use parts::empty_parts;
pub use slot::Slot;
