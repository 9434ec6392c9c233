//! The running store: a map that many threads share, whose replies are given out once they are durable.
#![tactic(auto)]

mod calls;
mod changes;
mod gathering;
pub mod laws;
mod leading;
mod locked_keeper;
mod loops;
mod map;
mod reads;
mod starts;
mod telling;
mod tries;
mod views;

pub use loops::{Ends, checkpoint_loop, flush_loop};
pub use map::DurableMap;
pub use telling::{SealedCheckpoint, Standing};
pub use view_walk::{Captured, PartsWalk, PartsWalked, ViewWalk, Viewed};
