//! The keeper brings the entries of the stripes to the log. It sweeps their outboxes, holds the
//! entries in hand, and commits them batch by batch in the order of their tickets.
#![tactic(auto)]

mod ahead;
mod batching;
mod in_hand;
mod keeper;
pub mod laws;
mod logs;
mod spare;
mod sweeper;
mod sweeping;

pub use in_hand::{InHand, Run};
pub use keeper::Keeper;
pub use sweeper::{Sweep, Sweeper, Swept, Walking};
