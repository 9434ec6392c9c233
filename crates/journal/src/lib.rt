//! The journal of one store: its keeper with the steps of the keeper's pass, as one value that keeps
//! what holds between their calls.
#![tactic(auto)]

mod checkpoints;
pub mod laws;
mod logs;
mod own_calls;
mod own_steps;
mod owner;
mod sweeping;

pub use own_steps::OwnSteps;
pub use owner::Journal;
