//! A map in memory on one thread, which answers the requests of a connection.
#![tactic(auto)]

mod committing;
pub mod memory;

pub use memory::{Memory, begun_are_served};
