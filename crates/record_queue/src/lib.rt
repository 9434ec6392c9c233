//! Records that one thread writes, so that no other waits for who reads them.
#![tactic(auto)]

mod after;
mod backlog;
mod queue;
mod shared;
#[cfg(test)]
mod tests;

pub use after::AfterRecords;
pub use backlog::MOST;
pub use queue::RecordQueue;
