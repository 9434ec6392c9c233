//! The log of the committed batches: each batch stands behind a gate byte that is opened by a write of its own.
#![tactic(auto)]

mod ahead;
mod commit;
mod frames;
pub mod laws;
mod log;
mod parts;
mod place;
mod scan;
mod zeros;

pub use commit::commit_staged;
pub use laws::stops_of_a_log;
pub use log::GateLog;
pub use scan::{Found, Scan, one_reading};
pub use store_layout::Phase;
pub use zeros::Zeros;
