//! Whole schedules, played over a disk in memory: the walks of the workers on the plain words, and the
//! keeper of the store.
#![tactic(auto)]

mod beginning;
mod calling;
mod entries;
mod job;
mod keeping;
mod life;
mod running;
mod store;
mod traced;
mod walking;
mod watched;

pub use disk_model::Fill;
pub use running::{Trace, run};
pub use sim_rules::{DeviceCall, End, Ending, Event, Made, MapEntry, Outcome, Side};
