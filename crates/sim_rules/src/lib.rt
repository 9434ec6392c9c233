//! Whole schedules: events and outcomes, what may come of each event, and the machine of one list
//! that every run is a run of.
#![tactic(auto)]

pub mod event;
pub mod examples;
pub mod laws;
pub mod outcome;

pub use event::{Ending, Event, Side};
pub use outcome::{DeviceCall, End, Made, MapEntry, Outcome};
