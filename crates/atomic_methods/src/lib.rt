//! One stripe's map, and what a change and a read do on it.
#![tactic(auto)]

mod lending;
mod parts;
mod plans;
mod ready;

pub use parts::{Part, Prepared};
pub use ready::{Acted, Ready, Unready};
