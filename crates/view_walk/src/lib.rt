//! The walk of a view of all stripes, as a machine that makes one step at a time: TAKE, LOOK, GIVE
//! on each stripe in rising order, then SEE. While the greatest mark isn't durable, it makes ALIVE
//! and SEE again.
#![tactic(auto)]

mod awaiting;
mod parts;
mod walk;

pub use parts::{PartsWalk, PartsWalked};
pub use walk::{Captured, ViewWalk, Viewed};
