//! A directory is formatted, opened again, and brought to the newest version. Its map is restored from a sealed
//! checkpoint and the logs.
#![tactic(auto)]

mod checkpointing;
mod distinct;
mod divided;
mod due;
mod first_bytes;
mod formatting;
mod grouping;
mod heads;
mod lanes;
mod logs;
mod new_store;
mod opening;
mod reading;
mod replay;
mod restoring;
mod running;
mod syncing;
mod upgrading;

pub use formatting::{format, format_as};
pub use opening::{open, open_parts, open_parts_with};
pub use upgrading::upgrade;
