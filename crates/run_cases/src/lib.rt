//! Cases that stand as lines in files of data, and what is told of each as it is played.
#![tactic(auto)]

mod bytes;
mod cases;
mod entries;
mod names;

pub use bytes::{bytes_spelled, hexadecimal};
pub use cases::{Plays, told_of};
pub use entries::put_entries;
pub use names::{Names, number};
