//! The file of a checkpoint. Its header and its sections are written behind a closed gate. The gate
//! is opened by a write of its own once they are on the disk.
#![tactic(auto)]

mod front;
mod gate;
mod head;
pub mod laws;
mod loading;
mod marks;
mod one_section;
mod pieces;
mod sections;
mod unread;
mod writer;

pub use gate::must_close;
pub use head::{Head, read_head};
pub use laws::stops_of_a_checkpoint;
pub use loading::{LoadedCheckpoint, LoadedSection, load};
pub use sections::header;
pub use store_layout::CheckpointPhase;
pub use writer::CheckpointWriter;
/// The short name of the same type.
pub use writer::CheckpointWriter as CkptWriter;
