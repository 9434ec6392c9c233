//! What the bytes of the store's files mean. The definitions stand in the specs; here are their numbers.
#![tactic(auto)]

ghost use Rattle.std.specs.Prelude.{◌≡◌};
ghost use Rattle.store_layout.specs.Checkpoints as checkpoints;
ghost use Rattle.store_layout.specs.Logs as logs;

mod checkpoint_phase;
pub mod examples;
pub mod laws;
mod log_phase;

pub use checkpoint_phase::CheckpointPhase;
pub use log_phase::Phase;
use log_records::Version;
pub use map_model::MOST_ENTRIES;

/// The version of each new generation.
pub const NEW_VERSION: Version = Version::Second;

/// A gate is open if its byte is this one, and closed for every other byte.
pub const OPEN_GATE: u8 = 0xA5;

/// The byte that is written to close a gate.
pub const CLOSED_GATE: u8 = 0;

/// Version, generation and low ticket stand before a log's first gate.
pub const HEADER_BYTES: usize = 17;

/// Kind, length, first ticket and count stand before the records of a batch's frame.
pub const FRAME_HEAD_BYTES: usize = 17;

/// First ticket and count stand before the records of a batch, behind its frame's length.
pub const NUMBERS_BYTES: usize = 12;

/// The kind of a frame with records.
pub const BATCH_KIND: u8 = 1;

/// The kind of the frame that ends a log.
pub const END_KIND: u8 = 2;

/// The most records of a batch.
pub const MOST_RECORDS: usize = 65_536;

/// The most bytes of a batch's frame, with its kind and its length.
pub const MOST_FRAME_BYTES: usize = 1_048_576;

/// The most bytes that a log may have after a batch, with the gate behind it.
pub const MOST_LOG_BYTES: usize = 1 << 40;

/// Version, generation, low ticket, greatest mark, stripes and the length of the body stand behind a
/// checkpoint's gate.
pub const CHECKPOINT_HEADER_BYTES: usize = 35;

/// The sections stand behind the gate and the header.
pub const BODY_OFFSET: usize = 36;

/// Mark and count stand before the entries of a section.
pub const SECTION_HEAD_BYTES: usize = 12;

/// The number of the file that has the checkpoint of this generation.
pub fn checkpoint_file(generation: u64) -> usize
    ensures { result ≡ checkpoints.checkpoint_file generation }
{
    (generation % 2) as usize
}

/// The number of the file that has the log of this generation.
pub fn log_file(generation: u64) -> usize
    ensures { result ≡ logs.log_file generation }
{
    2 + (generation % 2) as usize
}
