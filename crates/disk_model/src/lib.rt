//! Four numbered files of bytes, and what a stop of the machine may leave of them.
#![tactic(auto)]

mod device;
mod dir;
mod disk;
mod file_calls;
mod fill;
mod first_error;
mod kept;
mod memory;
mod past;
mod plan;

pub use device::{DeviceCall, fill_at};
pub use dir::{DirDisk, Start, Unknown};
pub use disk::{DeviceError, Disk};
pub use file_calls::{CallLog, FileCalls, OpenFile, Taken};
pub use fill::Fill;
pub use first_error::{FileError, FirstError};
pub use memory::MemDisk;
pub use plan::Failure;
