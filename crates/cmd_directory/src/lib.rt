//! A directory is formatted, or looked at, and what came of it is printed.
#![tactic(auto)]

pub mod directory;
pub mod opening;
pub mod summary;

pub use directory::{check, check_disk, init, init_disk};
pub use opening::{Directories, create_directory, open_directory};
pub use summary::{Summary, summarize};
