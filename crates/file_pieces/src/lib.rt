//! A file is read in order, in pieces of a fixed size, each by one device call. So the number of calls
//! follows from the place up to which bytes were asked for.
#![tactic(auto)]

mod buffer;
mod fault;
mod reader;

pub use fault::ReadFault;
pub use reader::{FileReader, PIECE_BYTES};
