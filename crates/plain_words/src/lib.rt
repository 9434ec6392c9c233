//! The shared words and the stripes kept by one thread, for any number of passes.
#![tactic(auto)]

pub mod at;
mod ghost_book;
pub mod words;

pub use at::At;
pub use words::PlainWords;
