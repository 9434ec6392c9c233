//! The nine named functions of an old value and an argument.
#![tactic(auto)]

mod functions;

pub use functions::{apply, copied};
