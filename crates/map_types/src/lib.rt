//! What is asked of the map and what it returns: keys, values, commands, reads, replies and
//! refusals.
#![tactic(auto)]

pub mod commands;
pub mod keys;
pub mod refusals;
mod short_texts;
pub mod texts;

pub use commands::{Change, Command, Func, FuncError, Question, Read, Reply};
pub use keys::Key;
pub use refusals::Refusal;
pub use texts::{Text, Value};
