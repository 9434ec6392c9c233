//! The words of one call, and the text of what it returns; what the lines of the program share: its exit
//! statuses, what it prints, the numbers in its words, its version.
#![tactic(auto)]

pub mod agreement;
pub mod answers;
pub mod asked;
pub mod bad_word;
pub mod called;
pub mod exits;
pub mod named;
mod names;
pub mod values;
pub mod version;

pub use agreement::words_agree;
pub use answers::{refusal_text, reply_text};
pub use asked::{Asked, parse_call};
pub use bad_word::{BadWord, CallError};
pub use called::{Called, parse_words};
pub use exits::{
    DONE, MISUSED, REFUSED, break_off, cannot_open, print, refuse, say, stream_failed,
};
pub use named::{port_named, stripes_named};
pub use values::{argument_of, value_of, value_word};
pub use version::VERSION;
