//! What is wrong with the words of a call.
ghost use Rattle.std.specs.Prelude.{◌≡◌};
ghost use Rattle.call_text.specs.declared.bad_word.CallError.TheVariants.{Bad, NoMemory};

use map_types::Refusal;
use std::alloc::AllocError;
use thiserror::Error;

/// What is wrong with a word.
#[derive(Clone, Copy, Debug, PartialEq, Eq, Error)]
pub enum BadWord {
    /// It is no method, or none is there.
    #[error("no such method")]
    Method,
    /// There are fewer or more words than the method takes.
    #[error("too few words, or too many")]
    Count,
    /// It is no function.
    #[error("no such function")]
    Function,
    /// It is no value.
    #[error("no such value")]
    Value,
    /// It is absent, and a value is needed.
    #[error("a value is needed")]
    Absent,
    /// It is no threshold.
    #[error("a threshold is a number from 0 to 18446744073709551615")]
    Threshold,
    /// It is a key above its limit.
    #[error("a key has at most 4095 bytes")]
    KeyTooLong,
    /// It is a text above its limit.
    #[error("a text has at most 4096 bytes")]
    TextTooLong,
}

/// Why words are not read as a call.
#[derive(Clone, Copy, Debug, PartialEq, Eq, Error)]
pub enum CallError {
    #[error("{0}")]
    Bad(BadWord),
    #[error("no memory")]
    NoMemory,
}

impl From<BadWord> for CallError {
    ghost from_gives = { λ word error. error ≡ Bad word };

    fn from(word: BadWord) -> CallError {
        CallError::Bad(word)
    }
}
