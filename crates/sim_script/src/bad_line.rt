//! What is wrong with a script.
ghost use Rattle.std.specs.Prelude.{◌≡◌};
ghost use Rattle.sim_script.specs.declared.bad_line.LineError.TheVariants as line_error;
ghost use Rattle.sim_script.specs.declared.bad_line.ScriptError.TheVariants as script_error;

use call_text::BadWord;
use std::alloc::{AllocError, AllocFailed};
use thiserror::Error;

/// What is wrong with a line.
#[derive(Clone, Copy, Debug, PartialEq, Eq, Error)]
pub enum BadLine {
    /// There is no such line.
    #[error("no such line")]
    Unknown,
    /// It is no number that its type can hold.
    #[error("no such number")]
    Number,
    /// The workers are 0 to 63.
    #[error("a worker is a number from 0 to 63")]
    Worker,
    /// It is no number of stripes.
    #[error("S is a power of two from 1 to 256")]
    Stripes,
    /// It is none of `old`, `new` and two hexadecimal digits.
    #[error("no such fill")]
    Fill,
    /// The call has a bad word.
    #[error("{0}")]
    Call(BadWord),
}

/// Why a line is not read.
#[derive(Clone, Copy, Debug, PartialEq, Eq, Error)]
pub enum LineError {
    #[error("{0}")]
    Bad(BadLine),
    #[error("no memory")]
    NoMemory,
}

impl From<AllocError> for LineError {
    ghost from_gives = { λ _ error. error ≡ line_error.NoMemory };

    fn from(_error: AllocError) -> LineError {
        LineError::NoMemory
    }
}

/// Why a script is not read.
#[derive(Clone, Copy, Debug, PartialEq, Eq, Error)]
pub enum ScriptError {
    /// The line with this number, counted from 1 without the empty ones, is bad.
    #[error("line {line}: {fault}")]
    Bad { line: usize, fault: BadLine },
    #[error("no memory")]
    NoMemory,
}

impl From<AllocError> for ScriptError {
    ghost from_gives = { λ _ error. error ≡ script_error.NoMemory };

    fn from(_error: AllocError) -> ScriptError {
        ScriptError::NoMemory
    }
}

impl<T: Drop> From<AllocFailed<T>> for ScriptError {
    ghost from_gives = { λ _ error. error ≡ script_error.NoMemory };

    fn from(_error: AllocFailed<T>) -> ScriptError {
        ScriptError::NoMemory
    }
}
