//! What is asked of the map, and what it returns.
ghost use Rattle.std.specs.Prelude.{◌≡◌, ◌<◌, ◌≤◌, ◌⊎◌, IfSome, IfNone};
ghost use Rattle.map_types.specs.Numbers.{func_number, fault_number};

use crate::keys::Key;
use crate::texts::Value;
use thiserror::Error;

/// A named function of an old value, or absent, and an argument, or absent.
#[derive(Clone, Copy, Debug, PartialEq, Eq)]
pub enum Func {
    /// The argument.
    Const,
    /// Absent.
    Drop,
    /// The old value.
    Keep,
    /// The sum, wrapping in 64 bits (Java's `Long.sum`).
    Sum,
    /// The greater (Java's `Long.max`).
    Max,
    /// The lesser (Java's `Long.min`).
    Min,
    /// The old text followed by the argument (Java's `String.concat`).
    Concat,
    /// As `Sum`, and absent if the sum is 0.
    SumNonzero,
    /// As `Sum`, and a fault if the sum has more than 64 bits (Java's `Math.addExact`).
    SumExact,
}

impl Func {
    /// The function with this number, from 1 to 9.
    pub fn of(number: u8) -> Option<Func>
        ensures found { IfSome result (λ func. func_number func ≡ number) }
        ensures unknown { IfNone result ((number ≡ 0) ⊎ (9 < number)) }
    {
        match number {
            1 => Some(Func::Const),
            2 => Some(Func::Drop),
            3 => Some(Func::Keep),
            4 => Some(Func::Sum),
            5 => Some(Func::Max),
            6 => Some(Func::Min),
            7 => Some(Func::Concat),
            8 => Some(Func::SumNonzero),
            9 => Some(Func::SumExact),
            _ => None,
        }
    }

    pub fn number(self) -> u8
        ensures { result ≡ func_number self }
    {
        match self {
            Func::Const => 1,
            Func::Drop => 2,
            Func::Keep => 3,
            Func::Sum => 4,
            Func::Max => 5,
            Func::Min => 6,
            Func::Concat => 7,
            Func::SumNonzero => 8,
            Func::SumExact => 9,
        }
    }
}

/// What a change does to its key; each is a method of Java 17's `ConcurrentMap`.
#[derive(Clone, Debug, Drop, PartialEq, Eq)]
pub enum Change {
    Put(Value),
    PutIfAbsent(Value),
    Remove,
    /// Java's `remove(key, value)`.
    RemoveIf(Value),
    Replace(Value),
    /// Java's `replace(key, oldValue, newValue)`.
    ReplaceIf { old: Value, new: Value },
    Compute(Func, Option<Value>),
    ComputeIfAbsent(Func, Option<Value>),
    ComputeIfPresent(Func, Option<Value>),
    Merge(Func, Value),
}

/// A change of one key.
#[derive(Clone, Debug, Drop, PartialEq, Eq)]
pub struct Command {
    pub key: Key,
    pub change: Change,
}

/// What is asked of one key; each is a method of Java 17's `ConcurrentMap`.
#[derive(Clone, Debug, Drop, PartialEq, Eq)]
pub enum Question {
    Get,
    GetOrDefault(Value),
    ContainsKey,
}

/// A question about one key.
#[derive(Clone, Debug, Drop, PartialEq, Eq)]
pub struct Read {
    pub key: Key,
    pub question: Question,
}

/// Why a function has no result.
#[derive(Clone, Copy, Debug, PartialEq, Eq, Error)]
pub enum FuncError {
    #[error("1 WrongKind")]
    WrongKind,
    #[error("2 TooLong")]
    TooLong,
    #[error("3 Overflow")]
    Overflow,
}

impl FuncError {
    pub fn number(self) -> u8
        ensures { result ≡ fault_number self }
    {
        match self {
            FuncError::WrongKind => 1,
            FuncError::TooLong => 2,
            FuncError::Overflow => 3,
        }
    }
}

/// What a change or a read returns.
#[derive(Clone, Debug, Drop, PartialEq, Eq)]
pub enum Reply {
    /// The value before, or absent.
    Was(Option<Value>),
    /// The value now, or absent.
    Now(Option<Value>),
    /// Whether it was so, or was done.
    Did(bool),
    /// The function faulted, and the mapping stayed as it was.
    Fault(FuncError),
}
