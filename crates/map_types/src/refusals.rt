//! Why a call was refused.
ghost use Rattle.std.specs.Prelude.{◌≡◌};
ghost use Rattle.map_types.specs.Refusals.{refusal_number};
ghost use Rattle.map_types.specs.declared.refusals.Refusal.TheVariants.{NoMemory};

use std::alloc::{AllocError, AllocFailed};
use thiserror::Error;

/// Why a call was refused; it prints as its number, its name, and then the stripe, or the file and
/// the offset, that it names.
#[derive(Clone, Copy, Debug, PartialEq, Eq, Error)]
pub enum Refusal {
    /// An absent value where one is needed.
    #[error("1 NullValue")]
    NullValue,
    /// A key above its limit.
    #[error("2 KeyTooLong")]
    KeyTooLong,
    /// A text above 4,096 bytes.
    #[error("3 ValueTooLong")]
    ValueTooLong,
    /// No such method.
    #[error("4 UnknownMethod")]
    UnknownMethod,
    /// No such function.
    #[error("5 UnknownFunction")]
    UnknownFunction,
    /// Bytes missing or left over, an unknown kind of value, or a refused length.
    #[error("6 BadFrame")]
    BadFrame,
    /// A growth was refused.
    #[error("7 NoMemory")]
    NoMemory,
    /// The key's stripe was found held.
    #[error("8 Busy {stripe}")]
    Busy { stripe: usize },
    /// A device call failed in this life; the store is to be opened again.
    #[error("9 Failed")]
    Failed,
    /// The ticket count has reached 2^62.
    #[error("10 TicketsSpent")]
    TicketsSpent,
    /// No sealed checkpoint.
    #[error("11 NotFormatted")]
    NotFormatted,
    /// The file breaks a rule of its layout at this offset.
    #[error("12 Damaged {file} {offset}")]
    Damaged { file: u8, offset: u64 },
    /// An unknown version byte.
    #[error("13 WrongVersion")]
    WrongVersion,
    /// The log or a section would pass its greatest size.
    #[error("14 LogFull")]
    LogFull,
    /// A sealed checkpoint is there.
    #[error("15 AlreadyFormatted")]
    AlreadyFormatted,
    /// The call doesn't fit the phase.
    #[error("16 WrongPhase")]
    WrongPhase,
    /// The durable count is below the greatest mark.
    #[error("17 TooEarly")]
    TooEarly,
    /// A key or a text isn't UTF-8.
    #[error("18 NotText")]
    NotText,
    /// All 4,096 passes of this life are out.
    #[error("19 SeatsSpent")]
    SeatsSpent,
}

impl Refusal {
    pub fn number(self) -> u8
        ensures { result ≡ refusal_number self }
    {
        match self {
            Refusal::NullValue => 1,
            Refusal::KeyTooLong => 2,
            Refusal::ValueTooLong => 3,
            Refusal::UnknownMethod => 4,
            Refusal::UnknownFunction => 5,
            Refusal::BadFrame => 6,
            Refusal::NoMemory => 7,
            Refusal::Busy { .. } => 8,
            Refusal::Failed => 9,
            Refusal::TicketsSpent => 10,
            Refusal::NotFormatted => 11,
            Refusal::Damaged { .. } => 12,
            Refusal::WrongVersion => 13,
            Refusal::LogFull => 14,
            Refusal::AlreadyFormatted => 15,
            Refusal::WrongPhase => 16,
            Refusal::TooEarly => 17,
            Refusal::NotText => 18,
            Refusal::SeatsSpent => 19,
        }
    }
}

impl From<AllocError> for Refusal {
    ghost from_gives = { λ _ refusal. refusal ≡ NoMemory };

    fn from(_error: AllocError) -> Refusal {
        Refusal::NoMemory
    }
}

impl<T: Drop> From<AllocFailed<T>> for Refusal {
    ghost from_gives = { λ _ refusal. refusal ≡ NoMemory };

    fn from(_error: AllocFailed<T>) -> Refusal {
        Refusal::NoMemory
    }
}
