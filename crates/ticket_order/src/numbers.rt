//! Tickets and positions.
ghost use Rattle.std.specs.Prelude.{◌≡◌, ◌+◌, ◌<◌, ◌^◌};

use std::marker::Model;

/// The number of a change in the one history; tickets are 0, 1, 2 and so on.
#[derive(Clone, Copy)]
pub struct Ticket {
    number: u64,
}

impl Model for Ticket {
    ghost use Rattle.std.specs.Prelude.{ℕ};

    ghost Value = { ℕ };

    ghost view = { λ ticket. ticket.number };

    ghost inverse = { λ number. record { number = number } };
}

impl Ticket {
    pub fn new(number: u64) -> Ticket
        ensures { result ≡ number }
    {
        Ticket { number }
    }

    pub fn number(self) -> u64
        ensures { result ≡ self }
    {
        self.number
    }

    /// The position of the change that drew this ticket, which is one past it.
    pub fn position(self) -> Position
        requires { self < 2 ^ 63 }
        ensures { result ≡ self + 1 }
    {
        Position {
            number: self.number + 1,
        }
    }
}

/// How many changes of the one history a reply rests on. It is durable if the durable count is at
/// least this number.
#[derive(Clone, Copy)]
pub struct Position {
    number: u64,
}

impl Model for Position {
    ghost use Rattle.std.specs.Prelude.{ℕ};

    ghost Value = { ℕ };

    ghost view = { λ position. position.number };

    ghost inverse = { λ number. record { number = number } };
}

impl Position {
    pub fn new(number: u64) -> Position
        ensures { result ≡ number }
    {
        Position { number }
    }

    pub fn number(self) -> u64
        ensures { result ≡ self }
    {
        self.number
    }
}
