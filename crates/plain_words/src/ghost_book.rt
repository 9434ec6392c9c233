//! The history and the records, as a value of no bytes.
ghost use Rattle.std.specs.Prelude.{◌≡◌};
ghost use Rattle.std.specs.Borrow.{ftrue};
ghost use Rattle.one_history.specs.contracts.book.Book as book_type;
ghost use Rattle.one_history.specs.declared.book.Book.{Book};
ghost use Rattle.one_history.specs.Turns.{at_start};
ghost use Rattle.plain_words.specs.Noted.{after};

use atomic_methods::Part;
use map_types::Command;
use std::marker::{Model, PhantomData};
use ticket_order::{Purpose, Stripe};

/// A step that was made, with what it was made with.
#[derive(Drop, Clone, Copy)]
pub enum Turn<'a> {
    Took { stripe: usize, content: &'a Stripe },
    FoundHeld { stripe: usize },
    Gave { purpose: &'a Purpose },
    Drew { command: &'a Command },
    Looked,
    Published { number: u64 },
    Saw,
    Failed,
    FoundAlive,
}

/// The words' book, which contracts alone read: it has no bytes.
#[derive(Drop)]
pub struct GhostBook {
    marker: PhantomData<u8>,
    pub ghost book: { Book } by { book_type.the_row.coded },
}

impl Model for GhostBook {
    ghost also_owns = { λ _. ftrue };
}

impl GhostBook {
    /// The book of words that begin with these parts at this count of tickets, with this limit for
    /// keys, for n workers and the keeper.
    pub(crate) fn new(_first: u64, _parts: &[Part], _key_limit: u16, _workers: u16) -> GhostBook
        ensures { result.book ≡ at_start _first _parts.now _key_limit _workers }
    {
        GhostBook {
            marker: PhantomData,
        }
    }

    /// The step is noted in the record of the pass with this number, and in the history.
    pub(crate) fn note(&mut self, _pass: usize, _turn: &Turn<'_>)
        ensures { self.new.book ≡ after _pass _turn.now self.old.book }
    {}
}
