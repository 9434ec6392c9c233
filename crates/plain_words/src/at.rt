//! The steps of one pass on plain words.
ghost use Rattle.std.specs.Prelude.{◌≡◌, ◌<◌, length};
ghost use Rattle.one_history.specs.OneHistory.{IsOneHistory};

use crate::words::PlainWords;
use java_hash::StripeCount;
use map_types::Command;
use ticket_order::{Purpose, Steps, Stripe, Ticket};

/// The words, lent to one pass.
#[derive(Drop)]
pub struct At<'a> {
    words: &'a mut PlainWords,
    pass: usize,
    ghost within: { pass < length words.now.passes },
}

impl<'a> At<'a> {
    /// The words, lent to the pass with this number.
    pub fn new(words: &'a mut PlainWords, pass: usize) -> At<'a>
        requires { pass < length words.old.passes }
        ensures words { result.words.now ≡ words.old }
        ensures same_words { result.words.ghost_name ≡ words.entry.ghost_name }
        ensures pass { result.pass ≡ pass }
    {
        At { words, pass }
    }

    /// A law: between any two steps there is one history, and the pass is one of its passes.
    pub fn keeps_one_history(&self)
        ensures one { IsOneHistory self.now.words.now }
        ensures within { self.now.pass < length self.now.words.now.passes }
    {
        self.words.keeps_one_history();
    }
}

impl Steps for At<'_> {
    ghost use Rattle.std.specs.Prelude.{◌≡◌, ◌∷◌, []};
    ghost use Rattle.one_history.specs.Turns.{record_of};
    ghost use Rattle.one_history.specs.Moves.{BookMoves};

    ghost recorded = { λ at. record_of at.pass at.words.now };

    ghost stripe_count = { λ at. at.words.now.stripes };

    ghost place = { λ at. at.words.ghost_name ∷ at.pass ∷ [] };

    ghost moves = { λ at made after. BookMoves at.pass made at.words.now after.words.now };

    fn stripes(&self) -> StripeCount {
        self.words.stripes()
    }

    fn seen(&self) -> u64 {
        self.words.seen(self.pass)
    }

    fn key_limit(&self) -> u16 {
        self.words.key_limit(self.pass)
    }

    fn take(&mut self, stripe: usize) -> Option<Stripe> {
        self.words.take(self.pass, stripe)
    }

    fn give(&mut self, stripe: usize, content: Stripe, purpose: Purpose) {
        self.words.give(self.pass, stripe, content, &purpose)
    }

    fn ticket(&mut self, command: &Command) -> Ticket {
        self.words.ticket(self.pass, command)
    }

    fn look(&mut self) -> u64 {
        self.words.look(self.pass)
    }

    fn durable(&mut self, number: u64) {
        self.words.durable(self.pass, number)
    }

    fn see(&mut self) -> u64 {
        self.words.see(self.pass)
    }

    fn fail(&mut self) {
        self.words.fail(self.pass)
    }

    fn alive(&mut self) -> bool {
        self.words.alive(self.pass)
    }
}
