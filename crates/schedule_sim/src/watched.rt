//! The steps of one pass on plain words, with what the last of them was and found.
ghost use Rattle.std.specs.Prelude.{◌<◌, length};

use java_hash::StripeCount;
use map_types::Command;
use plain_words::{At, PlainWords};
use sim_rules::Made;
use ticket_order::{Purpose, Steps, Stripe, Ticket};

/// The words, lent to one pass, and the step that it made last.
#[derive(Drop)]
pub(crate) struct Watched<'a> {
    pub words: &'a mut PlainWords,
    pub pass: usize,
    pub made: Option<Made>,
    ghost within: { pass < length words.now.passes },
}

impl Steps for Watched<'_> {
    ghost use Rattle.schedule_sim.specs.WatchedWords.{watched_record, watched_stripes, watched_place, watched_moves};

    ghost recorded = { watched_record };

    ghost stripe_count = { watched_stripes };

    ghost place = { watched_place };

    ghost moves = { watched_moves };

    fn stripes(&self) -> StripeCount {
        self.words.stripes()
    }

    fn seen(&self) -> u64 {
        self.words.seen(self.pass)
    }

    fn key_limit(&self) -> u16 {
        self.words.key_limit(self.pass)
    }

    fn take(&mut self, stripe: usize) -> Option<Stripe> {
        let taken = At::new(self.words, self.pass).take(stripe);
        self.made = Some(match &taken {
            Some(_) => Made::Took(stripe),
            None => Made::FoundHeld(stripe),
        });
        taken
    }

    fn give(&mut self, stripe: usize, content: Stripe, purpose: Purpose) {
        At::new(self.words, self.pass).give(stripe, content, purpose);
        self.made = Some(Made::Gave(stripe));
    }

    fn ticket(&mut self, command: &Command) -> Ticket {
        let ticket = At::new(self.words, self.pass).ticket(command);
        self.made = Some(Made::Drew(ticket.number()));
        ticket
    }

    fn look(&mut self) -> u64 {
        let count = At::new(self.words, self.pass).look();
        self.made = Some(Made::Looked(count));
        count
    }

    fn durable(&mut self, number: u64) {
        At::new(self.words, self.pass).durable(number);
        self.made = None;
    }

    fn see(&mut self) -> u64 {
        let durable = At::new(self.words, self.pass).see();
        self.made = Some(Made::Saw(durable));
        durable
    }

    fn fail(&mut self) {
        At::new(self.words, self.pass).fail();
        self.made = None;
    }

    fn alive(&mut self) -> bool {
        let is_alive = At::new(self.words, self.pass).alive();
        self.made = Some(Made::FoundAlive(is_alive));
        is_alive
    }
}
