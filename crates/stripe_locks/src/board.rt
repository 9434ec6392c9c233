//! The steps of one pass on the shared stripes.
ghost use Rattle.std.specs.Prelude.{◌≡◌, ◌<◌, length};
ghost use Rattle.stripe_locks.specs.Passes.{IsPassOf};

use crate::rule::Pass;
use crate::stripes::Stripes;
use java_hash::StripeCount;
use map_types::Command;
use ticket_order::{Purpose, Steps, Stripe, Ticket};

/// The stripes, lent to one pass. Between two of its steps other threads make theirs.
#[derive(Drop)]
pub struct Board<'a> {
    pub(crate) stripes: &'a Stripes,
    pub(crate) pass: &'a mut Pass,
    ghost own: { pass.now.seat.table_id ≡ stripes.now.table.shared.table_id },
}

impl Steps for Board<'_> {
    ghost use Rattle.std.specs.Prelude.{◌≡◌, ◌∷◌, []};
    ghost use Rattle.ticket_order.specs.declared.record.StepMade.{StepMade};
    ghost use Rattle.stripe_locks.specs.Passes.{recorded, name_of};

    ghost recorded = { λ board. recorded board.pass.now };

    ghost stripe_count = { λ board. board.stripes.now.count.count };

    ghost place = { λ board. board.pass.ghost_name ∷ board.pass.now.seat.id
        ∷ name_of board.stripes.now.table.shared.table_id };

    // Other threads move the words between two steps: nothing is said but what the record says.
    ghost moves = { λ board made after. Unit {0} };

    fn stripes(&self) -> StripeCount {
        self.stripes.stripes()
    }

    fn seen(&self) -> u64 {
        self.pass.seen()
    }

    fn key_limit(&self) -> u16 {
        self.pass.key_limit()
    }

    fn take(&mut self, stripe: usize) -> Option<Stripe> {
        self.stripes.take(self.pass, stripe)
    }

    fn give(&mut self, stripe: usize, content: Stripe, purpose: Purpose) {
        self.stripes.give(self.pass, stripe, content, &purpose)
    }

    fn ticket(&mut self, command: &Command) -> Ticket {
        self.stripes.ticket(self.pass, command)
    }

    fn look(&mut self) -> u64 {
        self.stripes.look_at_count(self.pass)
    }

    fn durable(&mut self, number: u64) {
        self.stripes.durable(self.pass, number)
    }

    fn see(&mut self) -> u64 {
        self.stripes.see(self.pass)
    }

    fn fail(&mut self) {
        self.stripes.fail(self.pass)
    }

    fn alive(&mut self) -> bool {
        self.stripes.alive(self.pass)
    }
}
