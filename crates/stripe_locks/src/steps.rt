//! The eight steps of a pass, each one atomic action on the words.
ghost use Rattle.std.specs.Prelude.{◌≡◌, ◌<◌, None, true};
ghost use Rattle.ticket_order.specs.StepRules.{Takes, Looks, MayDraw, Draws, MayGive, Gives, MayPublish, Publishes, Sees, Fails, Lives};
ghost use Rattle.stripe_locks.specs.Passes.{recorded, stripe_count, IsPassOf, IsSamePass};

use crate::plays;
use crate::plays::{Alive, Asks, Draw, Fail, Give, Look, Publish, See, Take};
use crate::rule::Pass;
use crate::stripes::{DURABLE, FAILURE, FIRST_STRIPE, Stripes, TICKETS, WORDS_APART};
use map_types::Command;
use std::marker::Brand;
use std::sync::atomic::Ordering;
use ticket_order::{Purpose, Stripe, Ticket};

impl Stripes {
    pub(crate) fn take(&self, pass: &mut Pass, stripe: usize) -> Option<Stripe>
        requires own { IsPassOf self.now pass.old }
        requires within { stripe < stripe_count self.now }
        requires empty_handed { (recorded pass.old).holding ≡ None }
        ensures step { Takes (stripe_count self.now) (recorded pass.old) stripe result
            (recorded pass.new) }
        ensures same { IsSamePass pass.old pass.new }
    {
        let words = &self.table.shared;
        let number = pass.number;
        let found = words.compare_exchange::<Take>(
            &mut pass.seat,
            stripe * WORDS_APART + FIRST_STRIPE,
            0,
            number,
        );
        if found != 0 {
            return None;
        }
        let Some(content) = words.exchange(&mut pass.seat, stripe, None) else {
            unreachable!()
        };
        // The pass has then seen the changes of the outbox, which end with the stripe's last.
        if !content.outbox.is_empty() {
            pass.seen = pass.seen.max(content.last);
        }
        Some(content)
    }

    fn give_as<G: plays::Gives>(
        &self,
        pass: &mut Pass,
        stripe: usize,
        content: Stripe,
        purpose: &Purpose,
    )
        requires own { IsPassOf self.now pass.old }
        requires asked { G.purpose ≡ purpose.now }
        requires fits { MayGive (stripe_count self.now) (recorded pass.old) stripe content
            purpose.now }
        ensures step { Gives (stripe_count self.now) purpose.now (recorded pass.old)
            (recorded pass.new) }
        ensures same { IsSamePass pass.old pass.new }
    {
        let last = content.last;
        let words = &self.table.shared;
        match words.exchange(&mut pass.seat, stripe, Some(content)) {
            None => {}
            Some(_) => unreachable!(),
        }
        words.store::<Give<G>>(&mut pass.seat, stripe * WORDS_APART + FIRST_STRIPE, 0);
        // A read goes up to the stripe's last change, which the pass has seen from then on.
        if matches!(purpose, Purpose::Answer(_)) {
            pass.seen = pass.seen.max(last);
        }
    }

    pub(crate) fn give(&self, pass: &mut Pass, stripe: usize, content: Stripe, purpose: &Purpose)
        requires own { IsPassOf self.now pass.old }
        requires fits { MayGive (stripe_count self.now) (recorded pass.old) stripe content
            purpose.now }
        ensures step { Gives (stripe_count self.now) purpose.now (recorded pass.old)
            (recorded pass.new) }
        ensures same { IsSamePass pass.old pass.new }
    {
        let has_entries = !content.outbox.is_empty();
        self.give_as::<Brand>(pass, stripe, content, purpose);
        if has_entries {
            self.mark(stripe);
        }
        if self.sleepers.load(Ordering::SeqCst) != 0 {
            self.table
                .shared
                .wake_all(stripe * WORDS_APART + FIRST_STRIPE);
        }
    }

    fn ticket_as<C: Asks>(&self, pass: &mut Pass, command: &Command) -> Ticket
        requires own { IsPassOf self.now pass.old }
        requires asked { C.change ≡ command.now }
        requires fits { MayDraw (stripe_count self.now) (recorded pass.old) command.now }
        ensures step { Draws (recorded pass.old) command.now result (recorded pass.new) }
        ensures same { IsSamePass pass.old pass.new }
    {
        let _ = command;
        let ticket = Ticket::new(
            self.table
                .shared
                .fetch_add::<Draw<C>>(&mut pass.seat, TICKETS, 1),
        );
        pass.seen = ticket.position().number();
        ticket
    }

    pub(crate) fn ticket(&self, pass: &mut Pass, command: &Command) -> Ticket
        requires own { IsPassOf self.now pass.old }
        requires fits { MayDraw (stripe_count self.now) (recorded pass.old) command.now }
        ensures step { Draws (recorded pass.old) command.now result (recorded pass.new) }
        ensures same { IsSamePass pass.old pass.new }
    {
        self.ticket_as::<Brand>(pass, command)
    }

    pub(crate) fn look_at_count(&self, pass: &mut Pass) -> u64
        requires own { IsPassOf self.now pass.old }
        ensures step { Looks (recorded pass.old) result (recorded pass.new) }
        ensures same { IsSamePass pass.old pass.new }
    {
        let count = self.table.shared.load::<Look>(&mut pass.seat, TICKETS);
        pass.seen = count;
        count
    }

    pub(crate) fn durable(&self, pass: &mut Pass, number: u64)
        requires own { IsPassOf self.now pass.old }
        requires fits { MayPublish (recorded pass.old) number }
        ensures step { Publishes (recorded pass.old) number (recorded pass.new) }
        ensures same { IsSamePass pass.old pass.new }
    {
        self.table
            .shared
            .fetch_max::<Publish>(&mut pass.seat, DURABLE, number);
    }

    pub(crate) fn see(&self, pass: &mut Pass) -> u64
        requires own { IsPassOf self.now pass.old }
        ensures step { Sees (recorded pass.old) result (recorded pass.new) }
        ensures same { IsSamePass pass.old pass.new }
    {
        let count = self.table.shared.load::<See>(&mut pass.seat, DURABLE);
        pass.seen = pass.seen.max(count);
        count
    }

    pub(crate) fn fail(&self, pass: &mut Pass)
        requires own { IsPassOf self.now pass.old }
        requires by_keeper { (recorded pass.old).keeper ≡ true }
        ensures step { Fails (recorded pass.old) (recorded pass.new) }
        ensures same { IsSamePass pass.old pass.new }
    {
        self.table.shared.store::<Fail>(&mut pass.seat, FAILURE, 1);
    }

    pub(crate) fn alive(&self, pass: &mut Pass) -> bool
        requires own { IsPassOf self.now pass.old }
        ensures step { Lives (recorded pass.old) result (recorded pass.new) }
        ensures same { IsSamePass pass.old pass.new }
    {
        self.table.shared.load::<Alive>(&mut pass.seat, FAILURE) == 0
    }
}
