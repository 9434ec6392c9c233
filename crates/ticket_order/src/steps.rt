//! The steps of one pass on the shared words, each one atomic action.
ghost use Rattle.std.specs.Prelude.{◌≡◌, ℕ, List, ◌<◌, None, true};
ghost use Rattle.ticket_order.specs.declared.record.Record.{Record};
ghost use Rattle.ticket_order.specs.declared.record.StepMade.{StepMade};
ghost use Rattle.ticket_order.specs.declared.record.StepMade.TheVariants.{Gave, Drew, Looked, Published, Saw, Failed, FoundAlive};
ghost use Rattle.ticket_order.specs.Records.{reach};
ghost use Rattle.ticket_order.specs.StepRules.{Takes, take_made, Looks, MayDraw, Draws, MayGive, Gives, MayPublish, Publishes, Sees, Fails, Lives};

use crate::numbers::Ticket;
use crate::record::Purpose;
use crate::stripe::Stripe;
use java_hash::StripeCount;
use map_types::Command;

/// The steps of one pass on the shared words. Their meaning is the pass's record. No step takes
/// memory.
pub trait Steps {
    // All that the pass did and saw.
    ghost recorded: { Self → Record };

    ghost stripe_count: { Self → ℕ };

    // Numbers that no step changes: they name what is lent, and to which pass.
    ghost place: { Self → List ℕ };

    // What else a step does, such as to the words and to what other passes see.
    ghost moves: { Self → StepMade → Self → Type 0 };

    fn stripes(&self) -> StripeCount
        ensures { result.count ≡ stripe_count self.now };

    /// The greatest position that the pass has seen. It is no step.
    fn seen(&self) -> u64
        ensures { result ≡ reach (recorded self.now) };

    /// The most bytes that the key of a change may have. It is no step.
    fn key_limit(&self) -> u16
        ensures { result ≡ (recorded self.now).opening.key_limit };

    /// TAKE: the content of the stripe if it was free, or `None` if another holds it.
    fn take(&mut self, stripe: usize) -> Option<Stripe>
        requires within { stripe < stripe_count self.old }
        requires empty_handed { (recorded self.old).holding ≡ None }
        ensures step { Takes (stripe_count self.old) (recorded self.old) stripe result
            (recorded self.new) }
        ensures moved { moves self.old (take_made stripe result) self.new }
        ensures place { place self.new ≡ place self.old }
        ensures stripes { stripe_count self.new ≡ stripe_count self.old };

    /// GIVE: the content goes back, and the stripe is free.
    fn give(&mut self, stripe: usize, content: Stripe, purpose: Purpose)
        requires fits { MayGive (stripe_count self.old) (recorded self.old) stripe content purpose }
        ensures step { Gives (stripe_count self.old) purpose (recorded self.old)
            (recorded self.new) }
        ensures moved { moves self.old (Gave stripe) self.new }
        ensures place { place self.new ≡ place self.old }
        ensures stripes { stripe_count self.new ≡ stripe_count self.old };

    /// TICKET, for a change of the stripe that is held, with a key within the limit.
    fn ticket(&mut self, command: &Command) -> Ticket
        requires fits { MayDraw (stripe_count self.old) (recorded self.old) command.now }
        ensures step { Draws (recorded self.old) command.now result (recorded self.new) }
        ensures moved { moves self.old (Drew result) self.new }
        ensures place { place self.new ≡ place self.old }
        ensures stripes { stripe_count self.new ≡ stripe_count self.old };

    /// LOOK: the count of tickets.
    fn look(&mut self) -> u64
        ensures step { Looks (recorded self.old) result (recorded self.new) }
        ensures moved { moves self.old (Looked result) self.new }
        ensures place { place self.new ≡ place self.old }
        ensures stripes { stripe_count self.new ≡ stripe_count self.old };

    /// DURABLE: the durable count becomes `number`, if it was less.
    fn durable(&mut self, number: u64)
        requires fits { MayPublish (recorded self.old) number }
        ensures step { Publishes (recorded self.old) number (recorded self.new) }
        ensures moved { moves self.old (Published number) self.new }
        ensures place { place self.new ≡ place self.old }
        ensures stripes { stripe_count self.new ≡ stripe_count self.old };

    /// SEE: the durable count.
    fn see(&mut self) -> u64
        ensures step { Sees (recorded self.old) result (recorded self.new) }
        ensures moved { moves self.old (Saw result) self.new }
        ensures place { place self.new ≡ place self.old }
        ensures stripes { stripe_count self.new ≡ stripe_count self.old };

    /// FAIL: from now on ALIVE says no.
    fn fail(&mut self)
        requires by_keeper { (recorded self.old).keeper ≡ true }
        ensures step { Fails (recorded self.old) (recorded self.new) }
        ensures moved { moves self.old Failed self.new }
        ensures place { place self.new ≡ place self.old }
        ensures stripes { stripe_count self.new ≡ stripe_count self.old };

    /// ALIVE: false if a FAIL was made.
    fn alive(&mut self) -> bool
        ensures step { Lives (recorded self.old) result (recorded self.new) }
        ensures moved { moves self.old (FoundAlive result) self.new }
        ensures place { place self.new ≡ place self.old }
        ensures stripes { stripe_count self.new ≡ stripe_count self.old };
}
