//! The keeper's sweeps, which throw away what they take.
ghost use Rattle.std.specs.Prelude.{◌≡◌, ◌<◌, None, true};
ghost use Rattle.ticket_order.specs.StepRules.{IsOfSamePass};

use std::alloc::Global;
use std::mem;
use ticket_order::{Purpose, Steps};

/// Throws away the entries of the stripe's outbox, unless another thread holds the stripe.
pub(crate) fn sweep_stripe<S: Steps>(steps: &mut S, alloc: Global, stripe: usize)
    requires idle { (S.recorded steps.old).holding ≡ None }
    requires keeper { (S.recorded steps.old).keeper ≡ true }
    requires within { stripe < S.stripe_count steps.old }
    ensures idle { (S.recorded steps.new).holding ≡ None }
    ensures keeper { (S.recorded steps.new).keeper ≡ true }
    ensures pass { IsOfSamePass S.place S.stripe_count steps.old steps.new }
{
    if let Some(mut content) = steps.take(stripe) {
        let entries = mem::replace(&mut content.outbox, Vec::new(alloc));
        steps.give(stripe, content, Purpose::Sweep);
        drop(entries);
    }
}

/// Throws away the entries of all outboxes.
pub(crate) fn sweep_all<S: Steps>(steps: &mut S, alloc: Global)
    requires idle { (S.recorded steps.old).holding ≡ None }
    requires keeper { (S.recorded steps.old).keeper ≡ true }
    ensures idle { (S.recorded steps.new).holding ≡ None }
    ensures pass { IsOfSamePass S.place S.stripe_count steps.old steps.new }
{
    for stripe in 0..steps.stripes().get() {
        sweep_stripe(steps, alloc, stripe);
    }
}
