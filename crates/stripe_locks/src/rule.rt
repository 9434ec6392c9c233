//! The rule of the shared words, and the passes.
ghost use Rattle.std.specs.Prelude.{◌≡◌, ◌<◌, ◌==◌, true};
ghost use Rattle.ticket_order.specs.Records.{newcomer, reach, stripe_held};
ghost use Rattle.stripe_locks.specs.Rule.{Kept};
ghost use Rattle.stripe_locks.specs.Plays.{carried, stepless};

use crate::beginning::Beginning;
use crate::view::SeatView;
use atomic_table::{Seat, TableRule};
use ticket_order::Stripe;

/// The rule that every step keeps: there is one history.
pub struct StripeRule;

impl TableRule<Option<Stripe>, SeatView, Beginning> for StripeRule {
    ghost holds = { λ beginning. Kept beginning.opening };

    ghost first = { λ beginning. stepless (newcomer beginning.opening) };
}

/// What one worker, or the keeper, makes its steps with. A pass isn't given back: if it is dropped
/// with a stripe in hand, that stripe stays held.
#[derive(Drop)]
pub struct Pass {
    pub(crate) seat: Seat<Option<Stripe>, SeatView>,
    pub(crate) number: u64,
    // The greatest position that the pass has seen.
    pub(crate) seen: u64,
    // The most bytes that the key of a change may have.
    pub(crate) key_limit: u16,
    ghost carries: { seat.me.1 ≡ carried seat.me.0.pass.holding },
    ghost enrolled: { seat.me.0.pass.enrolled ≡ true },
    ghost numbered: { seat.me.0.pass.passes ≡ number },
    ghost counts: { 0 < number },
    ghost within: { stripe_held seat.me.0.pass.holding < seat.table_id.slots },
    ghost keeps: { seat.me.0.pass.keeper ≡ (number == 1) },
    ghost reaches: { reach seat.me.0.pass ≡ seen },
    ghost limited: { seat.me.0.pass.opening.key_limit ≡ key_limit },
}
