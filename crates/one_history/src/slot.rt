//! The place of a stripe.
use ticket_order::Stripe;

/// The content of a stripe, or the number of the pass that holds it.
#[derive(Drop)]
pub enum Slot {
    Home(Stripe),
    HeldBy(usize),
}
