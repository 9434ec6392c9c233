//! The shared words and the stripes.
//!
//! ```text
//! a stripe: free (its word is 0) -- TAKE --> held (the number of its pass) -- GIVE --> free
//! tickets:  TICKET raises the count by one, under a held stripe; LOOK reads it
//! durable:  DURABLE raises it to what the keeper has committed; SEE reads it
//! failure:  FAIL sets it for good; ALIVE reads it
//! ```
//!
//! Passes make the steps: those of workers by `try_call`, `call` and `release`, and that of the
//! keeper, which `flusher` and `checkpoint_walk` step. To sleep and to wake is no step (`parking`).
ghost use Rattle.std.specs.Prelude.{◌≡◌, ◌+◌, ◌*◌};

use crate::beginning::Beginning;
use crate::marks::MARK_WORDS;
use crate::rule::StripeRule;
use crate::view::SeatView;
use atomic_table::Table;
use java_hash::StripeCount;
use std::alloc::Global;
use std::sync::atomic::AtomicU64;
use ticket_order::Stripe;

/// Each word that is used has a cache line of its own, of eight words: a thread that changes one
/// then takes no other from the rest. Those between them stay 0.
pub(crate) const WORDS_APART: usize = 8;

/// The words: the ticket count, the durable count, the failure word, the count of passes, and then
/// one for each stripe. The word of a stripe is 0 if the stripe is free, else the number of its
/// holder.
pub(crate) const TICKETS: usize = 0;

pub(crate) const DURABLE: usize = 8;

pub(crate) const FAILURE: usize = 16;

pub(crate) const PASSES: usize = 24;

pub(crate) const FIRST_STRIPE: usize = 32;

/// The shared words and the stripes. Each step on them is one atomic action, and between any two
/// steps of any threads there is one history.
#[derive(Drop)]
pub struct Stripes {
    pub(crate) table: Table<Option<Stripe>, SeatView, Beginning, StripeRule, Global>,
    pub(crate) count: StripeCount,
    // The count of tickets with which the stripes began.
    pub(crate) first: u64,
    pub(crate) key_limit: u16,
    // How many threads sleep until a stripe is given back.
    pub(crate) sleepers: AtomicU64,
    // How many threads sleep until a position is durable.
    pub(crate) waiters: AtomicU64,
    // 1 while the keeper sleeps until changes come, else 0.
    pub(crate) resting: AtomicU64,
    // A bit for each stripe: whether it has entries for the next sweep.
    pub(crate) marks: [AtomicU64; MARK_WORDS],
    pub(crate) alloc: Global,
    ghost words: { table.shared.table_id.words ≡ count.count * 8 + 32 },
    ghost slots: { table.shared.table_id.slots ≡ count.count },
    ghost begun: { table.shared.key.opening.first ≡ first },
    ghost limited: { table.shared.key.opening.key_limit ≡ key_limit },
}
