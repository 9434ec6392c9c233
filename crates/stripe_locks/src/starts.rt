//! How the shared stripes begin, and how passes join.
ghost use Rattle.std.specs.Prelude.{◌≡◌, ◌+◌, ◌*◌, length, IfOk, IfErr, replicate, slice_set};
ghost use Rattle.std.specs.FinMap as finite;
ghost use Rattle.map_types.specs.Limits.{most_key_bytes};
ghost use Rattle.ticket_order.specs.Records.{reach};
ghost use Rattle.one_history.specs.Turns.{opening_of};
ghost use Rattle.one_history.specs.OneHistory.{AreParts};
ghost use Rattle.stripe_locks.specs.Placed.{AreStored};
ghost use Rattle.stripe_locks.specs.Passes.{recorded, stripe_count, begun_with, IsPassOf, Joins};
ghost use Rattle.stripe_locks.specs.Plays.{joining};

use crate::beginning::Beginning;
use crate::marks::no_marks;
use crate::plays::{Enroll, Sit};
use crate::rule::Pass;
use crate::stripes::{DURABLE, FIRST_STRIPE, PASSES, Stripes, TICKETS, WORDS_APART};
use atomic_methods::Part;
use atomic_table::Table;
use java_hash::StripeCount;
use map_types::{Key, Refusal};
use one_history::empty_parts;
use std::alloc::Global;
use std::sync::atomic::AtomicU64;
use ticket_order::Stripe;

/// The most passes of a `Stripes`.
const MOST_PASSES: u64 = 4096;

/// The stripes with these parts, at home. They begin with `first` tickets.
fn store_all(alloc: Global, parts: Vec<Part>, first: u64) -> Result<Vec<Option<Stripe>>, Refusal>
    ensures ok { IfOk result (λ slots. AreStored first parts.items slots.items) }
    ensures err { IfErr result (λ refusal. refusal ≡ Refusal.NoMemory) }
{
    let mut slots = Vec::new(alloc);
    for part in parts {
        slots.push(Some(Stripe::new(alloc, part, first)))?;
    }
    Ok(slots)
}

fn first_words(alloc: Global, count: StripeCount, first: u64) -> Result<Vec<u64>, Refusal>
    ensures ok { IfOk result (λ words.
        words.items ≡ slice_set (slice_set (replicate (count.count * 8 + 32) 0) 0 first) 8 first) }
    ensures err { IfErr result (λ refusal. refusal ≡ Refusal.NoMemory) }
{
    let mut words = Vec::from_elem(alloc, 0u64, count.get() * WORDS_APART + FIRST_STRIPE)?;
    words[TICKETS] = first;
    words[DURABLE] = first;
    Ok(words)
}

impl Stripes {
    /// Stripes that begin with the first `first` changes made, known by the map that the parts make;
    /// part s has keys of stripe s alone, and bins for them. The keys of later changes have at most
    /// `key_limit` bytes.
    pub fn new(
        alloc: Global,
        count: StripeCount,
        parts: Vec<Part>,
        first: u64,
        key_limit: u16,
    ) -> Result<Stripes, Refusal>
        requires count { length parts.items ≡ count.count }
        requires parts { AreParts count.count parts.items }
        ensures count { IfOk result (λ stripes. stripe_count stripes ≡ count.count) }
        ensures opening { IfOk result (λ stripes.
            begun_with stripes ≡ opening_of first parts.items key_limit) }
        ensures err { IfErr result (λ refusal. refusal ≡ Refusal.NoMemory) }
    {
        let beginning = Beginning::new(first, &parts, key_limit);
        let words = first_words(alloc, count, first)?;
        let slots = store_all(alloc, parts, first)?;
        match Table::new(alloc, words.as_slice(), slots, &beginning) {
            Ok((table, _)) => Ok(Stripes {
                table,
                count,
                first,
                key_limit,
                sleepers: AtomicU64::new(0),
                waiters: AtomicU64::new(0),
                resting: AtomicU64::new(0),
                marks: no_marks(),
                alloc,
            }),
            Err(_) => Err(Refusal::NoMemory),
        }
    }

    /// Stripes of an empty map, with no change made, for any keys.
    pub fn empty(alloc: Global, count: StripeCount) -> Result<Stripes, Refusal>
        ensures count { IfOk result (λ stripes. stripe_count stripes ≡ count.count) }
        ensures opening { IfOk result (λ stripes. begun_with stripes
            ≡ record { first = 0; map = finite.empty; key_limit = most_key_bytes }) }
        ensures err { IfErr result (λ refusal. refusal ≡ Refusal.NoMemory) }
    {
        let parts = empty_parts(alloc, count)?;
        Stripes::new(alloc, count, parts, 0, Key::MOST_BYTES as u16)
    }

    pub fn stripes(&self) -> StripeCount
        ensures { result.count ≡ stripe_count self.now }
    {
        self.count
    }

    /// The most bytes that the key of a change may have. A change with a longer key is refused with
    /// `KeyTooLong`.
    pub fn key_limit(&self) -> u16
        ensures { result ≡ (begun_with self.now).key_limit }
    {
        self.key_limit
    }

    /// A new pass. There are 4,096 of them; the first is the keeper's. It takes no memory and
    /// doesn't wait.
    pub fn pass(&self) -> Result<Pass, Refusal>
        ensures own { IfOk result (λ pass. IsPassOf self.now pass) }
        ensures joins { IfOk result (λ pass. Joins (begun_with self.now) pass) }
        ensures err { IfErr result (λ refusal. refusal ≡ Refusal.SeatsSpent) }
    {
        let words = &self.table.shared;
        let (found, mut seat) = words.load_new_seat::<Sit>(PASSES);
        let mut passes = found;
        for _turn in 0..MOST_PASSES {
            if passes >= MOST_PASSES {
                return Err(Refusal::SeatsSpent);
            }
            let number = passes + 1;
            let now = words.compare_exchange::<Enroll>(&mut seat, PASSES, passes, number);
            if now == passes {
                return Ok(Pass {
                    seat,
                    number,
                    seen: self.first,
                    key_limit: self.key_limit,
                });
            }
            passes = now;
        }
        Err(Refusal::SeatsSpent)
    }

    /// The keeper's pass, which is the first of these stripes; refused with `SeatsSpent` if another
    /// has joined before it.
    pub fn keeper_pass(&self) -> Result<Pass, Refusal>
        ensures own { IfOk result (λ pass. IsPassOf self.now pass) }
        ensures first { IfOk result (λ pass. recorded pass ≡ joining (begun_with self.now) 0) }
        ensures err { IfErr result (λ refusal. refusal ≡ Refusal.SeatsSpent) }
    {
        let pass = self.pass()?;
        if !pass.is_keeper() {
            return Err(Refusal::SeatsSpent);
        }
        Ok(pass)
    }
}

impl Pass {
    /// Whether this is the pass that sweeps, publishes and fails: the first one of its `Stripes`.
    pub fn is_keeper(&self) -> bool
        ensures { result ≡ (recorded self.now).keeper }
    {
        self.number == 1
    }

    /// The greatest position that the pass has seen.
    pub fn seen(&self) -> u64
        ensures { result ≡ reach (recorded self.now) }
    {
        self.seen
    }

    /// The most bytes that the key of a change may have.
    pub fn key_limit(&self) -> u16
        ensures { result ≡ (recorded self.now).opening.key_limit }
    {
        self.key_limit
    }
}
