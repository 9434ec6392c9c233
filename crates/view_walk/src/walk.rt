//! The walk of a view, and what a step leaves of it. It copies each part that is lent.
ghost use Rattle.std.specs.Prelude.{◌≡◌, ◌<◌, ◌++◌, ℕ, List, None, Some, IfOk, IfErr};
ghost use Rattle.ticket_order.specs.declared.record.Record.{Record};
ghost use Rattle.ticket_order.specs.declared.record.Section.{Section};
ghost use Rattle.ticket_order.specs.StepRules.{IsOfSamePass};
ghost use Rattle.ticket_order.specs.Walks.{MakesOne};
ghost use Rattle.view_walk.specs.Walking as walking;
ghost use Rattle.view_walk.specs.Walking.{lent_sections, sections_of, stripe_of_take};
ghost use Rattle.view_walk.specs.Viewing.{Fits, Next, Shows, mark_awaited, next_kind};

use crate::parts::{PartsWalk, PartsWalked};
use atomic_methods::Part;
use map_types::{Key, Refusal, Value};
use std::alloc::Global;
use ticket_order::{Position, Steps};

/// What a view took of a stripe: its entries in the byte order of their keys, and the count of
/// tickets while it was held.
#[derive(Drop)]
pub struct Captured {
    pub mark: u64,
    pub entries: Vec<(Key, Value)>,
}

/// A view of all stripes that is under way.
#[derive(Drop)]
pub struct ViewWalk {
    pub(crate) alloc: Global,
    // Of the parts that were lent so far.
    pub(crate) captured: Vec<Captured>,
    pub(crate) parts: PartsWalk,
}

/// What a step leaves of a view.
#[derive(Drop)]
pub enum Viewed {
    More(ViewWalk),
    /// The mark and the entries of each stripe. The greatest mark is durable.
    Done(Vec<Captured>),
}

/// The entries of the part, at the end of the captured ones. `NoMemory` leaves those as they were.
fn capture(
    alloc: Global,
    captured: &mut Vec<Captured>,
    mark: u64,
    part: &Part,
) -> Result<(), Refusal>
    ensures ok { IfOk result (λ _. (xs : List Section) (i : ℕ) → Shows captured.old.items xs
        → Shows captured.new.items (xs ++ sections_of i (Some (mark, part.now)))) }
    ensures err { IfErr result
        (λ refusal. (refusal ≡ Refusal.NoMemory) × (captured.new.items ≡ captured.old.items)) }
{
    let entries = part.entries_sorted(alloc)?;
    captured.push(Captured { mark, entries })?;
    Ok(())
}

/// The walk, once the part that it lends is captured. If no memory is found for that, the stripe is to
/// go back as it was taken.
fn keep(alloc: Global, captured: &mut Vec<Captured>, parts: PartsWalk) -> PartsWalk
    ensures shows { (xs : List Section) → Shows captured.old.items xs
        → Shows captured.new.items (xs ++ lent_sections result) }
    ensures fits { (n : ℕ) (b : Record) (xs : List Section) (p : Record)
        → walking.Fits n b xs parts p → walking.Fits n b xs result p }
{
    let kept = match parts.lent() {
        Some((mark, part)) => capture(alloc, captured, mark, part),
        None => return parts,
    };
    match kept {
        Ok(()) => parts,
        Err(_) => parts.give_back(),
    }
}

impl ViewWalk {
    /// A view that has made no step. It takes no memory.
    pub fn new(alloc: Global) -> ViewWalk
        ensures { (n : ℕ) (b : Record) → 0 < n → b.holding ≡ None → Fits n b result b }
    {
        let captured = Vec::new(alloc);
        let parts = PartsWalk::new();
        ViewWalk {
            alloc,
            captured,
            parts,
        }
    }

    /// The walk over the parts that it copies.
    pub fn parts(&self) -> &PartsWalk
        ensures { result.now ≡ self.now.parts }
    {
        &self.parts
    }

    /// The stripe that the next step takes, if it takes one.
    pub fn stripe_to_take(&self) -> Option<usize>
        ensures { result ≡ stripe_of_take (next_kind self.now) }
    {
        self.parts.stripe_to_take()
    }

    /// The greatest mark, if it was found not to be durable yet.
    pub fn position_awaited(&self) -> Option<Position>
        ensures { result ≡ mark_awaited self.now }
    {
        self.parts.position_awaited()
    }

    /// Makes exactly one step. Refused with `NoMemory` once a stripe that can't be copied is given
    /// back, and with `Failed` if the store has failed before the greatest mark became durable.
    pub fn step<S: Steps>(self, steps: &mut S) -> Result<Viewed, Refusal>
        requires { (b : Record) × Fits (S.stripe_count steps.old) b self (S.recorded steps.old) }

        // One step is made, of the kind that is next, and the walk stands as it says.
        ensures one { MakesOne S.recorded S.moves (next_kind self) steps.old steps.new }
        ensures next { (b : Record)
            → Fits (S.stripe_count steps.old) b self (S.recorded steps.old)
            → Next (S.stripe_count steps.old) b result (S.recorded steps.new) }

        // The step is made on the same words, by the same pass.
        ensures pass { IsOfSamePass S.place S.stripe_count steps.old steps.new }
    {
        let ViewWalk {
            alloc,
            mut captured,
            parts,
        } = self;
        match parts.step(steps)? {
            PartsWalked::More(parts) => {
                let parts = keep(alloc, &mut captured, parts);
                Ok(Viewed::More(ViewWalk {
                    alloc,
                    captured,
                    parts,
                }))
            }
            PartsWalked::Done => Ok(Viewed::Done(captured)),
        }
    }
}
