//! The walk of a sweep of one stripe: TAKE, GIVE.
ghost use Rattle.std.specs.Prelude.{◌≡◌, ℕ, Some, true, false};
ghost use Rattle.ticket_order.specs.declared.record.Record.{Record};
ghost use Rattle.ticket_order.specs.StepRules.{IsOfSamePass};
ghost use Rattle.ticket_order.specs.Walks.{Task, FitsSweep, Next, MakesOne, next_of_sweep, HasFewerLeft, left_of_sweep, KeepsEntries, entries_of_sweep, FitsStage, holds_of_sweep, refusal_of_stage};

use crate::record::Purpose;
use crate::steps::Steps;
use crate::stripe::Entry;
use crate::walk::{Stage, Stepped, Taken, Walk};
use map_types::Refusal;
use std::mem;

/// How far a sweep has come.
#[derive(Drop)]
pub(crate) enum SweepStage {
    /// Of this stripe, which is to get this vector for its outbox.
    Begins(Vec<Entry>, usize),
    HasTaken(Vec<Entry>, Taken),
}

impl SweepStage {
    fn more(self) -> Stepped
        ensures { result ≡ Stepped.More (record { stage = Stage.Sweep self }) }
    {
        Stepped::More(Walk {
            stage: Stage::Sweep(self),
        })
    }

    pub(crate) fn step<S: Steps>(self, steps: &mut S) -> Stepped
        // The sweep stands as the record of its pass says.
        requires { (b : Record) × (task : Task)
            × FitsSweep (S.stripe_count steps.old) b task self (S.recorded steps.old) }

        // One step is made, the next; the sweep stands so again, or is over.
        ensures one { MakesOne S.recorded S.moves (next_of_sweep self) steps.old steps.new }
        ensures next { (b : Record) (task : Task)
            → FitsSweep (S.stripe_count steps.old) b task self (S.recorded steps.old)
            → Next (S.stripe_count steps.old) b task result (S.recorded steps.new) }

        // Fewer steps are left, and the last hands out the outbox.
        ensures shorter { HasFewerLeft (left_of_sweep self) result }
        ensures entries { KeepsEntries (entries_of_sweep self) result }

        // It is the same pass, over as many stripes.
        ensures pass { IsOfSamePass S.place S.stripe_count steps.old steps.new }
    {
        match self {
            SweepStage::Begins(spare, stripe) => match steps.take(stripe) {
                Some(content) => SweepStage::HasTaken(spare, Taken { stripe, content }).more(),
                None => Stepped::Refused(Refusal::Busy { stripe }),
            },
            SweepStage::HasTaken(mut spare, taken) => {
                let Taken {
                    stripe,
                    mut content,
                } = taken;
                spare.clear();
                let entries = mem::replace(&mut content.outbox, spare);
                steps.give(stripe, content, Purpose::Sweep);
                Stepped::Swept(entries)
            }
        }
    }

    pub(crate) fn given_back(self) -> Stage
        ensures fits { (n : ℕ) (b : Record) (task : Task) (p : Record) → FitsSweep n b task self p
            → FitsStage n b task result p }
        ensures refuses { holds_of_sweep self ≡ true
            → refusal_of_stage result ≡ Some Refusal.NoMemory }
        ensures same { holds_of_sweep self ≡ false → result ≡ Stage.Sweep self }
    {
        match self {
            SweepStage::HasTaken(_, taken) => Stage::GivingBack(taken, Refusal::NoMemory),
            SweepStage::Begins(spare, stripe) => Stage::Sweep(SweepStage::Begins(spare, stripe)),
        }
    }
}
