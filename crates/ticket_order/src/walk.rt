//! A call that is under way, as a machine that makes one step at a time.
ghost use Rattle.std.specs.Prelude.{◌≡◌, ◌<◌, ℕ, Some, None, true, false};
ghost use Rattle.std.specs.Option.{option_map};
ghost use Rattle.ticket_order.specs.declared.record.Record.{Record};
ghost use Rattle.ticket_order.specs.Records.{IsWithin, giving};
ghost use Rattle.ticket_order.specs.StepRules.{IsOfSamePass};
ghost use Rattle.ticket_order.specs.Walks.{Task, ToChange, ToRead, ToRelease, ToSweep, ToCapture, Fits, IsUnderWay, Next, MakesOne, next_kind, Take, Give, HasContent, IsRefusing, Refuses, HasFewerLeft, steps_left, entries_of_walk, KeepsEntries, captured_of_walk, KeepsCaptured, part_of_walk, refusal_of_walk, KeepsRefusal, is_holding};

use crate::capture_walk::{CaptureStage, Captured};
use crate::change_walk::{ChangeStage, NewChange};
use crate::held::{Held, Released};
use crate::read_walk::ReadStage;
use crate::record::Purpose;
use crate::release_walk::ReleaseStage;
use crate::steps::Steps;
use crate::stripe::{Entry, Stripe};
use crate::sweep_walk::SweepStage;
use atomic_methods::Part;
use map_types::{Command, Read, Refusal};
use std::alloc::Global;

/// A call that is under way.
#[derive(Drop)]
pub struct Walk {
    pub(crate) stage: Stage,
}

#[derive(Drop)]
pub(crate) enum Stage {
    Change(ChangeStage),
    Read(ReadStage),
    Release(ReleaseStage),
    Sweep(SweepStage),
    Capture(CaptureStage),
    /// The stripe goes back as it was taken, for this refusal.
    GivingBack(Taken, Refusal),
}

/// A stripe that a walk holds, and its content.
#[derive(Drop)]
pub(crate) struct Taken {
    pub stripe: usize,
    pub content: Stripe,
}

/// What a step leaves of a walk: it goes on, or it has come to its end.
#[derive(Drop)]
pub enum Stepped {
    More(Walk),
    /// A change or a read was made.
    Held(Held),
    /// A release has its answer.
    Released(Released),
    /// A sweep took these entries.
    Swept(Vec<Entry>),
    /// A capture took these entries.
    Captured(Captured),
    Refused(Refusal),
}

impl Taken {
    pub(crate) fn refused(self, refusal: Refusal) -> Stepped
        ensures { result ≡ Stepped.More (record { stage = Stage.GivingBack self refusal }) }
    {
        Stepped::More(Walk {
            stage: Stage::GivingBack(self, refusal),
        })
    }

    /// Gives the stripe back as it was taken, since the call is refused.
    pub(crate) fn give_back<S: Steps>(self, refusal: Refusal, steps: &mut S) -> Refusal
        // The stripe is held, with this content.
        requires { HasContent (S.recorded steps.old) self }

        // One step, its GIVE; a task that it refuses is refused, with the same refusal.
        ensures one { MakesOne S.recorded S.moves (Give self.stripe) steps.old steps.new }
        ensures refused { (b : Record) (task : Task)
            → IsRefusing (S.stripe_count steps.old) b task self refusal (S.recorded steps.old)
            → Refuses (S.stripe_count steps.old) b task refusal (S.recorded steps.new) }
        ensures same { result ≡ refusal }
        ensures given { S.recorded steps.new ≡ giving Purpose.Nothing (S.recorded steps.old) }

        // It is the same pass, over as many stripes.
        ensures pass { IsOfSamePass S.place S.stripe_count steps.old steps.new }
    {
        steps.give(self.stripe, self.content, Purpose::Nothing);
        refusal
    }
}

impl Walk {
    /// A change: TAKE, ALIVE, LOOK, TICKET, GIVE. All its memory is got from `alloc` before its
    /// ticket is drawn.
    pub fn change(alloc: Global, command: Command) -> Walk
        ensures { (n : ℕ) (b : Record) → b.holding ≡ None → IsWithin b.opening.key_limit command
            → Fits n b (ToChange command) result b }
    {
        Walk {
            stage: Stage::Change(ChangeStage::Begins(NewChange { alloc, command })),
        }
    }

    /// A read: TAKE, ALIVE, GIVE.
    pub fn read(read: Read) -> Walk
        ensures { (n : ℕ) (b : Record) → b.holding ≡ None → Fits n b (ToRead read) result b }
    {
        Walk {
            stage: Stage::Read(ReadStage::Begins(read)),
        }
    }

    /// A release: a SEE. If the durable count is too low, an ALIVE follows, and if that says no, a
    /// SEE once more. It takes no memory.
    pub fn release(held: Held) -> Walk
        ensures { (n : ℕ) (b : Record) → Fits n b (ToRelease held.position held.reply) result b }
    {
        Walk {
            stage: Stage::Release(ReleaseStage::Begins(held)),
        }
    }

    /// A sweep of the stripe, by the pass that sweeps: TAKE, GIVE. The stripe gets `spare`,
    /// emptied, for its outbox, so that its next changes find the memory that `spare` has. If the
    /// sweep is refused, `spare` is let go.
    pub fn sweep(spare: Vec<Entry>, stripe: usize) -> Walk
        ensures fits { (n : ℕ) (b : Record) → b.holding ≡ None → stripe < n → b.keeper ≡ true
            → Fits n b (ToSweep stripe) result b }
        ensures first { (n : ℕ) → next_kind n result ≡ Take stripe }
        ensures left { steps_left result ≡ 2 }
    {
        Walk {
            stage: Stage::Sweep(SweepStage::Begins(spare, stripe)),
        }
    }

    /// A capture of the stripe: TAKE, LOOK, GIVE.
    pub fn capture(stripe: usize) -> Walk
        ensures fits { (n : ℕ) (b : Record) → b.holding ≡ None → stripe < n
            → Fits n b (ToCapture stripe) result b }
        ensures first { (n : ℕ) → next_kind n result ≡ Take stripe }
        ensures left { steps_left result ≡ 3 }
    {
        Walk {
            stage: Stage::Capture(CaptureStage::Begins(stripe)),
        }
    }

    /// The entries that a sweep has taken and that its GIVE will hand out.
    pub fn entries(&self) -> &[Entry]
        ensures { result.now ≡ entries_of_walk self.now }
    {
        match &self.stage {
            Stage::Sweep(SweepStage::HasTaken(_, taken)) => &taken.content.outbox,
            _ => &[],
        }
    }

    /// What a capture has taken that its GIVE will hand out, and the part of its stripe, which it
    /// holds.
    pub fn captured(&self) -> Option<(&Captured, &Part)>
        ensures captured { option_map (λ found. found.0.now) result ≡ captured_of_walk self.now }
        ensures part { option_map (λ found. found.1.now) result ≡ part_of_walk self.now }
    {
        match &self.stage {
            Stage::Capture(CaptureStage::HasLooked(taken, captured)) => {
                Some((captured, &taken.content.part))
            }
            _ => None,
        }
    }

    /// Whether this is a sweep or a capture that has only its GIVE left.
    pub fn is_holding(&self) -> bool
        ensures { result ≡ is_holding self.now }
    {
        matches!(
            &self.stage,
            Stage::Sweep(SweepStage::HasTaken(..)) | Stage::Capture(CaptureStage::HasLooked(..))
        )
    }

    /// A sweep or a capture that has only its GIVE left will give the stripe back as it was taken,
    /// and end with `NoMemory`. This is for a caller that finds no memory for what it would be
    /// handed. Any other walk stays as it is.
    pub fn give_back(self) -> Walk
        ensures fits { (n : ℕ) (b : Record) (task : Task) (p : Record) → Fits n b task self p
            → Fits n b task result p }
        ensures refuses { is_holding self ≡ true → refusal_of_walk result ≡ Some Refusal.NoMemory }
        ensures same { is_holding self ≡ false → result ≡ self }
    {
        let Walk { stage } = self;
        let stage = match stage {
            Stage::Sweep(stage) => stage.given_back(),
            Stage::Capture(stage) => stage.given_back(),
            stage => stage,
        };
        Walk { stage }
    }

    /// Makes exactly one step.
    pub fn step<S: Steps>(self, steps: &mut S) -> Stepped
        // The walk of some task stands as the record of its pass says.
        requires { IsUnderWay (S.stripe_count steps.old) self (S.recorded steps.old) }

        // One step is made, the next; fewer are left, or the task is over.
        ensures one { MakesOne S.recorded S.moves (next_kind (S.stripe_count steps.old) self)
            steps.old steps.new }
        ensures next { (b : Record) (task : Task)
            → Fits (S.stripe_count steps.old) b task self (S.recorded steps.old)
            → Next (S.stripe_count steps.old) b task result (S.recorded steps.new) }
        ensures shorter { HasFewerLeft (steps_left self) result }

        // What was taken, copied or refused before is what the walk ends with.
        ensures entries { KeepsEntries (entries_of_walk self) result }
        ensures captured { KeepsCaptured (captured_of_walk self) result }
        ensures refused { KeepsRefusal (refusal_of_walk self) result }

        // It is the same pass, over as many stripes.
        ensures pass { IsOfSamePass S.place S.stripe_count steps.old steps.new }
    {
        let Walk { stage } = self;
        match stage {
            Stage::Change(stage) => stage.step(steps),
            Stage::Read(stage) => stage.step(steps),
            Stage::Release(stage) => stage.step(steps),
            Stage::Sweep(stage) => stage.step(steps),
            Stage::Capture(stage) => stage.step(steps),
            Stage::GivingBack(taken, refusal) => {
                Stepped::Refused(taken.give_back(refusal, steps))
            }
        }
    }
}
