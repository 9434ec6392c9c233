//! The walk of a capture of one stripe: TAKE, LOOK, GIVE.
ghost use Rattle.std.specs.Prelude.{◌≡◌, ℕ, Some, true, false};
ghost use Rattle.ticket_order.specs.declared.record.Record.{Record};
ghost use Rattle.ticket_order.specs.StepRules.{IsOfSamePass};
ghost use Rattle.ticket_order.specs.Walks.{Task, FitsCapture, Next, MakesOne, next_of_capture, HasFewerLeft, left_of_capture, KeepsCaptured, captured_of_capture, FitsStage, holds_of_capture, refusal_of_stage};

use crate::record::Purpose;
use crate::steps::Steps;
use crate::walk::{Stage, Stepped, Taken, Walk};
use atomic_methods::Part;
use map_model::MOST_ENTRIES;
use map_types::Refusal;
use std::snapshot::Snapshot;

/// What a capture took of a stripe: the count of tickets while it was held, and its part as it was
/// then, which contracts alone read.
#[derive(Drop)]
pub struct Captured {
    pub mark: u64,
    pub part: Snapshot<Part>,
}

/// How far a capture has come.
#[derive(Drop)]
pub(crate) enum CaptureStage {
    /// Of this stripe.
    Begins(usize),
    HasTaken(Taken),
    HasLooked(Taken, Captured),
}

impl CaptureStage {
    fn more(self) -> Stepped
        ensures { result ≡ Stepped.More (record { stage = Stage.Capture self }) }
    {
        Stepped::More(Walk {
            stage: Stage::Capture(self),
        })
    }

    pub(crate) fn step<S: Steps>(self, steps: &mut S) -> Stepped
        // The capture stands as the record of its pass says.
        requires { (b : Record) × (task : Task)
            × FitsCapture (S.stripe_count steps.old) b task self (S.recorded steps.old) }

        // One step is made, the next; the capture stands so again, or is over.
        ensures one { MakesOne S.recorded S.moves (next_of_capture self) steps.old steps.new }
        ensures next { (b : Record) (task : Task)
            → FitsCapture (S.stripe_count steps.old) b task self (S.recorded steps.old)
            → Next (S.stripe_count steps.old) b task result (S.recorded steps.new) }

        // Fewer steps are left, and the last hands out what was copied.
        ensures shorter { HasFewerLeft (left_of_capture self) result }
        ensures captured { KeepsCaptured (captured_of_capture self) result }

        // It is the same pass, over as many stripes.
        ensures pass { IsOfSamePass S.place S.stripe_count steps.old steps.new }
    {
        match self {
            CaptureStage::Begins(stripe) => match steps.take(stripe) {
                Some(content) => CaptureStage::HasTaken(Taken { stripe, content }).more(),
                None => Stepped::Refused(Refusal::Busy { stripe }),
            },
            CaptureStage::HasTaken(taken) => {
                let mark = steps.look();
                if taken.content.part.len() > MOST_ENTRIES {
                    return taken.refused(Refusal::LogFull);
                }
                let part = Snapshot::of(&taken.content.part);
                CaptureStage::HasLooked(taken, Captured { mark, part }).more()
            }
            CaptureStage::HasLooked(taken, captured) => {
                steps.give(taken.stripe, taken.content, Purpose::Capture);
                Stepped::Captured(captured)
            }
        }
    }

    pub(crate) fn given_back(self) -> Stage
        ensures fits { (n : ℕ) (b : Record) (task : Task) (p : Record) → FitsCapture n b task self p
            → FitsStage n b task result p }
        ensures refuses { holds_of_capture self ≡ true
            → refusal_of_stage result ≡ Some Refusal.NoMemory }
        ensures same { holds_of_capture self ≡ false → result ≡ Stage.Capture self }
    {
        match self {
            CaptureStage::HasLooked(taken, _) => Stage::GivingBack(taken, Refusal::NoMemory),
            before => Stage::Capture(before),
        }
    }
}
