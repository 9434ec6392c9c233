//! The walk of a release: a SEE. If the durable count is too low, an ALIVE follows, and if that
//! says no, a SEE once more.
ghost use Rattle.std.specs.Prelude.{◌≡◌};
ghost use Rattle.ticket_order.specs.declared.record.Record.{Record};
ghost use Rattle.ticket_order.specs.StepRules.{IsOfSamePass};
ghost use Rattle.ticket_order.specs.Walks.{Task, FitsRelease, Next, MakesOne, next_of_release, HasFewerLeft, left_of_release};

use crate::held::{Held, Released};
use crate::steps::Steps;
use crate::walk::{Stage, Stepped, Walk};

/// How far a release has come.
#[derive(Drop)]
pub(crate) enum ReleaseStage {
    Begins(Held),
    HasMissed(Held),
    FoundFailure(Held),
}

impl ReleaseStage {
    fn more(self) -> Stepped
        ensures { result ≡ Stepped.More (record { stage = Stage.Release self }) }
    {
        Stepped::More(Walk {
            stage: Stage::Release(self),
        })
    }

    pub(crate) fn step<S: Steps>(self, steps: &mut S) -> Stepped
        // The release stands as the record of its pass says.
        requires { (b : Record) × (task : Task) × FitsRelease b task self (S.recorded steps.old) }

        // One step is made, the next; fewer are left, or the release is over.
        ensures one { MakesOne S.recorded S.moves (next_of_release self) steps.old steps.new }
        ensures next { (b : Record) (task : Task) → FitsRelease b task self (S.recorded steps.old)
            → Next (S.stripe_count steps.old) b task result (S.recorded steps.new) }
        ensures shorter { HasFewerLeft (left_of_release self) result }

        // It is the same pass, over as many stripes.
        ensures pass { IsOfSamePass S.place S.stripe_count steps.old steps.new }
    {
        match self {
            ReleaseStage::Begins(held) => {
                if held.position.number() <= steps.see() {
                    Stepped::Released(Released::Reply(held.position, held.reply))
                } else {
                    ReleaseStage::HasMissed(held).more()
                }
            }
            ReleaseStage::HasMissed(held) => {
                if steps.alive() {
                    Stepped::Released(Released::NotYet(held))
                } else {
                    ReleaseStage::FoundFailure(held).more()
                }
            }
            ReleaseStage::FoundFailure(held) => {
                if held.position.number() <= steps.see() {
                    Stepped::Released(Released::Reply(held.position, held.reply))
                } else {
                    Stepped::Released(Released::Failed)
                }
            }
        }
    }
}
