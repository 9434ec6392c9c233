//! What a journal does: the steps of its files alone, and those over the stripes.
ghost use Rattle.std.specs.Prelude.{◌≡◌};
ghost use Rattle.ticket_order.specs.StepRules.{IsOfSamePass};

use crate::steps::{Keeping, Walk};
use disk_model::Disk;
use journal::Journal;
use map_types::Refusal;
use std::sync::Wait;
use ticket_order::Steps;

/// The number that a step gives, or 0 if it gives none; or why it was refused.
pub(crate) type Answer = Result<u64, Refusal>;

/// Makes a step of the journal's files, and none of its pass.
pub(crate) fn keep<D: Disk, S: Steps>(journal: &mut Journal<D, S>, keeping: Keeping) -> Answer
    ensures { journal.new.steps ≡ journal.old.steps }
{
    match keeping {
        Keeping::Stage(most) => Ok(u64::from(journal.stage_batch(most)?)),
        Keeping::SetAhead(count) => {
            journal.set_ahead(count)?;
            Ok(0)
        }
        Keeping::WriteAhead => {
            journal.write_ahead()?;
            Ok(0)
        }
        Keeping::Log => {
            let _phase = journal.advance();
            Ok(journal.keeper().committed())
        }
        Keeping::Gate => Ok(journal.keeper().log.gate() as u64),
        Keeping::Begin => {
            journal.begin()?;
            Ok(0)
        }
        Keeping::Write => {
            let _phase = journal.advance_checkpoint();
            Ok(journal.keeper().sealed)
        }
        Keeping::Seal => {
            journal.seal()?;
            Ok(0)
        }
    }
}

/// Makes a step of the journal over the stripes.
pub(crate) fn walk<D: Disk, S: Steps, R: Wait>(
    rt: &R,
    journal: &mut Journal<D, S>,
    walk: Walk,
) -> Answer
    ensures { IsOfSamePass S.place S.stripe_count journal.old.steps journal.new.steps }
{
    match walk {
        Walk::Sweep => journal.sweep(rt),
        Walk::TrySweep(stripe) => {
            if stripe >= journal.steps().stripes().get() {
                return Err(Refusal::WrongPhase);
            }
            journal.try_sweep(stripe)?;
            Ok(stripe as u64)
        }
        Walk::Publish => {
            journal.publish();
            Ok(journal.keeper().published)
        }
        Walk::Fail => {
            journal.fail();
            Ok(0)
        }
        Walk::Capture(stripe) => journal.capture(rt, stripe),
        Walk::TryCapture(stripe) => journal.try_capture(stripe),
    }
}
