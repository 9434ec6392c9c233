//! The end of a view: its greatest mark is waited for until it is durable.
ghost use Rattle.std.specs.Prelude.{◌≡◌, List};
ghost use Rattle.ticket_order.specs.declared.record.Record.{Record};
ghost use Rattle.ticket_order.specs.declared.record.Section.{Section};
ghost use Rattle.ticket_order.specs.StepRules.{IsOfSamePass};
ghost use Rattle.ticket_order.specs.Walks.{MakesOne};
ghost use Rattle.view_walk.specs.Walking.{Fits, Next, next_of_awaiting};

use crate::parts::{PartsWalk, PartsWalked, Stage};
use map_types::Refusal;
use ticket_order::Steps;

/// How far the wait for the greatest mark has come. All stripes were given back.
#[derive(Drop)]
pub(crate) enum Awaiting {
    /// The durable count is to be looked at.
    Seeing,
    /// It was below the greatest mark.
    HasMissed,
    /// After that ALIVE said no.
    FoundFailure,
}

fn more(count: usize, greatest: u64, awaiting: Awaiting) -> Result<PartsWalked, Refusal>
    ensures { result ≡ Ok (PartsWalked.More
        (record { count = count; greatest = greatest; stage = Stage.Awaiting awaiting })) }
{
    Ok(PartsWalked::More(PartsWalk {
        count,
        greatest,
        stage: Stage::Awaiting(awaiting),
    }))
}

/// Makes exactly one step of the wait of a walk that has given back so many stripes, with this
/// greatest mark.
pub(crate) fn step<S: Steps>(
    count: usize,
    greatest: u64,
    awaiting: Awaiting,
    steps: &mut S,
) -> Result<PartsWalked, Refusal>
    requires { (b : Record) × (xs : List Section) × Fits (S.stripe_count steps.old) b xs
        (record { count = count; greatest = greatest; stage = Stage.Awaiting awaiting })
        (S.recorded steps.old) }

    // One step is made, of the kind that is next, and the walk stands as it says.
    ensures one { MakesOne S.recorded S.moves (next_of_awaiting awaiting) steps.old steps.new }
    ensures next { (b : Record) (xs : List Section) → Fits (S.stripe_count steps.old) b xs
        (record { count = count; greatest = greatest; stage = Stage.Awaiting awaiting })
        (S.recorded steps.old)
        → Next (S.stripe_count steps.old) b xs result (S.recorded steps.new) }

    // The step is made on the same words, by the same pass.
    ensures pass { IsOfSamePass S.place S.stripe_count steps.old steps.new }
{
    match awaiting {
        Awaiting::Seeing => {
            if greatest <= steps.see() {
                Ok(PartsWalked::Done)
            } else {
                more(count, greatest, Awaiting::HasMissed)
            }
        }
        Awaiting::HasMissed => {
            if steps.alive() {
                more(count, greatest, Awaiting::Seeing)
            } else {
                more(count, greatest, Awaiting::FoundFailure)
            }
        }
        Awaiting::FoundFailure => {
            if greatest <= steps.see() {
                Ok(PartsWalked::Done)
            } else {
                Err(Refusal::Failed)
            }
        }
    }
}
