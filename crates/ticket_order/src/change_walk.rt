//! The walk of a change: TAKE, ALIVE, LOOK, TICKET, GIVE.
ghost use Rattle.std.specs.Prelude.{◌≡◌, ◌^◌, ◌<◌};
ghost use Rattle.ticket_order.specs.declared.record.Record.{Record};
ghost use Rattle.ticket_order.specs.StepRules.{IsOfSamePass};
ghost use Rattle.ticket_order.specs.Memory.{HasMemory};
ghost use Rattle.ticket_order.specs.Walks.{Task, FitsChange, Next, MakesOne, next_of_change, HasFewerLeft, left_of_change, HasChanged};
ghost use Rattle.ticket_order.specs.Growing.{GrowsOnce};

use crate::held::Held;
use crate::numbers::Ticket;
use crate::record::Purpose;
use crate::steps::Steps;
use crate::walk::{Stage, Stepped, Taken, Walk};
use atomic_methods::Prepared;
use java_hash::{spread_of, stripe_of};
use map_types::{Command, Refusal};
use std::alloc::Global;

/// From this count of tickets on no change is made.
pub(crate) const TICKET_LIMIT: u64 = 1 << 62;

/// A change, and where its memory is got.
#[derive(Drop)]
pub(crate) struct NewChange {
    pub alloc: Global,
    pub command: Command,
}

/// How far a change has come.
#[derive(Drop)]
pub(crate) enum ChangeStage {
    Begins(NewChange),
    HasTaken(NewChange, Taken),
    IsAlive(NewChange, Taken),
    /// All its memory was got.
    IsReady(NewChange, Taken, Prepared),
    HasDrawn(Taken, Held),
}

impl NewChange {
    /// Makes the change that drew this ticket, which takes no memory.
    pub(crate) fn drawn(self, taken: Taken, prepared: Prepared, ticket: Ticket) -> (Taken, Held)
        requires memory { HasMemory self.command taken.content prepared }
        requires small { ticket < 2 ^ 63 }
        ensures { HasChanged self.command taken ticket result.0 result.1 }
    {
        let Taken {
            stripe,
            mut content,
        } = taken;
        let reply = content.act(self.command, prepared, ticket);
        let held = Held {
            position: ticket.position(),
            reply,
        };
        (Taken { stripe, content }, held)
    }
}

/// Makes the step of a change that has all its memory: TICKET.
fn draw<S: Steps>(new: NewChange, taken: Taken, prepared: Prepared, steps: &mut S) -> Stepped
    requires { (b : Record) × (task : Task) × FitsChange (S.stripe_count steps.old) b task
        (ChangeStage.IsReady new taken prepared) (S.recorded steps.old) }

    // One step is made, the next; fewer are left.
    ensures one { MakesOne S.recorded S.moves (next_of_change (S.stripe_count steps.old)
        (ChangeStage.IsReady new taken prepared)) steps.old steps.new }
    ensures next { (b : Record) (task : Task) → FitsChange (S.stripe_count steps.old) b task
        (ChangeStage.IsReady new taken prepared) (S.recorded steps.old)
        → Next (S.stripe_count steps.old) b task result (S.recorded steps.new) }
    ensures shorter { HasFewerLeft (left_of_change (ChangeStage.IsReady new taken prepared))
        result }
    ensures growth { GrowsOnce (ChangeStage.IsReady new taken prepared) result }

    // It is the same pass, over as many stripes.
    ensures pass { IsOfSamePass S.place S.stripe_count steps.old steps.new }
{
    let ticket = steps.ticket(&new.command);
    let (taken, held) = new.drawn(taken, prepared, ticket);
    ChangeStage::HasDrawn(taken, held).more()
}

impl ChangeStage {
    fn more(self) -> Stepped
        ensures { result ≡ Stepped.More (record { stage = Stage.Change self }) }
    {
        Stepped::More(Walk {
            stage: Stage::Change(self),
        })
    }

    pub(crate) fn step<S: Steps>(self, steps: &mut S) -> Stepped
        // The change stands as the record of its pass says.
        requires { (b : Record) × (task : Task)
            × FitsChange (S.stripe_count steps.old) b task self (S.recorded steps.old) }

        // One step is made, the next; fewer are left, or the change is over.
        ensures one { MakesOne S.recorded S.moves (next_of_change (S.stripe_count steps.old) self)
            steps.old steps.new }
        ensures next { (b : Record) (task : Task)
            → FitsChange (S.stripe_count steps.old) b task self (S.recorded steps.old)
            → Next (S.stripe_count steps.old) b task result (S.recorded steps.new) }
        ensures shorter { HasFewerLeft (left_of_change self) result }

        // It helps the growth of the part that it holds once, as it gets its memory.
        ensures growth { GrowsOnce self result }

        // It is the same pass, over as many stripes.
        ensures pass { IsOfSamePass S.place S.stripe_count steps.old steps.new }
    {
        match self {
            ChangeStage::Begins(new) => {
                let stripe = stripe_of(new.command.key.as_str(), steps.stripes());
                match steps.take(stripe) {
                    Some(content) => ChangeStage::HasTaken(new, Taken { stripe, content }).more(),
                    None => {
                        drop(new);
                        Stepped::Refused(Refusal::Busy { stripe })
                    }
                }
            }
            ChangeStage::HasTaken(new, taken) => {
                if steps.alive() {
                    ChangeStage::IsAlive(new, taken).more()
                } else {
                    drop(new);
                    taken.refused(Refusal::Failed)
                }
            }
            ChangeStage::IsAlive(new, mut taken) => {
                if steps.look() >= TICKET_LIMIT {
                    drop(new);
                    return taken.refused(Refusal::TicketsSpent);
                }
                let spread = spread_of(new.command.key.as_str());
                match taken.content.prepare(new.alloc, &new.command, spread) {
                    Ok(prepared) => ChangeStage::IsReady(new, taken, prepared).more(),
                    Err(refusal) => {
                        drop(new);
                        taken.refused(refusal)
                    }
                }
            }
            ChangeStage::IsReady(new, taken, prepared) => draw(new, taken, prepared, steps),
            ChangeStage::HasDrawn(taken, held) => {
                steps.give(taken.stripe, taken.content, Purpose::Nothing);
                Stepped::Held(held)
            }
        }
    }
}
