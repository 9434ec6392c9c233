//! The walk of a read: TAKE, ALIVE, GIVE.
ghost use Rattle.std.specs.Prelude.{◌≡◌};
ghost use Rattle.ticket_order.specs.declared.record.Record.{Record};
ghost use Rattle.ticket_order.specs.StepRules.{IsOfSamePass};
ghost use Rattle.ticket_order.specs.Walks.{Task, FitsRead, Next, MakesOne, next_of_read, HasFewerLeft, left_of_read};

use crate::held::Held;
use crate::record::Purpose;
use crate::steps::Steps;
use crate::walk::{Stage, Stepped, Taken, Walk};
use java_hash::stripe_of;
use map_types::{Read, Refusal};

/// How far a read has come.
#[derive(Drop)]
pub(crate) enum ReadStage {
    Begins(Read),
    HasTaken(Read, Taken),
    HasRead(Read, Taken, Held),
}

impl ReadStage {
    fn more(self) -> Stepped
        ensures { result ≡ Stepped.More (record { stage = Stage.Read self }) }
    {
        Stepped::More(Walk {
            stage: Stage::Read(self),
        })
    }

    pub(crate) fn step<S: Steps>(self, steps: &mut S) -> Stepped
        // The read stands as the record of its pass says.
        requires { (b : Record) × (task : Task)
            × FitsRead (S.stripe_count steps.old) b task self (S.recorded steps.old) }

        // One step is made, the next; fewer are left, or the read is over.
        ensures one { MakesOne S.recorded S.moves (next_of_read (S.stripe_count steps.old) self)
            steps.old steps.new }
        ensures next { (b : Record) (task : Task)
            → FitsRead (S.stripe_count steps.old) b task self (S.recorded steps.old)
            → Next (S.stripe_count steps.old) b task result (S.recorded steps.new) }
        ensures shorter { HasFewerLeft (left_of_read self) result }

        // It is the same pass, over as many stripes.
        ensures pass { IsOfSamePass S.place S.stripe_count steps.old steps.new }
    {
        match self {
            ReadStage::Begins(read) => {
                let stripe = stripe_of(read.key.as_str(), steps.stripes());
                match steps.take(stripe) {
                    Some(content) => ReadStage::HasTaken(read, Taken { stripe, content }).more(),
                    None => {
                        drop(read);
                        Stepped::Refused(Refusal::Busy { stripe })
                    }
                }
            }
            ReadStage::HasTaken(read, taken) => {
                if !steps.alive() {
                    drop(read);
                    return taken.refused(Refusal::Failed);
                }
                let position = taken.content.read_position(steps.seen());
                match taken.content.part.read(&read) {
                    Ok(reply) => ReadStage::HasRead(read, taken, Held { position, reply }).more(),
                    Err(refusal) => {
                        drop(read);
                        taken.refused(refusal)
                    }
                }
            }
            ReadStage::HasRead(read, taken, held) => {
                steps.give(taken.stripe, taken.content, Purpose::Answer(read));
                Stepped::Held(held)
            }
        }
    }
}
