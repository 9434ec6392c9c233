//! How a journal takes entries in hand, and tells what is committed.
ghost use Rattle.std.specs.Prelude.{◌≡◌, ◌<◌, List, ◌++◌, true, false, IfOk, IfErr, OnOk, OnErr, IfSome};
ghost use Rattle.map_types.specs.declared.commands.Command.{Command};
ghost use Rattle.ticket_order.specs.Calls.{RefusesSweep};
ghost use Rattle.ticket_order.specs.Records.{failing, publishing};
ghost use Rattle.ticket_order.specs.StepRules.{IsOfSamePass};
ghost use Rattle.ticket_order.specs.Walks.{MakesOne, Durable, Fail};
ghost use Rattle.gate_log.specs.States.{commands_of};
ghost use Rattle.flusher.specs.HandSteps.{SameEntries};
ghost use Rattle.flusher.specs.Sweeping.{HasGathered};
ghost use Rattle.flusher.specs.KeeperSteps.{HasGivenBack, MakesSweep, StaysAt, SweepsOnce};
ghost use Rattle.flusher.specs.Fitting.{Fits, HasSeenMore, IsQuiet};

use crate::owner::Journal;
use disk_model::Disk;
use map_types::Refusal;
use std::sync::Wait;
use ticket_order::Steps;

impl<D: Disk, S: Steps> Journal<D, S> {
    /// A whole sweep, or the rest of one that is begun: the count that its LOOK found. Refused with
    /// `NoMemory`; the next sweep goes on at that stripe.
    pub fn sweep<R: Wait>(&mut self, rt: &R) -> Result<u64, Refusal>
        // A sweep is over, and has gathered each ticket below its count.
        ensures done { (done : List Command) → Fits D.states D.honest
            (S.stripe_count self.old.steps) done self.old.keeper (S.recorded self.old.steps)
            → IfOk result (λ count. HasGathered self.new.keeper.sweeper
            (done ++ commands_of self.old.keeper.staged.items) count
            (S.recorded self.new.steps)) }
        ensures count { IfOk result (λ count. MakesSweep self.old.keeper.sweeper.sweep count
            (S.recorded self.old.steps) (S.recorded self.new.steps)) }

        // Refused for want of memory: the sweep stays begun, at the stripe that it gave back.
        ensures err { IfErr result (λ refusal. (refusal ≡ Refusal.NoMemory)
            × StaysAt (S.stripe_count self.new.steps) self.new.keeper.sweeper
            (S.recorded self.new.steps)) }
        ensures gave { OnErr result (HasGivenBack self.new.keeper.sweeper
            (S.recorded self.old.steps) (S.recorded self.new.steps)) }
        ensures stays { OnErr result (IfSome self.new.keeper.sweeper.sweep (λ sweep.
            MakesSweep self.old.keeper.sweeper.sweep sweep.count (S.recorded self.old.steps)
            (S.recorded self.new.steps))) }

        // Calls, the published count and failure stay, and only the sweeper changes.
        ensures quiet { IsQuiet (S.recorded self.old.steps) (S.recorded self.new.steps) }
        ensures seen { HasSeenMore (S.recorded self.old.steps) (S.recorded self.new.steps) }
        ensures same { self.new.keeper
            ≡ record self.old.keeper { sweeper = self.new.keeper.sweeper } }
        ensures pass { IsOfSamePass S.place S.stripe_count self.old.steps self.new.steps }
    {
        self.keeper.sweep(rt, &mut self.steps)
    }

    /// Sweeps one stripe, and doesn't wait for it. A sweep that is begun and not over stays where it
    /// is.
    pub fn try_sweep(&mut self, stripe: usize) -> Result<(), Refusal>
        requires { stripe < S.stripe_count self.old.steps }

        // The entries of the stripe's outbox are in hand, by TAKE and GIVE.
        ensures ok { OnOk result (SweepsOnce (S.stripe_count self.old.steps) stripe
            self.old.keeper.sweeper.in_hand self.new.keeper.sweeper.in_hand
            (S.recorded self.old.steps) (S.recorded self.new.steps)) }

        // Refused: another has it, or no memory; the same tickets are in hand.
        ensures err { IfErr result (λ refusal. RefusesSweep (S.recorded self.old.steps) stripe
            refusal (S.recorded self.new.steps)) }
        ensures kept { OnErr result (SameEntries self.old.keeper.sweeper.in_hand
            self.new.keeper.sweeper.in_hand) }

        // Only the hand changes.
        ensures same { self.new.keeper ≡ record self.old.keeper {
          sweeper = record self.old.keeper.sweeper { in_hand = self.new.keeper.sweeper.in_hand };
        } }
        ensures pass { IsOfSamePass S.place S.stripe_count self.old.steps self.new.steps }
    {
        self.keeper.try_sweep(stripe, &mut self.steps)
    }

    /// DURABLE with the committed count; no step if `fail` was called.
    pub fn publish(&mut self)
        // Before `fail` one step is made: DURABLE with the committed count.
        ensures one { self.old.keeper.has_failed ≡ false
            → MakesOne S.recorded S.moves Durable self.old.steps self.new.steps }
        ensures published { self.old.keeper.has_failed ≡ false
            → (S.recorded self.new.steps
            ≡ publishing (S.recorded self.old.steps) self.old.keeper.log.committed)
            × (self.new.keeper
            ≡ record self.old.keeper { published = self.old.keeper.log.committed }) }

        // After `fail` no step is made, and nothing changes.
        ensures failed { self.old.keeper.has_failed ≡ true
            → (self.new.steps ≡ self.old.steps) × (self.new.keeper ≡ self.old.keeper) }
        ensures pass { IsOfSamePass S.place S.stripe_count self.old.steps self.new.steps }
    {
        self.keeper.publish(&mut self.steps);
    }

    /// FAIL. From now on nothing is published.
    pub fn fail(&mut self)
        ensures one { MakesOne S.recorded S.moves Fail self.old.steps self.new.steps }
        ensures failed { (S.recorded self.new.steps ≡ failing (S.recorded self.old.steps))
            × (self.new.keeper ≡ record self.old.keeper { has_failed = true }) }
        ensures pass { IsOfSamePass S.place S.stripe_count self.old.steps self.new.steps }
    {
        self.keeper.fail(&mut self.steps);
    }
}
