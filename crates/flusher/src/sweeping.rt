//! How a keeper brings entries in hand.
ghost use Rattle.std.specs.Prelude.{◌≡◌, ◌+◌, ◌<◌, List, ◌++◌, false, Result, Ok, IfOk, IfErr, OnOk, OnErr, IfSome};
ghost use Rattle.map_types.specs.declared.commands.Command.{Command};
ghost use Rattle.ticket_order.specs.Calls.{RefusesSweep};
ghost use Rattle.ticket_order.specs.Walks.{MakesOne};
ghost use Rattle.gate_log.specs.States.{commands_of};
ghost use Rattle.flusher.specs.HandSteps.{SameEntries};
ghost use Rattle.flusher.specs.Sweeping.{HasGathered, IsDone, StepsOn, next_kind};
ghost use Rattle.flusher.specs.KeeperSteps.{HasGivenBack, MakesSweep, StaysAt, SweepsOnce, is_walking};
ghost use Rattle.flusher.specs.Fitting.{Fits, FitsOn, HasSeenMore, IsKept, IsQuiet};
ghost use Rattle.ticket_order.specs.StepRules.{IsOfSamePass};

use crate::keeper::Keeper;
use crate::sweeper::Swept;
use disk_model::Disk;
use map_types::Refusal;
use std::sync::Wait;
use store_invariant::laws as store_laws;
use store_layout::laws as layout_laws;
use ticket_order::Steps;

impl<D: Disk> Keeper<D> {
    /// Makes exactly one step of the sweep that the keeper keeps: the LOOK that begins one, or TAKE
    /// or GIVE of its next stripe. After `Held`, and if no memory was found, the next call tries
    /// that stripe again.
    pub fn sweep_step<S: Steps>(&mut self, steps: &mut S) -> Result<Swept, Refusal>
        // The keeper's invariant holds.
        requires { IsKept D.states D.honest (S.stripe_count steps.old) self.old
            (S.recorded steps.old) }

        // Exactly one step: the next of the sweep, with what that leaves.
        ensures one { MakesOne S.recorded S.moves
            (next_kind self.old.sweeper.sweep self.old.sweeper.walking) steps.old steps.new }
        ensures steps_on { StepsOn (S.stripe_count steps.old) self.old.sweeper.sweep
            self.old.sweeper.walking self.old.sweeper.in_hand self.new.sweeper
            (S.recorded steps.old) (S.recorded steps.new) result }

        // A sweep that is done has gathered each ticket below its count.
        ensures done { (done : List Command)
            → Fits D.states D.honest (S.stripe_count steps.old) done self.old (S.recorded steps.old)
            → IfOk result
            (IsDone self.new.sweeper (done ++ commands_of self.old.staged.items)
            (S.recorded steps.new)) }

        // The invariant goes on; calls, the published count and failure stay.
        ensures fits { FitsOn D.states D.honest S.stripe_count S.recorded self.old steps.old
            self.new steps.new }
        ensures quiet { IsQuiet (S.recorded steps.old) (S.recorded steps.new) }
        ensures seen { HasSeenMore (S.recorded steps.old) (S.recorded steps.new) }

        // Only the sweeper changes, in the same pass over as many stripes.
        ensures same { self.new ≡ record self.old { sweeper = self.new.sweeper } }
        ensures pass { IsOfSamePass S.place S.stripe_count steps.old steps.new }
    {
        store_laws::beginnings_of_stores();
        layout_laws::laws_of_found();
        self.sweeper.step(steps)
    }

    /// Goes on with the sweep that is begun, or makes a whole one, and returns the count that its
    /// LOOK found. A stripe that another holds is tried again until it is free. If no memory is
    /// found, the stripes before that one are drained, and the next sweep goes on there.
    pub fn sweep<R: Wait, S: Steps>(&mut self, rt: &R, steps: &mut S) -> Result<u64, Refusal>
        // The keeper's invariant holds.
        requires { IsKept D.states D.honest (S.stripe_count steps.old) self.old
            (S.recorded steps.old) }

        // A sweep is over, and has gathered each ticket below its count.
        ensures done { (done : List Command)
            → Fits D.states D.honest (S.stripe_count steps.old) done self.old (S.recorded steps.old)
            → IfOk result (λ count.
            HasGathered self.new.sweeper (done ++ commands_of self.old.staged.items) count
            (S.recorded steps.new)) }
        ensures count { IfOk result (λ count.
            MakesSweep self.old.sweeper.sweep count (S.recorded steps.old) (S.recorded steps.new)) }

        // Refused for want of memory: the sweep stays begun, at the stripe that it gave back.
        ensures err { IfErr result (λ refusal. (refusal ≡ Refusal.NoMemory)
            × StaysAt (S.stripe_count steps.new) self.new.sweeper (S.recorded steps.new)) }
        ensures gave { OnErr result
            (HasGivenBack self.new.sweeper (S.recorded steps.old) (S.recorded steps.new)) }
        ensures stays { OnErr result
            (IfSome self.new.sweeper.sweep (λ sweep.
            MakesSweep self.old.sweeper.sweep sweep.count (S.recorded steps.old)
            (S.recorded steps.new))) }

        // It rests; the invariant goes on; calls, published count, failure stay.
        ensures rests { is_walking self.new.sweeper.walking ≡ false }
        ensures fits { FitsOn D.states D.honest S.stripe_count S.recorded self.old steps.old
            self.new steps.new }
        ensures quiet { IsQuiet (S.recorded steps.old) (S.recorded steps.new) }
        ensures seen { HasSeenMore (S.recorded steps.old) (S.recorded steps.new) }

        // Only the sweeper changes, in the same pass over as many stripes.
        ensures same { self.new ≡ record self.old { sweeper = self.new.sweeper } }
        ensures pass { IsOfSamePass S.place S.stripe_count steps.old steps.new }
    {
        for _step in rt.forever() {
            let swept = match self.sweep_step(steps) {
                Ok(swept) => swept,
                Err(refusal) => return Err(refusal),
            };
            if let Swept::Done(count) = swept {
                return Ok(count);
            }
        }
        unreachable!()
    }

    /// Sweeps one stripe, by TAKE and GIVE, and doesn't wait for it. A sweep that is begun and not over
    /// stays where it is.
    pub fn try_sweep<S: Steps>(&mut self, stripe: usize, steps: &mut S) -> Result<(), Refusal>
        // The invariant holds, no sweep is between steps, there is this stripe.
        requires fits { IsKept D.states D.honest (S.stripe_count steps.old) self.old
            (S.recorded steps.old) }
        requires rests { is_walking self.old.sweeper.walking ≡ false }
        requires within { stripe < S.stripe_count steps.old }

        // The entries of the stripe's outbox are in hand, by TAKE and GIVE.
        ensures ok { OnOk result
            (SweepsOnce (S.stripe_count steps.old) stripe self.old.sweeper.in_hand
            self.new.sweeper.in_hand (S.recorded steps.old) (S.recorded steps.new)) }

        // Refused: another has it, or no memory; the same tickets are in hand.
        ensures err { IfErr result (λ refusal.
            RefusesSweep (S.recorded steps.old) stripe refusal (S.recorded steps.new)) }
        ensures kept { OnErr result
            (SameEntries self.old.sweeper.in_hand self.new.sweeper.in_hand) }

        // The invariant goes on, and only the hand changes, in the same pass.
        ensures fits { FitsOn D.states D.honest S.stripe_count S.recorded self.old steps.old
            self.new steps.new }
        ensures same { self.new ≡ record self.old {
          sweeper = record self.old.sweeper { in_hand = self.new.sweeper.in_hand };
        } }
        ensures pass { IsOfSamePass S.place S.stripe_count steps.old steps.new }
    {
        store_laws::beginnings_of_stores();
        layout_laws::laws_of_found();
        self.sweeper.sweep_stripe(stripe, steps)
    }
}
