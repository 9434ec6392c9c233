//! The calls that the keeper's own pass makes, for a map that has no other pass.
ghost use Rattle.std.specs.Prelude.{◌≡◌, None, IfOk, IfErr};
ghost use Rattle.java_hash.specs.Stripes.{stripe_of};
ghost use Rattle.ticket_order.specs.Calls.{MakesCall, MakesRead, RefusesRead, Releases, TurnsDown};
ghost use Rattle.ticket_order.specs.StepRules.{IsOfSamePass};
ghost use Rattle.flusher.specs.Fitting.{IsBeside};

use crate::owner::Journal;
use disk_model::Disk;
use flusher::laws;
use map_types::{Command, Read, Refusal};
use std::alloc::Global;
use ticket_order;
use ticket_order::{Held, Released, Steps};

/// Makes a change, by steps beside the keeper's.
fn change<S: Steps>(steps: &mut S, alloc: Global, command: Command) -> Result<Held, Refusal>
    requires free { (S.recorded steps.old).holding ≡ None }
    ensures made { IfOk result (λ held. MakesCall (S.stripe_count steps.old)
        (S.recorded steps.old) command held.position held.reply (S.recorded steps.new)) }
    ensures refused { IfErr result (λ refusal. TurnsDown (S.stripe_count steps.old)
        (S.recorded steps.old) command refusal (S.recorded steps.new)) }
    ensures free { (S.recorded steps.new).holding ≡ None }
    ensures beside { IsBeside (S.recorded steps.old) (S.recorded steps.new) }
    ensures pass { IsOfSamePass S.place S.stripe_count steps.old steps.new }
{
    ticket_order::try_call(steps, alloc, command)
}

/// Makes a read, by steps beside the keeper's.
fn look_up<S: Steps>(steps: &mut S, read: Read) -> Result<Held, Refusal>
    requires free { (S.recorded steps.old).holding ≡ None }
    ensures made { IfOk result (λ held. MakesRead (S.stripe_count steps.old)
        (S.recorded steps.old) read held.position held.reply (S.recorded steps.new)) }
    ensures refused { IfErr result (λ refusal. RefusesRead (S.recorded steps.old)
        (stripe_of (S.stripe_count steps.old) read.key) refusal (S.recorded steps.new)) }
    ensures free { (S.recorded steps.new).holding ≡ None }
    ensures beside { IsBeside (S.recorded steps.old) (S.recorded steps.new) }
    ensures pass { IsOfSamePass S.place S.stripe_count steps.old steps.new }
{
    ticket_order::try_read(steps, read)
}

impl<D: Disk, S: Steps> Journal<D, S> {
    /// Makes a change, as `ticket_order::try_call`, with its refusals.
    pub fn try_call(&mut self, alloc: Global, command: Command) -> Result<Held, Refusal>
        ensures made { IfOk result (λ held. MakesCall (S.stripe_count self.old.steps)
            (S.recorded self.old.steps) command held.position held.reply
            (S.recorded self.new.steps)) }
        ensures refused { IfErr result (λ refusal. TurnsDown (S.stripe_count self.old.steps)
            (S.recorded self.old.steps) command refusal (S.recorded self.new.steps)) }
        ensures same { self.new.keeper ≡ self.old.keeper }
        ensures pass { IsOfSamePass S.place S.stripe_count self.old.steps self.new.steps }
    {
        laws::pass_goes_on(&self.keeper);
        change(&mut self.steps, alloc, command)
    }

    /// Makes a read, as `ticket_order::try_read`, with its refusals.
    pub fn try_read(&mut self, read: Read) -> Result<Held, Refusal>
        ensures made { IfOk result (λ held. MakesRead (S.stripe_count self.old.steps)
            (S.recorded self.old.steps) read held.position held.reply
            (S.recorded self.new.steps)) }
        ensures refused { IfErr result (λ refusal. RefusesRead (S.recorded self.old.steps)
            (stripe_of (S.stripe_count self.old.steps) read.key) refusal
            (S.recorded self.new.steps)) }
        ensures same { self.new.keeper ≡ self.old.keeper }
        ensures pass { IsOfSamePass S.place S.stripe_count self.old.steps self.new.steps }
    {
        laws::pass_goes_on(&self.keeper);
        look_up(&mut self.steps, read)
    }

    /// Gives the reply out if its position is durable, as `ticket_order::release`.
    pub fn release(&mut self, held: Held) -> Released
        ensures released { Releases held.position held.reply (S.recorded self.old.steps) result
            (S.recorded self.new.steps) }
        ensures same { self.new.keeper ≡ self.old.keeper }
        ensures pass { IsOfSamePass S.place S.stripe_count self.old.steps self.new.steps }
    {
        laws::pass_goes_on(&self.keeper);
        ticket_order::release(&mut self.steps, held)
    }
}
