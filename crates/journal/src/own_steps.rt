//! The steps of a pass on shared stripes, both of which it owns.
ghost use Rattle.std.specs.Prelude.{◌≡◌, None, false, IfOk, IfErr};
ghost use Rattle.std.specs.Arc.{arc_value};
ghost use Rattle.ticket_order.specs.declared.record.Record.{Record};
ghost use Rattle.stripe_locks.specs.Passes.{begun_with, recorded, stripe_count, IsPassOf};
ghost use Rattle.stripe_locks.specs.Plays.{joining};
ghost use Rattle.flusher.specs.Fitting.{IsKept, IsUnused};
ghost use Rattle.flusher.specs.KeeperSteps.{is_walking};

use crate::owner::Journal;
use disk_model::Disk;
use flusher::Keeper;
use java_hash::StripeCount;
use map_types::{Command, Refusal};
use std::alloc::Global;
use std::sync::Arc;
use stripe_locks::{Pass, Stripes};
use ticket_order::{Purpose, Steps, Stripe, Ticket};

/// The steps of a pass on the words of shared stripes. How many entries the stripe had that was taken
/// last is a hint: no clause speaks of it.
#[derive(Drop)]
pub struct OwnSteps {
    /// The stripes, which other passes share.
    pub stripes: Arc<Stripes, Global>,
    /// The pass, which is one of theirs.
    pub pass: Pass,
    entries: usize,
    ghost own: { IsPassOf (arc_value stripes) pass },
}

impl OwnSteps {
    /// The steps of a pass of these stripes.
    pub fn new(stripes: Arc<Stripes, Global>, pass: Pass) -> OwnSteps
        requires own { IsPassOf (arc_value stripes) pass }
        ensures stripes { result.stripes ≡ stripes }
        ensures pass { result.pass ≡ pass }
    {
        OwnSteps {
            stripes,
            pass,
            entries: 0,
        }
    }

    /// How many entries the stripe had that was taken last.
    pub fn entries(&self) -> usize {
        self.entries
    }
}

impl Steps for OwnSteps {
    ghost use Rattle.std.specs.Prelude.{◌≡◌};
    ghost use Rattle.std.specs.Arc.{arc_value};
    ghost use Rattle.stripe_locks.specs.Holding.{name_of_words};
    ghost use Rattle.stripe_locks.specs.Passes.{recorded, stripe_count};

    ghost recorded = { λ steps. recorded steps.pass };

    ghost stripe_count = { λ steps. stripe_count (arc_value steps.stripes) };

    ghost place = { λ steps. name_of_words (arc_value steps.stripes) };

    // Other threads move the words between two steps: nothing is said but what the record says.
    ghost moves = { λ before made after. Unit {0} };

    fn stripes(&self) -> StripeCount {
        self.stripes.stripes()
    }

    fn seen(&self) -> u64 {
        self.pass.seen()
    }

    fn key_limit(&self) -> u16 {
        self.pass.key_limit()
    }

    fn take(&mut self, stripe: usize) -> Option<Stripe> {
        let taken = self.stripes.at(&mut self.pass).take(stripe);
        if let Some(content) = &taken {
            self.entries = content.part.len();
        }
        taken
    }

    fn give(&mut self, stripe: usize, content: Stripe, purpose: Purpose) {
        self.stripes
            .at(&mut self.pass)
            .give(stripe, content, purpose);
    }

    fn ticket(&mut self, command: &Command) -> Ticket {
        self.stripes.at(&mut self.pass).ticket(command)
    }

    fn look(&mut self) -> u64 {
        self.stripes.at(&mut self.pass).look()
    }

    fn durable(&mut self, number: u64) {
        self.stripes.at(&mut self.pass).durable(number);
    }

    fn see(&mut self) -> u64 {
        self.stripes.at(&mut self.pass).see()
    }

    fn fail(&mut self) {
        self.stripes.at(&mut self.pass).fail();
    }

    fn alive(&mut self) -> bool {
        self.stripes.at(&mut self.pass).alive()
    }
}

impl<D: Disk> Journal<D, OwnSteps> {
    /// The journal of a keeper that has made no call, with the keeper's pass of these stripes. Refused
    /// with `SeatsSpent` if that pass can't be had; the disk is handed back.
    pub fn over(
        keeper: Keeper<D>,
        stripes: Arc<Stripes, Global>,
    ) -> Result<Journal<D, OwnSteps>, (D, Refusal)>
        // The keeper fits each unused pass of the stripes, and rests.
        requires fits { (p : Record) → p.opening ≡ begun_with (arc_value stripes)
            → IsUnused (begun_with (arc_value stripes)).first
            (begun_with (arc_value stripes)).key_limit p
            → IsKept D.states D.honest (stripe_count (arc_value stripes)) keeper p }
        requires still { is_walking keeper.sweeper.walking ≡ false }
        requires over { keeper.capture ≡ None }

        // It owns both, and its pass has made no step.
        ensures owned { IfOk result (λ journal. (journal.keeper ≡ keeper)
            × (journal.steps.stripes ≡ stripes)) }
        ensures first { IfOk result (λ journal.
            recorded journal.steps.pass ≡ joining (begun_with (arc_value stripes)) 0) }

        // Or the stripes have no keeper's pass.
        ensures err { IfErr result (λ refused. (refused.1 ≡ Refusal.SeatsSpent)
            × (refused.0 ≡ keeper.disk)) }
    {
        let pass = match stripes.keeper_pass() {
            Ok(pass) => pass,
            Err(refusal) => return Err((keeper.into_disk(), refusal)),
        };
        Ok(Journal::new(keeper, OwnSteps::new(stripes, pass)))
    }
}
