//! What the keeper of a life does between its walks and its device calls.
ghost use Rattle.std.specs.Prelude.{◌≡◌, Some, None, false, true, IfOk};
ghost use Rattle.sim_keeper.specs.Telling.{capture_end, sweep_end};
ghost use Rattle.flusher.specs.KeeperSteps.{is_walking};
ghost use Rattle.ticket_order.specs.declared.walk.Walk.{Walk};
ghost use Rattle.sim_rules.specs.World.{World, Life as TheLife};
ghost use Rattle.sim_rules.specs.Fitting.{fits, has_call};
ghost use Rattle.sim_rules.specs.declared.event.Event.TheVariants as event;
ghost use Rattle.schedule_sim.specs.Living.{Did, IsLife};

use crate::life::{Life, WORKERS};
use crate::traced::Traced;
use checkpoint_walk::{begin, seal};
use plain_words::At;
use sim_keeper::laws as keeper_laws;
use sim_rules::Outcome;
use sim_workers::laws as worker_laws;

impl Life {
    pub(crate) fn stage(&mut self, most: u32) -> Outcome
        requires { (w : World) × IsLife w self.old }
        ensures { (w : World) → IsLife w self.old → Did w (event.Stage most) result self.new }
    {
        keeper_laws::laws_of_telling::<Traced>();
        keeper_laws::laws_of_batches::<Traced>();
        worker_laws::steps_of_the_keeper();
        if self.keeper.is_walking() {
            return Outcome::Skipped;
        }
        match self.keeper.stage_batch(most) {
            Ok(count) => Outcome::Staged(count),
            Err(refusal) => Outcome::Refused(refusal),
        }
    }

    pub(crate) fn publish(&mut self) -> Outcome
        requires { (w : World) × IsLife w self.old }
        ensures { (w : World) → IsLife w self.old → Did w (event.Publish) result self.new }
    {
        keeper_laws::laws_of_telling::<Traced>();
        keeper_laws::laws_of_counts::<Traced>();
        worker_laws::steps_of_the_keeper();
        if self.keeper.is_walking() || self.keeper.has_failed {
            return Outcome::Skipped;
        }
        let mut steps = At::new(&mut self.words, WORKERS);
        self.keeper.publish(&mut steps);
        self.words.keeps_one_history();
        Outcome::Published(self.keeper.committed())
    }

    pub(crate) fn fail(&mut self) -> Outcome
        requires { (w : World) × IsLife w self.old }
        ensures { (w : World) → IsLife w self.old → Did w (event.Fail) result self.new }
    {
        keeper_laws::laws_of_telling::<Traced>();
        keeper_laws::laws_of_counts::<Traced>();
        worker_laws::steps_of_the_keeper();
        if self.keeper.is_walking() {
            return Outcome::Skipped;
        }
        let mut steps = At::new(&mut self.words, WORKERS);
        self.keeper.fail(&mut steps);
        self.words.keeps_one_history();
        Outcome::FailMade
    }

    pub(crate) fn begin(&mut self) -> Outcome
        requires { (w : World) × IsLife w self.old }
        ensures { (w : World) → IsLife w self.old → Did w (event.Begin) result self.new }
    {
        keeper_laws::laws_of_telling::<Traced>();
        keeper_laws::laws_of_seals::<Traced>();
        worker_laws::steps_of_the_keeper();
        if self.keeper.is_walking() {
            return Outcome::Skipped;
        }
        match begin(&mut self.keeper) {
            Ok(()) => Outcome::Begun,
            Err(refusal) => Outcome::Refused(refusal),
        }
    }

    pub(crate) fn seal(&mut self) -> Outcome
        requires { (w : World) × IsLife w self.old }
        ensures { (w : World) → IsLife w self.old → Did w (event.Seal) result self.new }
    {
        keeper_laws::laws_of_telling::<Traced>();
        keeper_laws::laws_of_seals::<Traced>();
        worker_laws::steps_of_the_keeper();
        if self.keeper.is_walking() {
            return Outcome::Skipped;
        }
        match seal(&mut self.keeper) {
            Ok(()) => Outcome::Sealing,
            Err(refusal) => Outcome::Refused(refusal),
        }
    }
}
