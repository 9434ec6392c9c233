//! The walks of a life's keeper: its sweeps and its captures, step by step.
ghost use Rattle.std.specs.Prelude.{◌≡◌, Some, None, false, true, IfOk};
ghost use Rattle.sim_keeper.specs.Telling.{capture_end, sweep_end};
ghost use Rattle.flusher.specs.KeeperSteps.{is_walking};
ghost use Rattle.ticket_order.specs.declared.walk.Walk.{Walk};
ghost use Rattle.sim_rules.specs.World.{World, Life as TheLife};
ghost use Rattle.sim_rules.specs.Fitting.{fits, has_call};
ghost use Rattle.sim_rules.specs.declared.event.Event.TheVariants as event;
ghost use Rattle.schedule_sim.specs.Living.{Did, IsLife};

use crate::life::{Life, WORKERS};
use crate::traced::Traced;
use crate::watched::Watched;
use checkpoint_walk::capture_step;
use flusher::Swept;
use map_types::Refusal;
use sim_keeper::laws as keeper_laws;
use sim_rules::{End, Outcome};
use sim_workers::laws as worker_laws;

/// What a step of a sweep leaves of it.
fn end_of_sweep(swept: Result<Swept, Refusal>) -> End
    ensures { result ≡ sweep_end swept }
{
    match swept {
        Ok(Swept::More) => End::Goes,
        Ok(Swept::Held(stripe)) => End::SweepHeld(stripe),
        Ok(Swept::Done(count)) => End::Swept(count),
        Err(refusal) => End::Refused(refusal),
    }
}

/// What a step of a capture leaves of it.
fn end_of_capture(captured: Result<Option<u64>, Refusal>) -> End
    ensures { result ≡ capture_end captured }
{
    match captured {
        Ok(None) => End::Goes,
        Ok(Some(mark)) => End::Captured(mark),
        Err(refusal) => End::Refused(refusal),
    }
}

impl Life {
    fn step_sweep(&mut self) -> Outcome
        requires life { (w : World) × IsLife w self.old }
        requires no_capture { self.old.keeper.capture ≡ None }
        ensures begins { is_walking self.old.keeper.sweeper.walking ≡ false → (w : World)
            → IsLife w self.old → Did w event.Sweep result self.new }
        ensures goes_on { is_walking self.old.keeper.sweeper.walking ≡ true → (w : World)
            → IsLife w self.old → Did w event.KeeperStep result self.new }
    {
        let mut steps = Watched {
            words: &mut self.words,
            pass: WORKERS,
            made: None,
        };
        let swept = self.keeper.sweep_step(&mut steps);
        let Some(made) = steps.made else {
            unreachable!()
        };
        self.words.keeps_one_history();
        worker_laws::steps_of_the_keeper();
        worker_laws::words_of_stripes();
        keeper_laws::laws_of_sweeps::<Traced>();
        keeper_laws::laws_of_taking::<Traced>();
        keeper_laws::laws_of_telling::<Traced>();
        keeper_laws::laws_of_lives::<Traced>();
        Outcome::Stepped {
            made,
            end: end_of_sweep(swept),
        }
    }

    /// A capture that is under way goes on, whatever stripe is named.
    fn step_capture(&mut self, stripe: usize) -> Outcome
        requires life { (w : World) × IsLife w self.old }
        requires no_sweep { is_walking self.old.keeper.sweeper.walking ≡ false }
        ensures begins { self.old.keeper.capture ≡ None → (w : World) → IsLife w self.old
            → Did w (event.Capture stripe) result self.new }
        ensures goes_on { (walk : Walk) → self.old.keeper.capture ≡ Some walk → (w : World)
            → IsLife w self.old → Did w event.KeeperStep result self.new }
    {
        keeper_laws::laws_of_captures::<Traced>();
        keeper_laws::laws_of_telling::<Traced>();
        keeper_laws::laws_of_taking::<Traced>();
        keeper_laws::laws_of_lives::<Traced>();
        worker_laws::words_of_stripes();
        worker_laws::steps_of_the_keeper();
        let mut steps = Watched {
            words: &mut self.words,
            pass: WORKERS,
            made: None,
        };
        let captured = capture_step(&mut self.keeper, stripe, &mut steps);
        let made = steps.made;
        self.words.keeps_one_history();
        match (made, captured) {
            (Some(made), captured) => Outcome::Stepped {
                made,
                end: end_of_capture(captured),
            },
            (None, Err(refusal)) => Outcome::Refused(refusal),
            (None, Ok(_)) => unreachable!(),
        }
    }

    /// The keeper begins a sweep, or goes on with one that waits.
    pub(crate) fn sweep(&mut self) -> Outcome
        requires { (w : World) × IsLife w self.old }
        ensures { (w : World) → IsLife w self.old → Did w (event.Sweep) result self.new }
    {
        keeper_laws::laws_of_telling::<Traced>();
        if self.keeper.is_walking() {
            return Outcome::Skipped;
        }
        self.step_sweep()
    }

    /// The keeper's walk makes its next step.
    pub(crate) fn step_keeper(&mut self) -> Outcome
        requires { (w : World) × IsLife w self.old }
        ensures { (w : World) → IsLife w self.old → Did w (event.KeeperStep) result self.new }
    {
        keeper_laws::laws_of_telling::<Traced>();
        if self.keeper.capture.is_some() {
            return self.step_capture(0);
        }
        if self.keeper.is_walking() {
            return self.step_sweep();
        }
        Outcome::Skipped
    }

    pub(crate) fn capture(&mut self, stripe: usize) -> Outcome
        requires { (w : World) × IsLife w self.old }
        ensures { (w : World) → IsLife w self.old → Did w (event.Capture stripe) result self.new }
    {
        keeper_laws::laws_of_telling::<Traced>();
        if self.keeper.is_walking() {
            return Outcome::Skipped;
        }
        self.step_capture(stripe)
    }
}
