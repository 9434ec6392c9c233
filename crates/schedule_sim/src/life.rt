//! A store that is open: its keeper, and its workers on the plain words.
ghost use Rattle.std.specs.Prelude.{◌≡◌, ◌≢◌, ◌<◌, ℕ, [], None, true, false, length, replicate, IfOk};
ghost use Rattle.ticket_order.specs.declared.record.Record.{Record};
ghost use Rattle.ticket_order.specs.Walks.{Task, Fits, Next, IsUnderWay, next_kind};
ghost use Rattle.one_history.specs.Turns.{record_of, opening_of};
ghost use Rattle.flusher.specs.Fitting.{IsUnused};
ghost use Rattle.flusher.specs.Fitting as keeping;
ghost use Rattle.recovery.specs.Dividing.{ArePartsOf};
ghost use Rattle.recovery.specs.Opening.{IsAtStart};
ghost use Rattle.store_layout.specs.Opening.{Contents, Opened, key_limit_of};
ghost use Rattle.schedule_sim.specs.Storing.{IsDurable, IsOpening, LiesOn};
ghost use Rattle.std.specs.Prelude.{List, slice_set};
ghost use Rattle.sim_rules.specs.declared.event.Event.TheVariants as event;
ghost use Rattle.schedule_sim.specs.declared.job.Job.{Job};
ghost use Rattle.schedule_sim.specs.Tracing.{traced_states, traced_honest};
ghost use Rattle.schedule_sim.specs.Watching.{MakesStep};
ghost use Rattle.sim_rules.specs.World.{World};
ghost use Rattle.schedule_sim.specs.Living.{Did, IsLife, IsLifeBut, is_of_life};
ghost use Rattle.schedule_sim.specs.Workers.{job_of};

use crate::job::{Job, called, released};
use crate::traced::Traced;
use crate::watched::Watched;
use atomic_methods::Part;
use checkpoint_walk::laws as walk_laws;
use flusher::Keeper;
use java_hash::StripeCount;
use map_model::laws as map_laws;
use map_types::{Command, Read, Refusal};
use plain_words::PlainWords;
use sim_keeper::laws as keeper_laws;
use sim_rules::{Event, Made, Outcome, laws as rule_laws};
use sim_workers::laws as worker_laws;
use std::alloc::{AllocError, Global};
use std::mem;
use ticket_order::{Stepped, Walk};

/// The workers have the passes 0 to 63, and the keeper has the one after them.
pub(crate) const WORKERS: usize = 64;

#[derive(Drop)]
pub(crate) struct Life {
    pub keeper: Keeper<Traced>,
    pub words: PlainWords,
    pub jobs: Vec<Job>,
}

/// All workers are idle.
fn idle_workers(alloc: Global) -> Result<Vec<Job>, AllocError>
    ensures { IfOk result (λ jobs. jobs.items ≡ replicate 64 Job.Idle) }
{
    let mut jobs = Vec::new(alloc);
    for _worker in 0..WORKERS {
        jobs.push(Job::Idle)?;
    }
    Ok(jobs)
}

/// The same command.
fn copied_command(command: &Command) -> Result<Command, AllocError>
    ensures { IfOk result (λ copy. copy ≡ command.now) }
{
    command.clone()
}

/// The same read.
fn copied_read(read: &Read) -> Result<Read, AllocError>
    ensures { IfOk result (λ copy. copy ≡ read.now) }
{
    read.clone()
}

/// The pass makes the next step of its walk: which it was, and what it left.
fn step_walk(words: &mut PlainWords, pass: usize, walk: Walk) -> (Made, Stepped)
    requires pass { pass < length words.old.passes }
    requires under_way { IsUnderWay words.old.stripes walk (record_of pass words.old) }
    ensures one { MakesStep pass (next_kind words.old.stripes walk) words.old words.new result.0 }
    ensures next { (b : Record) (task : Task)
        → Fits words.old.stripes b task walk (record_of pass words.old)
        → Next words.old.stripes b task result.1 (record_of pass words.new) }
{
    let mut steps = Watched {
        words,
        pass,
        made: None,
    };
    let stepped = walk.step(&mut steps);
    let made = steps.made;
    match made {
        Some(made) => (made, stepped),
        None => unreachable!(),
    }
}

impl Life {
    /// The life that begins with this keeper and these parts, after `first` changes. The key of a
    /// change may have `limit` bytes.
    pub(crate) fn new(
        alloc: Global,
        keeper: Keeper<Traced>,
        stripes: StripeCount,
        parts: Vec<Part>,
        first: u64,
        limit: u16,
    ) -> Result<Life, AllocError>
        requires parts { ArePartsOf stripes.count parts.items }
        requires fits { (p : Record) → p.opening ≡ opening_of first parts.items limit
            → IsUnused first limit p
            → keeping.Fits traced_states traced_honest stripes.count [] keeper p }
        requires start { IsAtStart stripes first keeper }
        ensures life { IfOk result (λ life. (w : World) (contents : Contents) (found : Opened)
            → limit ≡ key_limit_of contents found
            → IsOpening w stripes.count contents found keeper parts.items → IsLife w life) }
        ensures kept { IfOk result (λ life. life.keeper ≡ keeper) }
    {
        map_laws::laws_of_parts();
        keeper_laws::laws_of_lives::<Traced>();
        worker_laws::beginnings_of_lives();
        let Ok(words) = PlainWords::new(alloc, stripes, parts, first, limit, WORKERS as u16) else {
            return Err(AllocError);
        };
        words.keeps_one_history();
        Ok(Life {
            keeper,
            words,
            jobs: idle_workers(alloc)?,
        })
    }

    fn is_idle(&self, worker: usize) -> bool
        requires { length self.now.jobs.items ≡ 64 }
        ensures idle { result ≡ true
            → (worker < 64) × (job_of worker self.now.jobs.items ≡ Job.Idle) }
        ensures busy { result ≡ false → worker < 64 → job_of worker self.now.jobs.items ≢ Job.Idle }
    {
        worker < WORKERS && matches!(self.jobs[worker], Job::Idle)
    }

    /// The worker begins a change, unless its key is too long.
    pub(crate) fn change(&mut self, worker: usize, command: &Command) -> Result<Outcome, AllocError>
        requires { (w : World) × IsLife w self.old }
        ensures { IfOk result (λ x. (w : World) → IsLife w self.old
            → Did w (event.Change worker command.now) x self.new) }
    {
        worker_laws::fits_of_workers();
        worker_laws::beginnings_of_walks();
        keeper_laws::laws_of_lives::<Traced>();
        if !self.is_idle(worker) {
            return Ok(Outcome::Skipped);
        }
        if command.key.is_above(self.words.key_limit(worker)) {
            return Ok(Outcome::Refused(Refusal::KeyTooLong));
        }
        let walk = Walk::change(self.keeper.alloc, copied_command(command)?);
        self.jobs[worker] = Job::Calling(walk);
        Ok(Outcome::Started)
    }

    pub(crate) fn read(&mut self, worker: usize, read: &Read) -> Result<Outcome, AllocError>
        requires { (w : World) × IsLife w self.old }
        ensures { IfOk result (λ x. (w : World) → IsLife w self.old
            → Did w (event.Read worker read.now) x self.new) }
    {
        worker_laws::fits_of_workers();
        worker_laws::beginnings_of_walks();
        keeper_laws::laws_of_lives::<Traced>();
        if !self.is_idle(worker) {
            return Ok(Outcome::Skipped);
        }
        self.jobs[worker] = Job::Calling(Walk::read(copied_read(read)?));
        Ok(Outcome::Started)
    }

    pub(crate) fn release(&mut self, worker: usize) -> Outcome
        requires { (w : World) × IsLife w self.old }
        ensures { (w : World) → IsLife w self.old → Did w (event.Release worker) result self.new }
    {
        worker_laws::fits_of_workers();
        worker_laws::beginnings_of_walks();
        keeper_laws::laws_of_lives::<Traced>();
        if worker >= WORKERS {
            return Outcome::Skipped;
        }
        match mem::replace(&mut self.jobs[worker], Job::Idle) {
            Job::Waiting(held) => {
                self.jobs[worker] = Job::Releasing(Walk::release(held));
                Outcome::Started
            }
            job => {
                self.jobs[worker] = job;
                Outcome::Skipped
            }
        }
    }

    fn step_call(&mut self, worker: usize, walk: Walk) -> Outcome
        requires but { (w : World) × IsLifeBut w worker (Job.Calling walk) self.old }
        requires worker { worker < 64 }
        ensures { (w : World) → IsLifeBut w worker (Job.Calling walk) self.old
            → Did w (event.Step worker) result self.new }
    {
        worker_laws::walks_of_workers();
        worker_laws::steps_of_workers();
        keeper_laws::laws_of_lives::<Traced>();
        let (made, stepped) = step_walk(&mut self.words, worker, walk);
        self.words.keeps_one_history();
        let (job, end) = called(stepped);
        self.jobs[worker] = job;
        Outcome::Stepped { made, end }
    }

    fn step_release(&mut self, worker: usize, walk: Walk) -> Outcome
        requires but { (w : World) × IsLifeBut w worker (Job.Releasing walk) self.old }
        requires worker { worker < 64 }
        ensures { (w : World) → IsLifeBut w worker (Job.Releasing walk) self.old
            → Did w (event.Step worker) result self.new }
    {
        worker_laws::walks_of_workers();
        worker_laws::steps_of_workers();
        keeper_laws::laws_of_lives::<Traced>();
        let (made, stepped) = step_walk(&mut self.words, worker, walk);
        self.words.keeps_one_history();
        let (job, end) = released(stepped);
        self.jobs[worker] = job;
        Outcome::Stepped { made, end }
    }

    /// The worker's walk makes its next step.
    pub(crate) fn step(&mut self, worker: usize) -> Outcome
        requires { (w : World) × IsLife w self.old }
        ensures { (w : World) → IsLife w self.old → Did w (event.Step worker) result self.new }
    {
        worker_laws::fits_of_workers();
        if worker >= WORKERS {
            return Outcome::Skipped;
        }
        match mem::replace(&mut self.jobs[worker], Job::Idle) {
            Job::Calling(walk) => self.step_call(worker, walk),
            Job::Releasing(walk) => self.step_release(worker, walk),
            job => {
                self.jobs[worker] = job;
                Outcome::Skipped
            }
        }
    }

    /// An event of a life, which doesn't end it.
    pub(crate) fn happen(&mut self, event: &Event) -> Result<Outcome, AllocError>
        requires { (w : World) × IsLife w self.old }
        ensures { IfOk result (λ x. (w : World) → IsLife w self.old → is_of_life event.now ≡ true
            → Did w event.now x self.new) }
    {
        match event {
            Event::Change { worker, command } => self.change(*worker, command),
            Event::Read { worker, read } => self.read(*worker, read),
            Event::Step { worker } => Ok(self.step(*worker)),
            Event::Release { worker } => Ok(self.release(*worker)),
            Event::Sweep => Ok(self.sweep()),
            Event::KeeperStep => Ok(self.step_keeper()),
            Event::Stage { most } => Ok(self.stage(*most)),
            Event::Device { side, ending } => self.call_device(*side, ending),
            Event::Publish => Ok(self.publish()),
            Event::Fail => Ok(self.fail()),
            Event::Begin => Ok(self.begin()),
            Event::Capture { stripe } => Ok(self.capture(*stripe)),
            Event::Seal => Ok(self.seal()),
            Event::Old | Event::Open { .. } | Event::Stop { .. } | Event::Leave => {
                Ok(Outcome::Skipped)
            }
        }
    }

    /// The disk, once the life is over.
    pub(crate) fn into_disk(self) -> Traced
        ensures disk { result ≡ self.keeper.disk }
        ensures lies { (w : World) (least : ℕ) → IsLife w self → IsDurable least w.life
            → LiesOn w least result }
    {
        walk_laws::stops_while_capturing(&self.keeper);
        rule_laws::laws_of_known_histories();
        let Life {
            keeper,
            words: _words,
            jobs: _jobs,
        } = self;
        keeper.into_disk()
    }
}
