//! A store in memory on one thread: one value, whose steps are made.
ghost use Rattle.std.specs.Prelude.{◌≡◌, None, IfOk};
ghost use Rattle.std.specs.List.{All};
ghost use Rattle.stripe_locks.specs.Holding.{IsHeldOf};
ghost use Rattle.stripe_locks.specs.Passes.{recorded, IsPassOf};

use crate::keeping::{Answer, keep, walk};
use crate::showing::{show_keeper, show_stripes, tell_next, tell_reply};
use crate::steps::{Keeping, Step, Walk, step_of};
use call_text::Asked;
use disk_model::MemDisk;
use java_hash::StripeCount;
use journal::{Journal, OwnSteps};
use map_types::Refusal;
use recovery::open;
use run_cases::number;
use std::alloc::{AllocError, Global};
use std::marker::Model;
use std::mem;
use std::sync::{Arc, Wait};
use stripe_locks::{Held, Pass, Released, Stripes};

/// How many replies are held without a request for memory.
const ROOM: usize = 64;

/// A journal over shared stripes; and a worker of these same stripes, with the replies that it holds.
/// Between two steps the worker holds no stripe.
#[derive(Drop)]
pub(crate) struct Store {
    alloc: Global,
    journal: Journal<MemDisk, OwnSteps>,
    stripes: Arc<Stripes, Global>,
    worker: Pass,
    held: Vec<Held>,
}

impl Model for Store {
    ghost use Rattle.std.specs.Arc.{arc_value};
    ghost use Rattle.std.specs.Prelude.{ℕ};
    ghost use Rattle.stripe_locks.specs.Passes.{stripe_count};
    ghost use Rattle.run_memory.specs.Stores.{IsStore};

    ghost Value = { ℕ };

    ghost view = { λ store. stripe_count (arc_value store.stripes) };

    ghost invariant = { λ store.
        IsStore (arc_value store.journal.steps.stripes) (arc_value store.stripes) store.worker
        store.held.items };
}

/// Makes a call of a pass. A change waits for a stripe that is held only if it is to wait.
fn call_by<R: Wait>(
    rt: &R,
    stripes: &Stripes,
    pass: &mut Pass,
    asked: Asked,
    is_to_wait: bool,
) -> Result<Held, Refusal>
    requires own { IsPassOf stripes.now pass.old }
    requires idle { (recorded pass.old).holding ≡ None }
    ensures own { IsPassOf stripes.now pass.new }
    ensures idle { (recorded pass.new).holding ≡ None }
    ensures held { IfOk result (IsHeldOf stripes.now) }
{
    match asked {
        Asked::Change(command) => {
            if is_to_wait {
                return stripes.call(rt, pass, command);
            }
            stripes.try_call(pass, command)
        }
        Asked::Read(read) => stripes.try_read(pass, read),
    }
}

/// Releases a reply by the pass, and tells what came of it. Holds it on if it has to wait.
fn release_one(
    alloc: Global,
    stripes: &Stripes,
    pass: &mut Pass,
    held: Held,
    waiting: &mut Vec<Held>,
    told: &mut String,
) -> Result<(), AllocError>
    requires own { IsPassOf stripes.now pass.old }
    requires held { IsHeldOf stripes.now held }
    requires waiting { All (IsHeldOf stripes.now) waiting.old.items }
    ensures own { IsPassOf stripes.now pass.new }
    ensures waiting { All (IsHeldOf stripes.now) waiting.new.items }
{
    match stripes.release(pass, held) {
        Released::Reply(position, reply) => tell_reply(alloc, position.number(), &reply, told),
        Released::NotYet(held) => {
            waiting.push(held)?;
            told.push_str("not yet")
        }
        Released::Failed => told.push_str("failed"),
    }
}

/// Releases replies by a new pass, and tells what came of each. Returns those that have to wait.
fn release_all(
    alloc: Global,
    stripes: &Stripes,
    all: Vec<Held>,
    told: &mut String,
) -> Result<Vec<Held>, Refusal>
    requires { All (IsHeldOf stripes.now) all.items }
    ensures { IfOk result (λ waiting. All (IsHeldOf stripes.now) waiting.items) }
{
    let mut pass = stripes.pass()?;
    let mut waiting = Vec::with_capacity(alloc, ROOM)?;
    for held in all {
        tell_next(", ", told)?;
        release_one(alloc, stripes, &mut pass, held, &mut waiting, told)?;
    }
    Ok(waiting)
}

impl Store {
    /// Opens the disk, and takes the keeper's pass and a worker's.
    pub(crate) fn open(alloc: Global, disk: MemDisk, count: StripeCount) -> Result<Store, Refusal> {
        let (keeper, stripes) = match open(alloc, disk, count) {
            Ok(opened) => opened,
            Err((_disk, refusal)) => return Err(refusal),
        };
        let stripes = Arc::new(alloc, stripes)?;
        let shared = Arc::try_clone(&stripes)?;
        let journal = match Journal::over(keeper, shared) {
            Ok(journal) => journal,
            Err((_disk, refusal)) => return Err(refusal),
        };
        let worker = stripes.pass()?;
        let held = Vec::with_capacity(alloc, ROOM)?;
        Ok(Store {
            alloc,
            journal,
            stripes,
            worker,
            held,
        })
    }

    /// The disk, which the store no longer needs.
    pub(crate) fn into_disk(self) -> MemDisk {
        let Store {
            alloc: _,
            journal,
            stripes: _stripes,
            worker: _worker,
            held: _held,
        } = self;
        journal.into_disk()
    }

    /// Makes a call of the worker, and holds its reply: its position.
    fn call<R: Wait>(&mut self, rt: &R, asked: Asked, is_to_wait: bool) -> Answer {
        let held = call_by(rt, &self.stripes, &mut self.worker, asked, is_to_wait)?;
        let position = held.position().number();
        self.held.push(held)?;
        Ok(position)
    }

    /// Makes a call of a new pass, and gives up its reply: its position.
    fn call_by_another<R: Wait>(&self, rt: &R, asked: Asked) -> Answer {
        let mut pass = self.stripes.pass()?;
        let held = call_by(rt, &self.stripes, &mut pass, asked, false)?;
        Ok(held.position().number())
    }

    /// Makes a step of the keeper's files.
    fn keep(&mut self, keeping: Keeping) -> Answer {
        keep(&mut self.journal, keeping)
    }

    /// Makes a step of the keeper over the stripes.
    fn walk<R: Wait>(&mut self, rt: &R, step: Walk) -> Answer {
        walk(rt, &mut self.journal, step)
    }

    /// Makes a step: what it answers.
    pub(crate) fn make<R: Wait>(&mut self, rt: &R, step: Step) -> Answer {
        match step {
            Step::Call(asked) => self.call(rt, asked, false),
            Step::WaitingCall(asked) => self.call(rt, asked, true),
            Step::CallByAnother(asked) => self.call_by_another(rt, asked),
            Step::Keep(keeping) => self.keep(keeping),
            Step::Walk(step) => self.walk(rt, step),
        }
    }

    /// Makes the step that is written so; before a `*` stands how often. Returns its last answer.
    pub(crate) fn take<R: Wait>(&mut self, rt: &R, text: &str) -> Answer {
        let (times, text) = text.split_once('*').unwrap_or(("1", text));
        let mut answer = Ok(0);
        for _ in 0..number(times)? {
            answer = self.make(rt, step_of(self.alloc, text)?);
        }
        answer
    }

    /// Makes the steps that are written so.
    pub(crate) fn take_each<R: Wait>(&mut self, rt: &R, texts: &[&str]) -> Result<(), Refusal> {
        for text in texts {
            self.take(rt, text)?;
        }
        Ok(())
    }

    /// Has a new pass release the worker's replies: what came of each. The worker holds on those
    /// that have to wait.
    pub(crate) fn release(&mut self) -> Result<String, Refusal> {
        let mut told = String::new(self.alloc);
        let held = mem::replace(&mut self.held, Vec::new(self.alloc));
        self.held = release_all(self.alloc, &self.stripes, held, &mut told)?;
        Ok(told)
    }

    /// Tells what stands in the stripes.
    pub(crate) fn show_stripes(&self, told: &mut String) -> Result<(), Refusal> {
        show_stripes(self.alloc, &self.stripes, told)
    }

    /// Tells what stands in the keeper.
    pub(crate) fn show_keeper(&self, told: &mut String) -> Result<(), AllocError> {
        show_keeper(self.journal.keeper(), told)
    }
}
