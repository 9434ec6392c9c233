//! A pass on the stripes that calls.
ghost use Rattle.std.specs.Prelude.{◌≡◌, None};
ghost use Rattle.stripe_locks.specs.Passes.{recorded, IsPassOf};

use map_types::{Change, Command, Key, Question, Read, Refusal, Reply, Value};
use std::alloc::Global;
use std::sync::Wait;
use stripe_locks::{Held, Pass, Released, Stripes};
use ticket_order::{Position, Steps};

pub(crate) fn put(alloc: Global, key: &str, number: i64) -> Result<Command, Refusal> {
    Ok(Command {
        key: Key::new(alloc, key)?,
        change: Change::Put(Value::Int(number)),
    })
}

pub(crate) fn get(alloc: Global, key: &str) -> Result<Read, Refusal> {
    Ok(Read {
        key: Key::new(alloc, key)?,
        question: Question::Get,
    })
}

/// What came of a call: its reply is given up.
pub(crate) type Tried = Result<(), Refusal>;

fn outcome_of(answer: Result<Held, Refusal>) -> Tried {
    answer?.give_up();
    Ok(())
}

fn is_absent_at(released: &Released, number: u64) -> bool {
    match released {
        Released::Reply(position, Reply::Now(None)) => position.number() == number,
        _ => false,
    }
}

/// A pass on stripes of which it holds none.
#[derive(Drop)]
pub(crate) struct Caller<'a> {
    stripes: &'a Stripes,
    pass: Pass,
    alloc: Global,
    ghost own: { IsPassOf stripes.now pass },
    ghost empty_handed: { ∥ (recorded pass).holding ≡ None ∥₁ },
}

impl<'a> Caller<'a> {
    /// The stripes' next pass.
    pub(crate) fn new(stripes: &'a Stripes, alloc: Global) -> Result<Caller<'a>, Refusal> {
        let pass = stripes.pass()?;
        Ok(Caller {
            stripes,
            pass,
            alloc,
        })
    }

    pub(crate) fn is_keeper(&self) -> bool {
        self.pass.is_keeper()
    }

    /// What comes of a change of this key, unless its stripe is held.
    pub(crate) fn try_put(&mut self, key: &str) -> Tried {
        let command = put(self.alloc, key, 1)?;
        outcome_of(self.stripes.try_call(&mut self.pass, command))
    }

    /// What comes of a read of this key, unless its stripe is held.
    pub(crate) fn try_get(&mut self, key: &str) -> Tried {
        let read = get(self.alloc, key)?;
        outcome_of(self.stripes.try_read(&mut self.pass, read))
    }

    /// What comes of a change of this key, which may wait.
    pub(crate) fn put<R: Wait>(&mut self, rt: &R, key: &str) -> Tried {
        let command = put(self.alloc, key, 1)?;
        outcome_of(self.stripes.call(rt, &mut self.pass, command))
    }

    /// What comes of a read of this key, which may wait.
    pub(crate) fn get<R: Wait>(&mut self, rt: &R, key: &str) -> Tried {
        let read = get(self.alloc, key)?;
        outcome_of(self.stripes.read(rt, &mut self.pass, read))
    }

    /// The position of a change of this key, unless its stripe is held.
    pub(crate) fn put_if_free(&mut self, key: &str) -> Result<Option<u64>, Refusal> {
        let command = put(self.alloc, key, 1)?;
        match self.stripes.try_call(&mut self.pass, command) {
            Ok(held) => Ok(Some(held.position().number())),
            Err(Refusal::Busy { .. }) => Ok(None),
            Err(refusal) => Err(refusal),
        }
    }

    /// How many tickets are drawn.
    pub(crate) fn look(&mut self) -> u64 {
        self.stripes.look(&mut self.pass)
    }

    /// Whether this position's ticket is drawn.
    pub(crate) fn learn(&mut self, position: Position) -> bool {
        self.stripes.learn(&mut self.pass, position)
    }

    /// Whether a read of this absent key is held at this position, and is released.
    pub(crate) fn reads_at(mut self, key: &str, number: u64) -> Result<bool, Refusal> {
        let read = get(self.alloc, key)?;
        let held = self.stripes.try_read(&mut self.pass, read)?;
        let is_there = held.position().number() == number;
        let released = self.stripes.release(&mut self.pass, held);
        let is_absent = is_absent_at(&released, number);
        drop(released);
        Ok(is_absent && is_there)
    }

    /// Takes a stripe and keeps it as long as the pass that is returned. Nothing if it isn't free.
    pub(crate) fn hold(self, stripe: usize) -> Option<Pass> {
        if stripe >= self.stripes.stripes().get() {
            return None;
        }
        let Caller {
            stripes,
            mut pass,
            ..
        } = self;
        let content = stripes.at(&mut pass).take(stripe)?;
        drop(content);
        Some(pass)
    }

    /// Whether it and the next pass have seen one history: the laws hold of any two.
    pub(crate) fn meets_next(self) -> Result<(), Refusal> {
        let other = self.stripes.pass()?;
        let Caller {
            stripes,
            mut pass,
            ..
        } = self;
        stripes.stands_in_one_history(&mut pass);
        stripes.have_seen_one_history(pass, other);
        Ok(())
    }
}
