//! One thread's calls on shared stripes, made again if another thread holds the stripe.
ghost use Rattle.std.specs.Prelude.{◌≡◌, None};
ghost use Rattle.std.specs.Coded.{Coded-set, coded_option};
ghost use Rattle.ticket_order.specs.contracts.record.Holding.{the_row as row};
ghost use Rattle.stripe_locks.specs.Passes.{recorded, IsPassOf};

use crate::keys::NumberedKey;
use crate::kinds::{Kind, Times};
use crate::sweeps::sweep_all;
use map_types::{Command, Key, Question, Read, Refusal};
use std::alloc::Global;
use std::rt::Clock;
use std::time::{Duration, Instant};
use stripe_locks::{Pass, Stripes};

/// How often a call is made again while its stripe is held.
const MOST_TRIES: u32 = 1_000_000_000;

/// The stripes, and the pass of one thread. Between two of its calls it holds no stripe.
#[derive(Drop)]
pub(crate) struct Caller<'a> {
    alloc: Global,
    stripes: &'a Stripes,
    pass: Pass,
    ghost own: { IsPassOf stripes.now pass },
    ghost idle: { (recorded pass).holding ≡ None } by { Coded-set (coded_option row.coded) _ _ },
}

impl<'a> Caller<'a> {
    /// A caller with a new pass of these stripes.
    pub(crate) fn new(alloc: Global, stripes: &'a Stripes) -> Result<Caller<'a>, Refusal> {
        let pass = stripes.pass()?;
        Ok(Caller {
            alloc,
            stripes,
            pass,
        })
    }

    /// A call of this kind on the key of this text, which has the number.
    fn try_call(&mut self, kind: Kind, text: &str, number: u32) -> Result<(), Refusal> {
        let key = Key::new(self.alloc, text)?;
        let held = match kind.change(number) {
            Some(change) => self
                .stripes
                .try_call(&mut self.pass, Command { key, change }),
            None => self.stripes.try_read(
                &mut self.pass,
                Read {
                    key,
                    question: Question::Get,
                },
            ),
        };
        held?.give_up();
        Ok(())
    }

    /// The same call, made again with a new key for as long as another thread holds its stripe.
    pub(crate) fn call(&mut self, kind: Kind, text: &str, number: u32) -> Result<(), Refusal> {
        for _try in 0..MOST_TRIES {
            let called = self.try_call(kind, text, number);
            if !matches!(called, Err(Refusal::Busy { .. })) {
                return called;
            }
        }
        self.try_call(kind, text, number)
    }

    /// A call of this kind on each of the keys.
    fn call_each(&mut self, kind: Kind, keys: &[NumberedKey]) -> Result<(), Refusal> {
        for key in keys {
            self.call(kind, key.text.as_str(), key.number)?;
        }
        Ok(())
    }

    /// Sweeps every stripe, if the pass is the keeper's.
    fn sweep(&mut self) {
        if self.pass.is_keeper() {
            let mut board = self.stripes.at(&mut self.pass);
            sweep_all(&mut board, self.alloc);
        }
    }

    /// How long a call of this kind on each of the keys takes. The sweep behind them isn't in it.
    pub(crate) fn time<R: Clock>(
        &mut self,
        rt: &R,
        kind: Kind,
        keys: &[NumberedKey],
    ) -> Option<Duration> {
        let start = Instant::now(rt).ok()?;
        self.call_each(kind, keys).ok()?;
        let spent = start.elapsed(rt).ok()?;
        self.sweep();
        Some(spent)
    }

    /// Calls of all kinds, which leave the keys as they were: absent. Adds what they take.
    pub(crate) fn take_turn<R: Clock>(
        &mut self,
        rt: &R,
        keys: &[NumberedKey],
        times: &mut Times,
    ) -> Option<()> {
        for kind in Kind::ALL {
            times.add(kind, self.time(rt, kind, keys)?);
        }
        Some(())
    }
}
