//! A worker, which makes the calls of connections over the running store with a pass of its own.
ghost use Rattle.std.specs.Prelude.{◌≡◌, ℕ, false, IfOk, IfErr};
ghost use Rattle.stripe_locks.specs.Holding.{IsHeldAt};
ghost use Rattle.stripe_locks.specs.Plays.{joining};
ghost use Rattle.durable_map.specs.Durable.{Finishes};
ghost use Rattle.durable_map.specs.Maps.{name_of_words, opening_of, stripe_count};
ghost use Rattle.cmd_serve.specs.Serving.{Began, Finished, GaveUp, IsSameWorker, Owns};
ghost use Rattle.cmd_serve.specs.WholeMap.{CompletesBulk};

use crate::begun::Begun;
use crate::bulk::answer_bulk;
use crate::observer::Observer;
use connections::Calls;
use disk_model::Disk;
use durable_map::DurableMap;
use map_types::{Refusal, Reply};
use std::alloc::Global;
use std::marker::Model;
use std::sync::Wait;
use std::time::Clock;
use stripe_locks::{Held, Pass, laws};
use wire_frames::{Bulk, Request};

/// A worker makes the call of each request with its own pass as it begins it, and gives the reply out as
/// it finishes it. For a request of the whole map it then takes a view, of which the reply is.
#[derive(Drop)]
pub struct Worker<'a, D: Disk + Drop, O: Observer, R: Wait> {
    rt: &'a R,
    alloc: Global,
    map: &'a DurableMap<D>,
    observer: &'a O,
    // its number among the workers
    place: usize,
    pass: Pass,
}

impl<'a, D: Disk + Drop, O: Observer, R: Wait> Model for Worker<'a, D, O, R> {
    ghost use Rattle.stripe_locks.specs.Passes.{recorded};
    ghost use Rattle.durable_map.specs.Maps.{IsReady, name_of_words, stripe_count};
    ghost use Rattle.std.specs.Coded.{coded_ℕ, coded_list, coded×, code_by};
    ghost use Rattle.std.specs.Prelude.{refl};
    ghost use Rattle.ticket_order.specs.contracts.record.Record as record_type;
    ghost use Rattle.cmd_serve.specs.Serving.{WorkerState};

    ghost Value = { WorkerState };

    ghost coded = { code_by _
        (coded× coded_ℕ (coded× (coded_list coded_ℕ) record_type.the_row.coded))
        (λ s. (s.stripes, (s.words, s.pass)))
        (λ p. record { stripes = p.0; words = p.1.0; pass = p.1.1 }) (λ _. refl) };

    ghost view = { λ worker. record {
      stripes = stripe_count worker.map.now;
      words = name_of_words worker.map.now;
      pass = recorded worker.pass;
    } };

    ghost invariant = { λ worker. IsReady worker.map.now worker.pass };
}

impl<'a, D: Disk + Drop, O: Observer, R: Wait> Worker<'a, D, O, R> {
    /// The worker with the number `place`, which takes a new pass.
    pub fn new(
        rt: &'a R,
        alloc: Global,
        map: &'a DurableMap<D>,
        observer: &'a O,
        place: usize,
    ) -> Result<Worker<'a, D, O, R>, Refusal>
        // It has the stripes and the shared words of the map, and a new pass that isn't the keeper's.
        ensures stripes { IfOk result (λ worker. worker.stripes ≡ stripe_count map.now) }
        ensures words { IfOk result (λ worker. worker.words ≡ name_of_words map.now) }
        ensures joins { IfOk result (λ worker.
            (found : ℕ) × (worker.pass ≡ joining (opening_of map.now) found)) }
        ensures worker { IfOk result (λ worker. worker.pass.keeper ≡ false) }
        ensures err { IfErr result (λ refusal. refusal ≡ Refusal.SeatsSpent) }
    {
        let pass = map.pass()?;
        Ok(Worker {
            rt,
            alloc,
            map,
            observer,
            place,
            pass,
        })
    }

    /// Makes the call of a change or a read. A request of the whole map is held as it is.
    #[tactic(auto, using(crate::proofs::Owning::held_at))]
    fn begin_as(&mut self, mark: Option<u64>, request: Request) -> Result<Begun, Refusal>
        ensures began { Began self.old request result self.new }
        ensures owned { IfOk result (Owns self.new) }
    {
        match request {
            Request::Change(command) => {
                match self.map.begin_change(self.rt, &mut self.pass, command) {
                    Ok(held) => Ok(Begun::Call(mark, held)),
                    Err(refusal) => Err(refusal),
                }
            }
            Request::Read(read) => match self.map.begin_read(self.rt, &mut self.pass, read) {
                Ok(held) => Ok(Begun::Call(mark, held)),
                Err(refusal) => Err(refusal),
            },
            Request::Bulk(bulk) => Ok(Begun::View(mark, bulk)),
        }
    }

    /// Waits for the position of a call, and gives its reply out.
    fn finish_call(&mut self, held: Held) -> Result<Reply, Refusal>
        requires owned { IsHeldAt self.old.words held }
        ensures same { IsSameWorker self.old self.new }
        ensures finishes { Finishes self.old.pass held result self.new.pass }
    {
        laws::held_at_is_held_of();
        self.map.finish(self.rt, &mut self.pass, held)
    }

    /// Takes a view of the map, and answers by it.
    fn answer_bulk(&mut self, bulk: Bulk) -> Result<Reply, Refusal>
        ensures same { IsSameWorker self.old self.new }
        ensures completes { CompletesBulk self.old.stripes self.old.pass bulk result self.new.pass }
    {
        answer_bulk(self.rt, self.alloc, self.map, &mut self.pass, &bulk)
    }
}

impl<D: Disk + Drop, O: Observer, R: Clock + Wait> Worker<'_, D, O, R> {
    /// Tells the observer of the next request, and gives its mark, if it is to be told of its end.
    fn take_up(&self) -> Option<u64> {
        self.observer.request_begins(self.rt, self.place)
    }

    /// Tells the observer of the end of the request with this mark, if it has one.
    fn put_down(&self, mark: Option<u64>) {
        if let Some(mark) = mark {
            self.observer.request_ended(self.rt, self.place, mark);
        }
    }
}

impl<D: Disk + Drop, O: Observer, R: Clock + Wait> Calls for Worker<'_, D, O, R> {
    type Held = Begun;

    ghost began = { Began };

    ghost finished = { Finished };

    ghost gave_up = { GaveUp };

    ghost owns = { Owns };

    fn begin(&mut self, request: Request) -> Result<Begun, Refusal> {
        let mark = self.take_up();
        match self.begin_as(mark, request) {
            Ok(begun) => Ok(begun),
            Err(refusal) => {
                self.put_down(mark);
                Err(refusal)
            }
        }
    }

    fn may_finish(&self, begun: &Begun) -> bool {
        match begun {
            Begun::Call(_, held) => self.map.may_finish(held),
            Begun::View(..) => false,
        }
    }

    fn awaits(&self, begun: &Begun) -> Option<u64> {
        match begun {
            Begun::Call(_, held) => Some(held.position().number()),
            Begun::View(..) => None,
        }
    }

    fn reply_bytes(&self, begun: &Begun) -> usize {
        match begun {
            Begun::Call(_, held) => held.text_bytes(),
            Begun::View(..) => 0,
        }
    }

    fn finish(&mut self, begun: Begun) -> Result<Reply, Refusal> {
        match begun {
            Begun::Call(mark, held) => {
                let answer = self.finish_call(held);
                self.put_down(mark);
                answer
            }
            Begun::View(mark, bulk) => {
                let answer = self.answer_bulk(bulk);
                self.put_down(mark);
                answer
            }
        }
    }

    fn give_up(&mut self, begun: Begun) {
        match begun {
            Begun::Call(mark, held) => {
                held.give_up();
                self.put_down(mark);
            }
            Begun::View(mark, _bulk) => self.put_down(mark),
        }
    }
}
