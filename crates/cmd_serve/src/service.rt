//! The loops of a map and the workers that serve it, each on a thread of its own.
ghost use Rattle.std.specs.Prelude.{◌≡◌, IfErr};

use crate::bells::{Bell, ring_next};
use crate::figures::Figures;
use crate::observer::Observer;
use crate::pool::{Arrivals, workers};
use crate::seats::{Furniture, furnish};
use crate::watching::watch_device;
use disk_model::{Disk, FirstError};
use durable_map::{DurableMap, Ends, SealedCheckpoint, checkpoint_loop, flush_loop};
use log::{Log, error};
use map_types::Refusal;
use std::alloc::Global;
use std::net::Net;
use std::sync::Wait;
use std::sync::atomic::{AtomicBool, AtomicUsize, Ordering};
use std::thread;
use std::thread::Threads;
use std::time::Clock;

/// What is to be done about a store that has failed.
const WHAT_TO_DO: &str =
    "each call is refused from now on; remedy the cause, end this process and start it again";

/// A map that is served, and how its loops and its workers are to do that.
#[derive(Drop)]
pub struct Service<'a, D: Disk + Drop> {
    pub alloc: Global,
    pub map: &'a DurableMap<D>,
    /// What tells of the first call of the map's files that failed.
    pub first_error: &'a FirstError,
    /// The length of the log that begins a checkpoint.
    pub checkpoint_bytes: u64,
    /// How many threads serve connections.
    pub workers: usize,
    /// How many connections are served at a time.
    pub connections: usize,
    /// For how many seconds a client may be idle; 0 is for ever.
    pub idle_seconds: u32,
    /// How many connections are served now.
    pub open: &'a AtomicUsize,
}

/// What the threads of the two loops share beside their map.
#[derive(Drop)]
struct Ending<'a, D: Disk + Drop, O: Observer, R> {
    rt: &'a R,
    map: &'a DurableMap<D>,
    observer: &'a O,
    bells: &'a [Bell],
    has_ended: AtomicBool,
    has_told: AtomicBool,
}

impl<D: Disk + Drop, O: Observer, R: Clock + Figures + Log> Ends for Ending<'_, D, O, R> {
    fn has_ended(&self) -> bool {
        self.has_ended.load(Ordering::SeqCst)
    }

    fn turn_ended(&self) {
        ring_next(self.bells, self.map);
    }

    fn checkpoint_sealed(&self, sealed: &SealedCheckpoint) {
        self.observer.checkpoint_sealed(self.rt, sealed);
    }
}

impl<'a, D: Disk + Drop, O: Observer, R> Ending<'a, D, O, R> {
    fn new(
        rt: &'a R,
        map: &'a DurableMap<D>,
        observer: &'a O,
        bells: &'a [Bell],
    ) -> Ending<'a, D, O, R> {
        Ending {
            rt,
            map,
            observer,
            bells,
            has_ended: AtomicBool::new(false),
            has_told: AtomicBool::new(false),
        }
    }

    /// Makes the loops end.
    fn end(&self) {
        self.has_ended.store(true, Ordering::SeqCst);
    }

    /// Wakes the workers that wait for what is durable by now.
    fn ring(&self) {
        for bell in self.bells {
            bell.ring_for(self.map);
        }
    }

    /// Wakes the workers, and writes a record of why a loop ended, if it is the first that says that the
    /// store has failed.
    fn tell<L: Log>(&self, rt: &L, first_error: &FirstError, ended: Result<(), Refusal>) {
        self.ring();
        let Err(refusal) = ended else {
            return;
        };
        if self.has_told.swap(true, Ordering::SeqCst) {
            return;
        }
        match first_error.get() {
            Some(cause) => error!(rt; "the store has failed, {cause}: {WHAT_TO_DO}"),
            None => error!(rt; "the store has failed, {refusal}: {WHAT_TO_DO}"),
        }
    }
}

/// Runs the two loops of the map on threads of their own and serves the connections with workers at these
/// seats, until no more come. One thread more watches the calls of the device. The observer is told of
/// what they do, and watches on another thread, if it is to. If the store fails, one Error record says so.
/// Refused with `NoMemory` if a thread can't be started.
pub(crate) fn serve_seated<
    D: Disk + Drop + Send,
    O: Observer + Sync,
    C: Arrivals,
    R: Clock + Figures + Log + Net + Threads + Wait + Sync,
>(
    rt: &R,
    service: &Service<'_, D>,
    observer: &O,
    furniture: Furniture,
    bells: Vec<Bell>,
    arrivals: &mut C,
) -> Result<(), Refusal>
    ensures { IfErr result (λ refusal. refusal ≡ Refusal.NoMemory) }
{
    let bells = bells.as_slice();
    let ending = &Ending::new(rt, service.map, observer, bells);
    let has_started = thread::scope(thread::scope_env(), rt, |scope| {
        let flusher = scope.spawn(move || {
            let ended = flush_loop(rt, service.map, ending);
            ending.tell(rt, service.first_error, ended);
        });
        let checkpointer = scope.spawn(move || {
            let ended = checkpoint_loop(rt, service.map, service.checkpoint_bytes, ending);
            ending.tell(rt, service.first_error, ended);
        });
        let guard = scope.spawn(move || watch_device(rt, service.first_error, ending));
        let mut has_started = flusher.is_ok() && checkpointer.is_ok() && guard.is_ok();
        if has_started && observer.watches() {
            let watcher = scope.spawn(move || observer.watch(
                rt,
                service.map,
                service.open,
                ending,
            ));
            has_started = watcher.is_ok();
        }
        if has_started {
            has_started = workers(rt, service, observer, furniture, bells, arrivals).is_ok();
        }
        ending.end();
        has_started
    });
    if has_started {
        Ok(())
    } else {
        Err(Refusal::NoMemory)
    }
}

/// Furnishes the seats that the service says, and serves the map with them. Refused with `NoMemory` if
/// not one seat can be had, or a thread can't be started.
pub fn serve_map<
    D: Disk + Drop + Send,
    O: Observer + Sync,
    C: Arrivals,
    R: Clock + Figures + Log + Net + Threads + Wait + Sync,
>(rt: &R, service: &Service<'_, D>, observer: &O, arrivals: &mut C) -> Result<(), Refusal>
    ensures { IfErr result (λ refusal. refusal ≡ Refusal.NoMemory) }
{
    match furnish(rt, service.alloc, service.workers) {
        Ok((furniture, bells)) => {
            serve_seated(rt, service, observer, furniture, bells, arrivals)
        }
        Err(_) => Err(Refusal::NoMemory),
    }
}
