//! The threads of the workers, and the connections that are handed to them.
ghost use Rattle.std.specs.Prelude.{◌≡◌, IfErr};

use crate::begun::Begun;
use crate::bells::Bell;
use crate::desk::{Desk, Seat, Stock};
use crate::errands::{Office, run_errands};
use crate::observer::Observer;
use crate::seats::{Doors, Furniture};
use crate::service::Service;
use crate::streams::Stream;
use crate::turns::Turns;
use crate::worker::Worker;
use connections::Calls;
use disk_model::Disk;
use durable_map::DurableMap;
use log::{Log, warn};
use map_types::Refusal;
use std::alloc::Global;
use std::collections::VecDeque;
use std::sync::Wait;
use std::sync::atomic::{AtomicUsize, Ordering};
use std::thread;
use std::thread::Threads;
use std::time::Clock;

/// How many clients a worker gets before the next one gets any.
const SHARE: usize = 8;

/// How many places are kept for a Unix socket beside a port, and of how many one each. So its users still
/// reach a server whose other places are taken.
const MOST_KEPT: usize = 4;

const KEPT_OF: usize = 8;

/// How many connections for which there was no place are kept.
const MOST_TURNED_AWAY: usize = 64;

/// Where connections come from.
pub trait Arrivals {
    /// The next connection, or nothing if no more come.
    fn next(&mut self) -> Option<Stream>;

    /// Whether they come at a port and at a Unix socket too. Then some places are kept for the latter.
    fn are_at_both(&self) -> bool {
        false
    }
}

/// What the threads of the workers share.
#[derive(Drop)]
pub(crate) struct Pool<'a, D: Disk + Drop, O: Observer> {
    pub(crate) alloc: Global,
    pub(crate) map: &'a DurableMap<D>,
    pub(crate) observer: &'a O,
    /// How many clients are served, and how many may be.
    pub(crate) open: &'a AtomicUsize,
    most: usize,
    /// For how many seconds a client may be idle; 0 is for ever.
    pub(crate) idle_seconds: u32,
    pub(crate) bells: &'a [Bell],
}

/// What a thread of the pool does.
#[derive(Drop)]
enum Job {
    /// It serves clients.
    Serve(Seat, Stock),
    /// It answers the requests of the whole map.
    Answer(Office),
}

impl Job {
    /// The number of its worker. The last two answer the requests of the whole map.
    fn place(&self) -> usize {
        match self {
            Job::Serve(seat, _) => seat.place,
            Job::Answer(office) => office.place,
        }
    }
}

/// Serves the clients of a seat until no more come.
fn serve_at<'a, D: Disk + Drop, O: Observer, R: Clock + Wait, C: Calls<Held = Begun> + Drop>(
    rt: &'a R,
    pool: &'a Pool<'a, D, O>,
    seat: Seat,
    stock: Stock,
    calls: C,
) {
    let Some(bell) = pool.bells.get(seat.place) else {
        return;
    };
    let Stock { spares, events } = stock;
    let mut events = events;
    let mut desk = Desk::new(rt, pool, bell, seat, Turns::new(pool.alloc, calls, spares));
    desk.serve(&mut events);
}

/// Does a job with these calls.
fn do_job_with<'a, D: Disk + Drop, O: Observer, R: Clock + Wait, C: Calls<Held = Begun> + Drop>(
    rt: &'a R,
    pool: &'a Pool<'a, D, O>,
    job: Job,
    calls: C,
) {
    match job {
        Job::Serve(seat, stock) => serve_at(rt, pool, seat, stock, calls),
        Job::Answer(office) => {
            let mut calls = calls;
            run_errands(rt, pool.alloc, &mut calls, &office, pool.bells);
        }
    }
}

/// A thread of the pool, which does a job with a pass of its own.
fn work<D: Disk + Drop, O: Observer, R: Clock + Wait>(rt: &R, pool: &Pool<'_, D, O>, job: Job) {
    let made = Worker::new(rt, pool.alloc, pool.map, pool.observer, job.place());
    if let Ok(worker) = made {
        do_job_with(rt, pool, job, worker);
    }
}

/// How many clients may be served before this one comes, of whom some may come at a Unix socket alone.
fn most_beside(most: usize, is_at_both: bool, stream: &Stream) -> usize {
    match stream {
        Stream::Port(_) if is_at_both => most.saturating_sub(MOST_KEPT.min(most / KEPT_OF)),
        Stream::Port(_) | Stream::Socket(_) => most,
    }
}

/// Whether one more client may be served beside so many. The log has one record for as long as none may.
fn has_room<D: Disk + Drop, O: Observer, L: Log>(
    rt: &L,
    pool: &Pool<'_, D, O>,
    most: usize,
    has_said: &mut bool,
) -> bool {
    if pool.open.load(Ordering::SeqCst) < most {
        *has_said = false;
        return true;
    }
    if !*has_said {
        warn!(rt; "{most} connections are served, and no more are taken up");
        *has_said = true;
    }
    false
}

/// How many clients a worker gets before the next one gets any. Those of one worker share its batches
/// without a wake. An observer that may hold a request up holds up its worker's other clients with it.
fn share_of<O: Observer>(observer: &O) -> usize {
    if observer.may_hold_up() { 1 } else { SHARE }
}

/// Ends a connection for which there is no place. The last ones are kept, so that their clients find the
/// end: a socket that is closed with unread input resets.
fn turn_away(turned_away: &mut VecDeque<Stream>, stream: Stream) {
    let _ = stream.end_sending();
    if turned_away.len() >= MOST_TURNED_AWAY {
        let _ = turned_away.pop_front();
    }
    let _ = turned_away.push_back(stream);
}

/// Hands each connection to a worker. One above the limit is ended at once.
fn hand_out<D: Disk + Drop, O: Observer, C: Arrivals, R: Clock + Log + Wait>(
    rt: &R,
    pool: &Pool<'_, D, O>,
    doors: &mut Doors,
    arrivals: &mut C,
) {
    let share = share_of(pool.observer);
    let mut has_said = false;
    let mut turned_away = VecDeque::new(pool.alloc);
    for _ in rt.forever() {
        let Some(stream) = arrivals.next() else {
            return;
        };
        let most = most_beside(pool.most, arrivals.are_at_both(), &stream);
        if !has_room(rt, pool, most, &mut has_said) {
            turn_away(&mut turned_away, stream);
            continue;
        }
        turned_away.clear();
        let _ = pool.open.fetch_add(1, Ordering::SeqCst);
        if !doors.hand_in(rt, pool.bells, share, stream) {
            return;
        }
    }
    unreachable!()
}

/// Starts the threads, and hands the connections out. The threads end once the doors are closed.
fn employ<
    D: Disk + Drop + Send,
    O: Observer + Sync,
    C: Arrivals,
    R: Clock + Log + Threads + Wait + Sync,
>(rt: &R, pool: &Pool<'_, D, O>, furniture: Furniture, arrivals: &mut C) -> Result<(), Refusal>
    ensures { IfErr result (λ refusal. refusal ≡ Refusal.NoMemory) }
{
    let Furniture {
        seats,
        counts,
        folds,
        doors,
    } = furniture;
    let mut doors = doors;
    let has_started = thread::scope(thread::scope_env(), rt, |scope| {
        let counting = scope.spawn(move || work(rt, pool, Job::Answer(counts)));
        let folding = scope.spawn(move || work(rt, pool, Job::Answer(folds)));
        let mut has_started = counting.is_ok() && folding.is_ok();
        for (seat, stock) in seats {
            if has_started {
                has_started = scope
                    .spawn(move || work(rt, pool, Job::Serve(seat, stock)))
                    .is_ok();
            }
        }
        if has_started {
            hand_out(rt, pool, &mut doors, arrivals);
        }
        doors.close(pool.bells);
        has_started
    });
    if has_started {
        Ok(())
    } else {
        Err(Refusal::NoMemory)
    }
}

/// Serves the connections with a worker at each seat, and returns once no more come and each that came
/// has ended. Each worker takes one pass as it starts, and serves all its connections with it. Two threads
/// more, each with a pass of its own, answer the requests of the whole map: one counts, and one reduces
/// and searches. A connection ends if its client is idle for as long as the service says, that is, sends
/// no byte and takes none.
/// One that comes while as many are served as the service allows is ended at once. Refused with
/// `NoMemory` if a thread can't be started.
pub fn workers<
    D: Disk + Drop + Send,
    O: Observer + Sync,
    C: Arrivals,
    R: Clock + Log + Threads + Wait + Sync,
>(
    rt: &R,
    service: &Service<'_, D>,
    observer: &O,
    furniture: Furniture,
    bells: &[Bell],
    arrivals: &mut C,
) -> Result<(), Refusal>
    ensures { IfErr result (λ refusal. refusal ≡ Refusal.NoMemory) }
{
    let pool = Pool {
        alloc: service.alloc,
        map: service.map,
        observer,
        open: service.open,
        most: service.connections,
        idle_seconds: service.idle_seconds,
        bells,
    };
    employ(rt, &pool, furniture, arrivals)
}
