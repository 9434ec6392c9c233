//! Requests of the whole map, which two threads answer for all workers: one counts, and one reduces and
//! searches, which takes longer.

use crate::begun::Begun;
use crate::bells::Bell;
use crate::client::Fate;
use crate::desk::Desk;
use connections::{Calls, Connection, Resting, Row};
use crossbeam_channel::{Receiver, Sender};
use disk_model::Disk;
use std::alloc::Global;
use std::collections::VecDeque;
use std::sync::Wait;
use std::thread;
use std::time::{Clock, Duration, Instant};

/// For how many seconds the thread that reduces and searches rests at most behind an answer.
const LONGEST_REST: u64 = 1;

/// A connection whose next message asks something of the whole map, on its way to the thread that
/// answers it, or back.
#[derive(Drop)]
pub struct Errand {
    /// The place of its worker.
    pub(crate) worker: usize,
    /// The key of its client there.
    pub(crate) key: usize,
    pub(crate) resting: Option<Resting<Begun>>,
    /// On the way back, whether it is over: no memory was found to answer it.
    pub(crate) is_over: bool,
}

/// Where errands come, and where each worker awaits its own back.
#[derive(Drop)]
pub struct Office {
    /// The number of its thread behind those of the workers.
    pub(crate) place: usize,
    /// While others wait, for how many times as long as an answer took its thread rests.
    pub(crate) rest: u32,
    pub(crate) errands: Receiver<Errand, Global>,
    pub(crate) ways_back: Vec<Sender<Errand, Global>>,
}

/// The errands of a worker to an office, of which one is under way at a time.
#[derive(Drop)]
pub(crate) struct Errands {
    there: Sender<Errand, Global>,
    back: Receiver<Errand, Global>,
    is_out: bool,
    // the clients whose requests wait until the errand is back
    waiting: VecDeque<usize>,
}

/// What a request of the whole map asks for.
#[derive(Clone, Copy)]
pub(crate) enum Kind {
    /// A number of entries.
    Count,
    /// A reduction or a search.
    Fold,
}

impl Kind {
    /// What the next message of a connection asks for, which is of the whole map.
    fn of(connection: &Connection<Begun>) -> Kind {
        if connection.asks_count() {
            Kind::Count
        } else {
            Kind::Fold
        }
    }
}

impl Errands {
    pub(crate) fn new(
        alloc: Global,
        there: Sender<Errand, Global>,
        back: Receiver<Errand, Global>,
    ) -> Errands {
        Errands {
            there,
            back,
            is_out: false,
            waiting: VecDeque::new(alloc),
        }
    }

    /// Whether one is under way.
    pub(crate) fn is_out(&self) -> bool {
        self.is_out
    }
}

/// Begins the next message of a connection, and answers it. It says whether the connection is over: no
/// memory was found for its row or for the reply.
fn answer_alone<C: Calls<Held = Begun>>(
    alloc: Global,
    calls: &mut C,
    resting: Resting<Begun>,
) -> (Option<Resting<Begun>>, bool) {
    let Ok(row) = Row::new(alloc) else {
        return (Some(resting), true);
    };
    let mut connection = resting.wake();
    let _ = connection.lend_row(row);
    connection.begin(calls);
    let is_over = !connection.answer(calls, true).is_all();
    if is_over {
        connection.give_up(calls);
    }
    let _ = connection.give_row();
    connection.trim();
    (Resting::of(connection).ok(), is_over)
}

/// Answers an errand.
fn answer_errand<C: Calls<Held = Begun>>(alloc: Global, calls: &mut C, errand: Errand) -> Errand {
    let Errand {
        worker,
        key,
        resting,
        is_over: _,
    } = errand;
    let (resting, is_over) = match resting {
        Some(resting) => answer_alone(alloc, calls, resting),
        None => (None, true),
    };
    Errand {
        worker,
        key,
        resting,
        is_over,
    }
}

/// Rests behind an answer that was begun then, if others wait: it held the stripes one after another, and
/// a crowd of them would hold up each call of a key.
fn rest_behind<R: Clock>(rt: &R, office: &Office, begun: Option<Instant>) {
    if office.rest == 0 || office.errands.is_empty() {
        return;
    }
    if let Some(Ok(spent)) = begun.map(|begun| begun.elapsed(rt)) {
        let longest = Duration::from_secs(LONGEST_REST);
        thread::sleep(rt, spent.saturating_mul(office.rest).min(longest));
    }
}

/// Answers the errands of all workers, one after another, until no more come.
pub(crate) fn run_errands<C: Calls<Held = Begun>, R: Clock + Wait>(
    rt: &R,
    alloc: Global,
    calls: &mut C,
    office: &Office,
    bells: &[Bell],
) {
    for _ in rt.forever() {
        let Ok(errand) = office.errands.recv(rt) else {
            return;
        };
        let begun = Instant::now(rt).ok();
        let worker = errand.worker;
        let done = answer_errand(alloc, calls, errand);
        if let (Some(way), Some(bell)) = (office.ways_back.get(worker), bells.get(worker)) {
            let _ = way.send(rt, done);
            bell.ring();
        }
        rest_behind(rt, office, begun);
    }
    unreachable!()
}

impl<'a, D: Disk + Drop, R: Clock + Wait, C: Calls<Held = Begun> + Drop> Desk<'a, D, R, C> {
    // ---- requests of the whole map

    fn errands(&mut self, kind: Kind) -> &mut Errands {
        match kind {
            Kind::Count => &mut self.seat.counts,
            Kind::Fold => &mut self.seat.folds,
        }
    }

    /// Has a client wait until the errand before is back.
    fn wait_for_errand(&mut self, kind: Kind, key: usize, resting: Resting<Begun>) {
        let Some(client) = self.clients.get_mut(key) else {
            return;
        };
        client.resting = Some(resting);
        client.is_queued = true;
        if self.errands(kind).waiting.push_back(key).is_err() {
            self.end(key);
        }
    }

    /// Sends a connection on an errand, or has it wait until the one before is back.
    pub(crate) fn send_errand(&mut self, key: usize, resting: Resting<Begun>) {
        let kind = Kind::of(resting.connection());
        if self.errands(kind).is_out {
            self.wait_for_errand(kind, key, resting);
            return;
        }
        let errand = Errand {
            worker: self.seat.place,
            key,
            resting: Some(resting),
            is_over: false,
        };
        let rt = self.rt;
        let errands = self.errands(kind);
        match errands.there.send(rt, errand) {
            Ok(()) => errands.is_out = true,
            Err(_) => self.remove(key),
        }
    }

    /// Sends the next connection that waits on its errand.
    fn send_next_errand(&mut self, kind: Kind) {
        for _ in 0..self.errands(kind).waiting.len() {
            let Some(key) = self.errands(kind).waiting.pop_front() else {
                return;
            };
            let Some(client) = self.clients.get_mut(key) else {
                continue;
            };
            client.is_queued = false;
            match client.resting.take() {
                Some(resting) if resting.connection().asks_whole_map() => {
                    self.send_errand(key, resting);
                    return;
                }
                resting => client.resting = resting,
            }
            self.queue_up(key);
        }
    }

    /// Takes up a connection that is back from an errand of this kind, and sends the next one.
    fn welcome_back_of(&mut self, kind: Kind) {
        let rt = self.rt;
        let errands = self.errands(kind);
        let Ok(errand) = errands.back.try_recv(rt) else {
            return;
        };
        errands.is_out = false;
        let Errand {
            worker: _,
            key,
            resting,
            is_over,
        } = errand;
        let Some(client) = self.clients.get_mut(key) else {
            return;
        };
        match (client.fate, resting) {
            (Fate::Stays, Some(resting)) if !is_over => {
                client.resting = Some(resting);
                self.resume(key, self.now());
            }
            (Fate::Gone, _) => self.remove(key),
            (_, left) => self.close_left(key, left),
        }
        self.send_next_errand(kind);
    }

    /// Takes up the connections that are back from their errands, and sends the next ones.
    pub(crate) fn welcome_back(&mut self) {
        self.welcome_back_of(Kind::Count);
        self.welcome_back_of(Kind::Fold);
    }
}
