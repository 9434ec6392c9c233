//! A worker at its seat, and its clients.

use crate::begun::Begun;
use crate::bells::Bell;
use crate::client::{Client, Fate, Line};
use crate::errands::Errands;
use crate::observer::Observer;
use crate::pool::Pool;
use crate::spares::Spares;
use crate::streams::Stream;
use crate::tally::Tally;
use crate::turns::{Turned, Turns};
use connections::{Calls, Resting};
use crossbeam_channel::{Receiver, TryRecvError};
use disk_model::Disk;
use durable_map::DurableMap;
use mio::{Events, Interest, Poll, Token};
use slab::Slab;
use std::alloc::{AllocError, Global};
use std::collections::VecDeque;
use std::sync::Wait;
use std::sync::atomic::{AtomicUsize, Ordering};
use std::time::{Clock, Duration, Instant};

/// What a worker is handed as it starts.
#[derive(Drop)]
pub struct Seat {
    /// Its place among the workers.
    pub(crate) place: usize,
    pub(crate) poll: Poll,
    /// The connections that it is to serve.
    pub(crate) streams: Receiver<Stream, Global>,
    /// The errands of its clients that count, and of those that reduce and search.
    pub(crate) counts: Errands,
    pub(crate) folds: Errands,
}

/// The most sockets that one wait reports.
const MOST_EVENTS: usize = 1024;

/// The memory that a worker has from before it starts, so that it can't fail to start for want of it.
#[derive(Drop)]
pub(crate) struct Stock {
    pub(crate) spares: Spares,
    /// Room for what a wait reports.
    pub(crate) events: Events<Global>,
}

impl Stock {
    pub(crate) fn new(alloc: Global) -> Result<Stock, AllocError> {
        Ok(Stock {
            spares: Spares::new(alloc)?,
            events: Events::with_capacity(alloc, MOST_EVENTS)?,
        })
    }
}

/// A worker at its seat, with its clients.
#[derive(Drop)]
pub(crate) struct Desk<'a, D: Disk + Drop, R: Clock + Wait, C: Calls<Held = Begun> + Drop> {
    pub(crate) rt: &'a R,
    pub(crate) alloc: Global,
    pub(crate) map: &'a DurableMap<D>,
    pub(crate) seat: Seat,
    pub(crate) bell: &'a Bell,
    /// The bells of all workers.
    pub(crate) bells: &'a [Bell],
    /// How many clients there are at all workers.
    pub(crate) open: &'a AtomicUsize,
    // where it writes how many there are here, if that is of interest
    tally: Option<&'a Tally>,
    pub(crate) turns: Turns<C>,
    pub(crate) clients: Slab<Client>,
    /// The clients that are to have their turn.
    pub(crate) queue: VecDeque<usize>,
    /// No more connections come.
    pub(crate) has_ended: bool,
    /// Each connection that waits is to be looked at.
    pub(crate) must_look: bool,
    /// How often the worker has looked for more changes of the batch that is due.
    pub(crate) looks: u32,
    /// How many of the clients have connections that are being closed.
    pub(crate) closing: usize,
    /// For how long a client may be idle, and when it is to be looked who was, or what is to be closed.
    pub(crate) limit: Option<Duration>,
    pub(crate) next_sweep: Option<Instant>,
}

impl<'a, D: Disk + Drop, R: Clock + Wait, C: Calls<Held = Begun> + Drop> Desk<'a, D, R, C> {
    /// A worker without clients, at a seat of the pool.
    pub(crate) fn new<O: Observer>(
        rt: &'a R,
        pool: &'a Pool<'a, D, O>,
        bell: &'a Bell,
        seat: Seat,
        turns: Turns<C>,
    ) -> Desk<'a, D, R, C> {
        let alloc = pool.alloc;
        let limit = match pool.idle_seconds {
            0 => None,
            seconds => Some(Duration::from_secs(u64::from(seconds))),
        };
        Desk {
            rt,
            alloc,
            map: pool.map,
            tally: pool.observer.tally(seat.place),
            seat,
            bell,
            bells: pool.bells,
            open: pool.open,
            turns,
            clients: Slab::new(alloc),
            queue: VecDeque::new(alloc),
            has_ended: false,
            must_look: false,
            looks: 0,
            closing: 0,
            limit,
            next_sweep: None,
        }
    }

    /// The time, if it is of interest.
    pub(crate) fn now(&self) -> Option<Instant> {
        if self.limit.is_none() && self.closing == 0 {
            return None;
        }
        Instant::now(self.rt).ok()
    }

    // ---- clients that come and go

    /// Takes a connection up. It says whether it could.
    fn welcome(&mut self, stream: Stream, now: Option<Instant>) -> bool {
        let mut socket = stream;
        let token = Token(self.clients.vacant_key());
        let interests = Interest::READABLE | Interest::WRITABLE;
        let registry = self.seat.poll.registry();
        if registry.register(&mut socket, token, interests).is_err() {
            return false;
        }
        let client = Client::new(Line::new(socket, now), Resting::new(self.alloc));
        if self.clients.insert(client).is_err() {
            return false;
        }
        if self.next_sweep.is_none() {
            self.next_sweep = self.deadline(now);
        }
        true
    }

    /// One of the clients that were handed to this worker is gone.
    fn count_out(&self) {
        self.bell.client_left();
        let _ = self.open.fetch_sub(1, Ordering::SeqCst);
    }

    /// Takes up the connections that have come.
    pub(crate) fn welcome_all(&mut self) {
        let now = self.now();
        for _ in self.rt.forever() {
            match self.seat.streams.try_recv(self.rt) {
                Ok(stream) => {
                    if !self.welcome(stream, now) {
                        self.count_out();
                    }
                }
                Err(TryRecvError::Empty) => return,
                Err(TryRecvError::Disconnected) => {
                    self.has_ended = true;
                    return;
                }
            }
        }
    }

    /// Lets go of a client, whose connection is gone.
    pub(crate) fn remove(&mut self, key: usize) {
        let Some(client) = self.clients.try_remove(key) else {
            return;
        };
        if client.closing.is_some() {
            self.closing = self.closing.saturating_sub(1);
        }
        self.count_out();
    }

    /// Lets go of a client that is gone, or does so once its connection is back.
    pub(crate) fn lose(&mut self, key: usize) {
        let Some(client) = self.clients.get_mut(key) else {
            return;
        };
        if client.resting.is_none() && client.closing.is_none() {
            client.fate = Fate::Gone;
            self.must_look = true;
            return;
        }
        self.remove(key);
    }

    /// Ends the connection of a client, or does so once it is back.
    pub(crate) fn end(&mut self, key: usize) {
        let Some(client) = self.clients.get_mut(key) else {
            return;
        };
        match client.resting.take() {
            Some(resting) => self.close(key, resting),
            None => {
                client.fate = Fate::Ends;
                self.must_look = true;
            }
        }
    }

    /// Tells how many clients there are, and how many connections hold calls, if that is of interest.
    pub(crate) fn tell(&self) {
        if let Some(tally) = self.tally {
            let out = usize::from(self.seat.counts.is_out())
                + usize::from(self.seat.folds.is_out());
            let held = self.turns.len().saturating_add(out);
            tally.note_clients(self.clients.len(), held);
        }
    }

    /// Puts a client among those that are to have their turn, if there is something to do and it isn't
    /// there.
    pub(crate) fn queue_up(&mut self, key: usize) {
        let Some(client) = self.clients.get_mut(key) else {
            return;
        };
        if client.is_queued || !client.is_due() {
            return;
        }
        client.is_queued = true;
        if self.queue.push_back(key).is_err() {
            self.lose(key);
        }
    }

    /// Takes back the connection of a client. It is ended if its last reply has.
    pub(crate) fn rest(&mut self, key: usize, resting: Resting<Begun>) {
        if resting.connection().has_ended() {
            self.close(key, resting);
            return;
        }
        let Some(client) = self.clients.get_mut(key) else {
            return;
        };
        client.resting = Some(resting);
        self.queue_up(key);
    }

    /// What is done with a client after a turn of its connection.
    pub(crate) fn follow(&mut self, key: usize, turned: Turned) {
        match turned {
            Turned::Waits => {}
            Turned::Gone => self.remove(key),
            Turned::Ends(resting) => self.close(key, resting),
            Turned::AsksWholeMap(resting) => self.send_errand(key, resting),
            Turned::Rests(resting) => self.rest(key, resting),
        }
    }
}
