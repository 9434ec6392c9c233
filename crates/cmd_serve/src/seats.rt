//! The seats of the workers, and the doors by which connections come to them.

use crate::bells::Bell;
use crate::desk::{Seat, Stock};
use crate::errands::{Errand, Errands, Office};
use crate::streams::Stream;
use crossbeam_channel::{Sender, bounded};
use log::{Log, warn};
use mio::Poll;
use std::alloc::{AllocError, Global};
use std::net::Net;
use std::sync::Wait;
use std::time::{Clock, Duration};
use std::{io, thread};

/// How many connections wait for a worker at most.
const MOST_WAITING: usize = 64;

/// While others wait, for how many times as long as a reduction or a search took its thread rests. With
/// 16 stripes a key's is held for less than one percent of the time then.
const FOLDS_REST: u32 = 7;

/// How often, and after how many microseconds each, it is looked whether a worker is held up.
const MOST_LOOKS: u32 = 50;

const LOOK_PAUSE: u64 = 100;

/// A worker that was seen to be held up, and the position at which it stood.
#[derive(Clone, Copy)]
struct HeldUp {
    place: usize,
    least: u64,
}

/// Where connections are handed to the workers.
#[derive(Drop)]
pub struct Doors {
    senders: Vec<Sender<Stream, Global>>,
    // the worker whose turn it is
    turn: usize,
    // the last worker that was seen to be held up
    held_up: Option<HeldUp>,
}

/// The place of the first worker that has fewer clients than this share. If none has, it is that of one
/// that has the fewest. If only the free ones are asked for, it is of those that wait for nothing, or the
/// first if none is.
fn least_busy(bells: &[Bell], share: usize, is_free: bool) -> usize {
    let mut found = 0;
    let mut fewest = usize::MAX;
    for (place, bell) in bells.iter().enumerate() {
        let clients = bell.clients();
        if clients >= fewest || (is_free && bell.least() != 0) {
            continue;
        }
        if clients < share {
            return place;
        }
        found = place;
        fewest = clients;
    }
    found
}

/// Whether a worker that stands at this position goes on soon. A device that doesn't answer holds it up, and
/// a new client would wait there too.
fn goes_on_from<R: Clock>(rt: &R, bell: &Bell, least: u64) -> bool {
    for _ in 0..MOST_LOOKS {
        if bell.least() != least {
            return true;
        }
        thread::sleep(rt, Duration::from_micros(LOOK_PAUSE));
    }
    false
}

impl Doors {
    /// Whether this worker was seen to be held up where it stands.
    fn is_held_up(&self, place: usize, least: u64) -> bool {
        match self.held_up {
            Some(held_up) => held_up.place == place && held_up.least == least,
            None => false,
        }
    }

    /// Whether the worker at this place waits for nothing, or goes on with what it waits for. It is watched
    /// once for each position at which it is held up.
    fn goes_on<R: Clock>(&mut self, rt: &R, bells: &[Bell], place: usize) -> bool {
        let Some(bell) = bells.get(place) else {
            return false;
        };
        let least = bell.least();
        if least == 0 {
            return true;
        }
        if self.is_held_up(place, least) {
            return false;
        }
        if goes_on_from(rt, bell, least) {
            return true;
        }
        self.held_up = Some(HeldUp { place, least });
        false
    }

    /// The place of the worker that gets the next client.
    fn next_place<R: Clock>(&mut self, rt: &R, bells: &[Bell], share: usize) -> usize {
        let place = least_busy(bells, share, false);
        if self.goes_on(rt, bells, place) {
            return place;
        }
        least_busy(bells, share, true)
    }

    /// The place of the worker whose turn it is. The turn of the next one comes next.
    fn take_turn(&mut self) -> usize {
        if self.turn >= self.senders.len() {
            self.turn = 0;
        }
        let place = self.turn;
        self.turn = place + 1;
        place
    }

    /// Leaves a connection with the next worker, if it has a place. Else it is handed back.
    fn offer<R: Wait>(&mut self, rt: &R, bells: &[Bell], stream: Stream) -> Result<(), Stream> {
        let place = self.take_turn();
        let (Some(sender), Some(bell)) = (self.senders.get(place), bells.get(place)) else {
            return Err(stream);
        };
        match sender.try_send(rt, stream) {
            Ok(()) => {
                bell.client_came();
                Ok(())
            }
            Err(back) => Err(back.into_inner()),
        }
    }

    /// The same, and it waits until that worker has a place. One that has ended hands it back.
    fn wait_for_place<R: Wait>(
        &mut self,
        rt: &R,
        bells: &[Bell],
        stream: Stream,
    ) -> Result<(), Stream> {
        let place = self.take_turn();
        let (Some(sender), Some(bell)) = (self.senders.get(place), bells.get(place)) else {
            return Err(stream);
        };
        match sender.send(rt, stream) {
            Ok(()) => {
                bell.client_came();
                Ok(())
            }
            Err(back) => Err(back.into_inner()),
        }
    }

    /// Leaves a connection with the first worker from the next one on that has a place.
    fn offer_all<R: Wait>(&mut self, rt: &R, bells: &[Bell], stream: Stream) -> Result<(), Stream> {
        let mut offered = stream;
        for _ in 0..self.senders.len() {
            match self.offer(rt, bells, offered) {
                Ok(()) => return Ok(()),
                Err(back) => offered = back,
            }
        }
        Err(offered)
    }

    /// Hands a connection to the first worker that has fewer clients than this share. If none has, one
    /// that has the fewest gets it. A worker that has no place for it, since it is held up, or that could
    /// not start, is passed over; if none has a place, it waits for one. It says whether some worker took
    /// it.
    pub(crate) fn hand_in<R: Clock + Wait>(
        &mut self,
        rt: &R,
        bells: &[Bell],
        share: usize,
        stream: Stream,
    ) -> bool {
        self.turn = self.next_place(rt, bells, share);
        let mut offered = match self.offer_all(rt, bells, stream) {
            Ok(()) => return true,
            Err(back) => back,
        };
        for _ in 0..self.senders.len() {
            match self.wait_for_place(rt, bells, offered) {
                Ok(()) => return true,
                Err(back) => offered = back,
            }
        }
        false
    }

    /// No more connections come. Each worker is told.
    pub(crate) fn close(self, bells: &[Bell]) {
        drop(self);
        for bell in bells {
            bell.ring();
        }
    }
}

/// What the threads of the workers are handed as they start.
#[derive(Drop)]
pub struct Furniture {
    pub(crate) seats: Vec<(Seat, Stock)>,
    /// The office that counts, and the one that reduces and searches.
    pub(crate) counts: Office,
    pub(crate) folds: Office,
    pub(crate) doors: Doors,
}

/// The way of the errands of one kind from all workers to their office.
type Way = Sender<Errand, Global>;

/// The errands of one more worker to an office.
fn errands_to(alloc: Global, way: &Way, office: &mut Office) -> Result<Errands, AllocError> {
    let (way_back, back) = bounded(alloc, 1)?;
    office.ways_back.push(way_back)?;
    Ok(Errands::new(alloc, way.clone()?, back))
}

/// An office for so many workers, whose thread has this number and rests so, and the way there.
fn office_of(
    alloc: Global,
    count: usize,
    place: usize,
    rest: u32,
) -> Result<(Way, Office), AllocError> {
    let (way, errands) = bounded(alloc, count)?;
    let office = Office {
        place,
        rest,
        errands,
        ways_back: Vec::new(alloc),
    };
    Ok((way, office))
}

impl Furniture {
    /// Adds a seat with what it waits with. The errands of its worker go these ways.
    fn add(
        &mut self,
        alloc: Global,
        poll: Poll,
        counts: &Way,
        folds: &Way,
    ) -> Result<(), AllocError> {
        let (door, streams) = bounded(alloc, MOST_WAITING)?;
        let seat = Seat {
            place: self.seats.len(),
            poll,
            streams,
            counts: errands_to(alloc, counts, &mut self.counts)?,
            folds: errands_to(alloc, folds, &mut self.folds)?,
        };
        self.seats.push((seat, Stock::new(alloc)?))?;
        self.doors.senders.push(door)?;
        Ok(())
    }
}

/// What a worker waits with, and what wakes it.
fn poll_and_bell<R: Net>(rt: &R) -> io::Result<(Poll, Bell)> {
    let poll = Poll::new(rt)?;
    let bell = Bell::new(poll.registry())?;
    Ok((poll, bell))
}

/// Seats for so many workers, with the memory that they need to start, and their bells. If the system
/// refuses what one waits with, there are no more, and the log has a record of it. It fails if not even
/// one can be had.
pub fn furnish<R: Log + Net>(
    rt: &R,
    alloc: Global,
    count: usize,
) -> io::Result<(Furniture, Vec<Bell>)> {
    let (to_counts, counts) = office_of(alloc, count, count, 0)?;
    let (to_folds, folds) = office_of(alloc, count, count.saturating_add(1), FOLDS_REST)?;
    let mut furniture = Furniture {
        seats: Vec::new(alloc),
        counts,
        folds,
        doors: Doors {
            senders: Vec::new(alloc),
            turn: 0,
            held_up: None,
        },
    };
    let mut bells = Vec::new(alloc);
    // Descriptors that the connections need are left free.
    let _reserve = (Poll::new(rt)?, Poll::new(rt)?);
    for made in 0..count {
        match poll_and_bell(rt) {
            Ok((poll, bell)) => {
                furniture.add(alloc, poll, &to_counts, &to_folds)?;
                bells.push(bell)?;
            }
            Err(cause) if made == 0 => return Err(cause),
            Err(cause) => {
                warn!(rt; "no more than {made} workers can be had: {cause}");
                break;
            }
        }
    }
    Ok((furniture, bells))
}
