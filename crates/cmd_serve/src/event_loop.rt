//! The rounds of a worker, which serves many clients at once.

use crate::begun::Begun;
use crate::bells::{Chime, WAKE, ring_next};
use crate::client::Fate;
use crate::desk::Desk;
use connections::Calls;
use disk_model::Disk;
use mio::event::Event;
use mio::{Events, Token};
use std::alloc::Global;
use std::mem;
use std::sync::Wait;
use std::time::{Clock, Duration, Instant};
use ticket_order::Position;

/// How often a worker looks at most whether clients come whose changes share the next batch. That takes
/// about a tenth of a millisecond.
const MOST_LOOKS: u32 = 100;

/// For how many milliseconds a worker sleeps at most that has calls to be answered.
const LONGEST_SLEEP: u64 = 100;

impl<'a, D: Disk + Drop, R: Clock + Wait, C: Calls<Held = Begun> + Drop> Desk<'a, D, R, C> {
    // ---- turns

    /// Gives a client its turn.
    fn take_turn(&mut self, key: usize, now: Option<Instant>) {
        let Some(client) = self.clients.get_mut(key) else {
            return;
        };
        client.is_queued = false;
        if !client.is_due() {
            return;
        }
        let Some(resting) = client.resting.take() else {
            return;
        };
        let turned = self.turns.take_turn(key, resting, &mut client.line, now);
        self.follow(key, turned);
    }

    /// Goes on with a client whose connection rests, with replies that were not taken.
    pub(crate) fn resume(&mut self, key: usize, now: Option<Instant>) {
        let Some(client) = self.clients.get_mut(key) else {
            return;
        };
        let Some(resting) = client.resting.take() else {
            return;
        };
        let turned = self.turns.resume(key, resting, &mut client.line, now);
        self.follow(key, turned);
    }

    /// Begins the calls of each client that is due. What need not wait is answered.
    fn begin_all(&mut self) {
        let now = self.now();
        for _ in 0..self.queue.len() {
            if let Some(key) = self.queue.pop_front() {
                self.take_turn(key, now);
            }
        }
    }

    /// Goes on with the connection that has waited longest.
    fn resume_front(&mut self, now: Option<Instant>) {
        let Some(key) = self.turns.front() else {
            return;
        };
        let Some(client) = self.clients.get_mut(key) else {
            let _ = self.turns.give_up_front();
            return;
        };
        match client.fate {
            Fate::Stays => {
                let turned = self.turns.resume_front(&mut client.line, now);
                self.follow(key, turned);
            }
            Fate::Ends => {
                let left = self.turns.give_up_front();
                self.close_left(key, left);
            }
            Fate::Gone => {
                let _ = self.turns.give_up_front();
                self.remove(key);
            }
        }
    }

    /// Whether some connection that waits may be answered.
    fn may_answer(&self) -> bool {
        match self.turns.first() {
            Some(first) => self.map.may_finish_at(Position::new(first)),
            None => false,
        }
    }

    /// Answers what waits no longer, in the order in which it began to wait.
    fn answer_all(&mut self) {
        if !self.must_look && !self.may_answer() {
            return;
        }
        self.must_look = false;
        self.turns.forget_first();
        let now = self.now();
        for _ in 0..self.turns.len() {
            self.resume_front(now);
        }
    }

    // ---- rounds

    /// What was seen at the socket of a client. One that was reset is gone. One that was closed may have
    /// sent something before: of a Unix socket the system says then that it is closed both ways.
    fn note(&mut self, key: usize, event: &Event, now: Option<Instant>) {
        if event.is_error() {
            self.lose(key);
            return;
        }
        let Some(client) = self.clients.get_mut(key) else {
            return;
        };
        if event.is_readable() || event.is_read_closed() {
            client.line.may_read = true;
        }
        if event.is_read_closed() {
            client.line.has_closed = true;
        }
        let was_blocked = client.line.is_blocked;
        if event.is_writable() {
            client.line.is_blocked = false;
        }
        if client.closing.is_some() {
            self.go_on_closing(key);
            return;
        }
        if event.is_writable() && was_blocked {
            if client.resting.is_some() {
                self.resume(key, now);
                return;
            }
            self.must_look = true;
        }
        self.queue_up(key);
    }

    /// For how long the worker may sleep at most. It is woken once what it awaits is durable.
    fn longest_sleep(&self) -> Option<Duration> {
        if self.must_look || self.looks > 0 || !self.queue.is_empty() {
            return Some(Duration::from_secs(0));
        }
        if let Some(first) = self.turns.first() {
            self.bell.listen(first);
            if self.may_answer() {
                return Some(Duration::from_secs(0));
            }
            return Some(Duration::from_millis(LONGEST_SLEEP));
        }
        match (self.next_sweep, self.now()) {
            (Some(next), Some(now)) => Some(next.saturating_duration_since(now)),
            (Some(_), None) => Some(Duration::from_secs(1)),
            (None, _) => None,
        }
    }

    /// Waits until a socket is ready, or until it is rung, and notes what was seen.
    fn wait(&mut self, events: &mut Events<Global>) {
        let timeout = self.longest_sleep();
        let has_looked = self.seat.poll.poll(events, timeout).is_ok();
        self.bell.rest();
        if !has_looked {
            return;
        }
        let now = self.now();
        for event in events.iter() {
            let token = event.token();
            if token == WAKE {
                ring_next(self.bells, self.map);
                self.welcome_all();
                self.welcome_back();
            } else {
                let Token(key) = token;
                self.note(key, event, now);
            }
        }
    }

    /// Whether each client waits for what is to be committed, so that nothing else can be done. One that
    /// is to take replies first, or whose connection is being closed, may do so at any time.
    fn must_wait(&self) -> bool {
        !self.must_look
            && self.queue.is_empty()
            && !self.turns.has_unsent()
            && self.turns.len() == self.clients.len()
    }

    /// Makes the turns of the log until what is awaited first is durable. It says whether there was
    /// nothing in the way.
    fn lead(&mut self, first: u64) -> bool {
        let chime = Chime {
            map: self.map,
            bells: self.bells,
        };
        if matches!(self.map.try_flush(Position::new(first), &chime), Ok(false)) {
            return false;
        }
        self.answer_all();
        true
    }

    /// Has what is awaited committed: by itself if each client waits, else by the thread of the log. If
    /// clients are expected whose changes share the batch, it looks for them first.
    fn commit(&mut self) {
        let looks = mem::take(&mut self.looks);
        self.bell.note_least(self.turns.first());
        let Some(first) = self.turns.first() else {
            return;
        };
        if self.may_answer() {
            return;
        }
        if self.must_wait() {
            if self.lead(first) {
                return;
            }
        } else if looks < MOST_LOOKS && self.map.expects_more() {
            self.looks = looks + 1;
            return;
        }
        self.map.wake_log();
    }

    /// Whether no more connections come and each that came has ended.
    fn is_done(&self) -> bool {
        self.has_ended && self.clients.is_empty()
    }

    /// Serves clients until no more come and each that came is gone. What befalls one ends that one
    /// alone.
    pub(crate) fn serve(&mut self, events: &mut Events<Global>) {
        for _ in self.rt.forever() {
            if self.is_done() {
                return;
            }
            self.wait(events);
            self.begin_all();
            self.answer_all();
            self.tell();
            self.commit();
            self.sweep();
            self.tell();
        }
        unreachable!()
    }
}
