//! The turns of connections: the calls of a worker, and the connections whose calls wait.
ghost use Rattle.std.specs.Prelude.{[], ◌≡◌};
ghost use Rattle.connections.specs.Owning.{OwnsRow, StillOwns};

use crate::begun::Begun;
use crate::client::Line;
use crate::closing::Closing;
use crate::spares::{Received, Spares};
use connections::{Answered, Calls, Connection, Resting};
use std::alloc::Global;
use std::collections::VecDeque;
use std::marker::Model;
use std::time::Instant;

/// What a turn of a connection came to.
#[derive(Drop)]
pub(crate) enum Turned {
    /// It holds no call.
    Rests(Resting<Begun>),
    /// Its next message asks something of the whole map.
    AsksWholeMap(Resting<Begun>),
    /// Its calls wait.
    Waits,
    /// The server ends it. What is unsent of it is to be written still.
    Ends(Resting<Begun>),
    /// Its client is gone.
    Gone,
}

/// How a connection stands once what need not wait is answered.
#[derive(Clone, Copy)]
enum Exchanged {
    /// It goes on.
    GoesOn,
    /// No memory was found for a reply, and what was gathered before it is written or unsent.
    BreaksOff,
    /// Its client is gone.
    Gone,
}

/// A connection whose calls wait, and the key of its client.
#[derive(Drop)]
struct Waiting {
    key: usize,
    connection: Connection<Begun>,
}

/// The calls of a worker, and the connections whose calls wait, each of which is of these calls.
#[derive(Drop)]
pub(crate) struct Turns<C: Calls<Held = Begun> + Drop> {
    calls: C,
    waiting: VecDeque<Waiting>,
    spares: Spares,
    // the least number that one of them waits for
    first: Option<u64>,
    // one of them has replies that its client doesn't take
    has_unsent: bool,
}

impl<C: Calls<Held = Begun> + Drop> Model for Turns<C> {
    ghost use Rattle.std.specs.Prelude.{map};
    ghost use Rattle.connections.specs.Owning.{OwnsEach};

    ghost Value = { C };

    ghost view = { λ turns. turns.calls };

    ghost invariant = { λ turns.
        OwnsEach C.owns turns.calls (map (λ w. w.connection) turns.waiting.items) };
}

/// Writes what is unsent, as far as the client takes it. It says whether the client is still there.
fn send(connection: &mut Connection<Begun>, line: &mut Line, now: Option<Instant>) -> bool
    ensures { connection.new.row ≡ connection.old.row }
{
    if connection.unsent().is_empty() {
        return true;
    }
    match line.write(connection.unsent(), now) {
        Ok(count) => {
            connection.sent(count);
            true
        }
        Err(_) => false,
    }
}

/// Answers the calls that need not wait, and writes the replies, as far as the client takes them.
fn exchange<C: Calls<Held = Begun>>(
    calls: &mut C,
    connection: &mut Connection<Begun>,
    line: &mut Line,
    now: Option<Instant>,
) -> Exchanged
    requires owned { OwnsRow C.owns calls.old connection.old.row.items }
    ensures owned { OwnsRow C.owns calls.new connection.new.row.items }
    ensures others { StillOwns C.owns calls.old calls.new }
{
    if !send(connection, line, now) {
        return Exchanged::Gone;
    }
    'answers: loop {
        if !connection.unsent().is_empty() || !connection.may_answer(calls) {
            return Exchanged::GoesOn;
        }
        let answered = connection.answer(calls, true);
        let is_late = matches!(answered, Answered::Late(_));
        let is_all = answered.is_all();
        drop(answered);
        if !send(connection, line, now) {
            return Exchanged::Gone;
        }
        if is_late {
            return Exchanged::BreaksOff;
        }
        if is_all {
            return Exchanged::GoesOn;
        }
    }
}

/// Whether a connection has nothing to be written, and its next call must wait.
fn is_to_wait<C: Calls<Held = Begun>>(connection: &Connection<Begun>, calls: &C) -> bool {
    connection.unsent().is_empty() && !connection.may_answer(calls)
}

/// The least number that is awaited once this connection waits too. One whose client takes no replies
/// waits for none.
fn first_with<C: Calls<Held = Begun>>(
    first: Option<u64>,
    connection: &Connection<Begun>,
    calls: &C,
) -> Option<u64> {
    if !connection.unsent().is_empty() {
        return first;
    }
    let number = connection.awaits(calls).unwrap_or(0);
    match first {
        Some(first) if first <= number => Some(first),
        _ => Some(number),
    }
}

impl<C: Calls<Held = Begun> + Drop> Turns<C> {
    /// No connection waits. What connections are lent comes of these spares.
    pub(crate) fn new(alloc: Global, calls: C, spares: Spares) -> Turns<C> {
        Turns {
            calls,
            waiting: VecDeque::new(alloc),
            spares,
            first: None,
            has_unsent: false,
        }
    }

    /// How many connections wait.
    pub(crate) fn len(&self) -> usize {
        self.waiting.len()
    }

    /// The least number that one of them waits for.
    pub(crate) fn first(&self) -> Option<u64> {
        self.first
    }

    /// Whether one of them may have replies that its client doesn't take for now.
    pub(crate) fn has_unsent(&self) -> bool {
        self.has_unsent
    }

    /// Forgets both: each that waits is looked at next.
    pub(crate) fn forget_first(&mut self) {
        self.first = None;
        self.has_unsent = false;
    }

    /// The key of the client whose connection has waited longest.
    pub(crate) fn front(&self) -> Option<usize> {
        match self.waiting.front() {
            Some(waiting) => Some(waiting.key),
            None => None,
        }
    }

    /// Gives up what a connection holds, and returns what is left of it.
    fn give_up(&mut self, connection: Connection<Begun>) -> Option<Resting<Begun>>
        requires { OwnsRow C.owns self.old connection.row.items }
    {
        let mut connection = connection;
        connection.give_up(&mut self.calls);
        self.spares.take_back(&mut connection);
        Resting::of(connection).ok()
    }

    /// Ends a connection.
    fn end(&mut self, connection: Connection<Begun>) -> Turned
        requires { OwnsRow C.owns self.old connection.row.items }
    {
        match self.give_up(connection) {
            Some(resting) => Turned::Ends(resting),
            None => Turned::Gone,
        }
    }

    /// Keeps a connection whose calls wait.
    fn keep(&mut self, key: usize, connection: Connection<Begun>) -> Turned
        requires { OwnsRow C.owns self.old connection.row.items }
    {
        if self.waiting.reserve(1).is_err() {
            return self.end(connection);
        }
        self.first = first_with(self.first, &connection, &self.calls);
        self.has_unsent = self.has_unsent || !connection.unsent().is_empty();
        self.waiting.push_back_reserved(Waiting { key, connection });
        Turned::Waits
    }

    /// Takes back what a connection was lent, and keeps it if its calls wait.
    fn put_down(&mut self, key: usize, connection: Connection<Begun>) -> Turned
        requires { OwnsRow C.owns self.old connection.row.items }
    {
        let mut connection = connection;
        self.spares.take_back(&mut connection);
        match Resting::of(connection) {
            Ok(resting) => Turned::Rests(resting),
            Err(connection) => self.keep(key, connection),
        }
    }

    /// Answers what need not wait, and writes it.
    fn go_on(
        &mut self,
        key: usize,
        connection: Connection<Begun>,
        line: &mut Line,
        now: Option<Instant>,
    ) -> Turned
        requires { OwnsRow C.owns self.old connection.row.items }
    {
        let mut connection = connection;
        self.spares.lend_buffer(&mut connection);
        match exchange(&mut self.calls, &mut connection, line, now) {
            Exchanged::GoesOn => self.put_down(key, connection),
            Exchanged::BreaksOff => self.end(connection),
            Exchanged::Gone => {
                let _ = self.give_up(connection);
                Turned::Gone
            }
        }
    }

    /// Begins what is whole, and goes on.
    fn begin(
        &mut self,
        key: usize,
        resting: Resting<Begun>,
        line: &mut Line,
        now: Option<Instant>,
    ) -> Turned {
        let mut connection = resting.wake();
        if !self.spares.lend_row(&mut connection) {
            return self.end(connection);
        }
        connection.begin(&mut self.calls);
        self.go_on(key, connection, line, now)
    }

    /// Gives a connection its turn: it reads a piece unless a message is in hand, begins what is whole,
    /// answers what need not wait, and writes the replies.
    pub(crate) fn take_turn(
        &mut self,
        key: usize,
        resting: Resting<Begun>,
        line: &mut Line,
        now: Option<Instant>,
    ) -> Turned {
        let mut resting = resting;
        if !resting.connection().has_message() {
            match self.spares.read(&mut resting, line, now) {
                Received::Taken => {}
                Received::End => return Turned::Gone,
                Received::NoMemory => return Turned::Ends(resting),
            }
        }
        if !resting.connection().has_message() {
            resting.trim();
            return Turned::Rests(resting);
        }
        if resting.connection().asks_whole_map() {
            resting.trim();
            return Turned::AsksWholeMap(resting);
        }
        self.begin(key, resting, line, now)
    }

    /// Goes on with a connection whose replies were not all taken.
    pub(crate) fn resume(
        &mut self,
        key: usize,
        resting: Resting<Begun>,
        line: &mut Line,
        now: Option<Instant>,
    ) -> Turned {
        self.go_on(key, resting.wake(), line, now)
    }

    /// Goes on with the connection that has waited longest. What is unsent of it is written first, also if
    /// its next call must still wait.
    pub(crate) fn resume_front(&mut self, line: &mut Line, now: Option<Instant>) -> Turned {
        match self.waiting.pop_front() {
            None => Turned::Waits,
            Some(Waiting { key, connection }) => {
                if line.is_blocked || is_to_wait(&connection, &self.calls) {
                    return self.keep(key, connection);
                }
                self.go_on(key, connection, line, now)
            }
        }
    }

    /// Gives up what the connection holds that has waited longest, and returns what is left of it.
    pub(crate) fn give_up_front(&mut self) -> Option<Resting<Begun>> {
        match self.waiting.pop_front() {
            None => None,
            Some(Waiting { key: _, connection }) => self.give_up(connection),
        }
    }

    /// Goes on with a connection that is being closed. It says whether that is to go on.
    pub(crate) fn close(&mut self, closing: &mut Closing, line: &mut Line) -> bool {
        self.spares.close(closing, line)
    }
}
