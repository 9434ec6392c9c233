//! Connections over the same calls, and what is done with them step by step.
use crate::checks::assert_same;
use crate::numbered::{Begun, Numbered};
use connections::{Buffer, Connection, Resting, Row};
use std::alloc::{AllocError, Global};
use std::mem;
use std::process::Abort;

/// What is done with a connection, and what comes of it.
pub(crate) enum Step {
    /// So many puts are received, of the numbers from the first on.
    Receive(u8, usize),
    /// A count of the whole map is received.
    ReceiveCount,
    /// What fits is begun: so many calls.
    Begin(u64),
    /// The calls up to this one need no wait any more.
    Settle(u64),
    /// What needs no wait is answered: whether no call is held any more.
    Answer(bool),
    /// So many bytes of the replies are sent.
    Send(usize),
    /// All replies are sent.
    SendAll,
    /// Its calls are given up.
    GiveUp,
    /// It's lent a row: whether it takes it.
    LendRow(bool),
    /// Whether it gives its row back.
    GiveRow(bool),
    /// It's lent a buffer: whether it takes it.
    LendBuffer(bool),
    /// Whether it gives its buffer back.
    GiveBuffer(bool),
    /// It gives memory back.
    Trim,
    /// Whether it may rest. It's woken at once.
    Rest(bool),
    /// How it stands then.
    Is(State),
}

/// How a connection stands.
pub(crate) enum State {
    /// Whether no call is held.
    Idle(bool),
    /// Whether a message may be begun.
    Ready(bool),
    /// Whether the next message asks something of the whole map.
    WholeMap(bool),
    /// Whether its first call needs no wait.
    Answerable(bool),
    /// The call that it waits for.
    Waiting(Option<u64>),
    /// The replies to so many puts, of the numbers from the first on, were sent.
    Sent(u8, usize),
    /// These replies from a byte on are unsent.
    Unsent(u8, usize, usize),
    /// These calls were given up, of all connections.
    GivenUp(&'static [u64]),
}

/// A connection, and what was sent of its replies.
#[derive(Drop)]
pub(crate) struct Peer {
    connection: Connection<Begun>,
    pub(crate) sent: Vec<u8>,
}

/// The frame of a put without its last byte.
pub(crate) const PUT: &[u8] = b"\x00\x0D\x10\x00\x01a\x01\x00\x00\x00\x00\x00\x00\x00";

/// The reply to it without its last byte.
const REPLY: &[u8] = b"\x00\x0A\x00\x01\x00\x00\x00\x00\x00\x00\x00";

/// So many frames, whose last bytes are the numbers from the first on.
pub(crate) fn frames(
    alloc: Global,
    front: &[u8],
    first: u8,
    count: usize,
) -> Result<Vec<u8>, AllocError> {
    let mut bytes = Vec::new(alloc);
    let mut last = first;
    for _ in 0..count {
        bytes.extend_from_slice(front)?;
        bytes.push(last)?;
        last = last.wrapping_add(1);
    }
    Ok(bytes)
}

/// Whether these are the replies to so many puts from a byte on.
fn are_replies(
    alloc: Global,
    bytes: &[u8],
    first: u8,
    count: usize,
    start: usize,
) -> Result<bool, AllocError> {
    let replies = frames(alloc, REPLY, first, count)?;
    Ok(replies.get(start..) == Some(bytes))
}

impl Peer {
    pub(crate) fn new(alloc: Global) -> Peer {
        Peer {
            connection: Connection::new(alloc),
            sent: Vec::new(alloc),
        }
    }

    fn receive(&mut self, alloc: Global, first: u8, count: usize) -> Result<(), AllocError> {
        let puts = frames(alloc, PUT, first, count)?;
        self.connection.receive(&puts)
    }

    /// How many calls are begun.
    fn begin(&mut self, calls: &mut Numbered) -> u64 {
        let before = calls.begun;
        self.connection.begin(calls);
        calls.begun.wrapping_sub(before)
    }

    #[tactic(auto, using(crate::proofs::Owned::owns_all))]
    fn is_answered(&mut self, calls: &mut Numbered) -> bool {
        let answered = self.connection.answer(calls, false);
        let is_all = answered.is_all();
        drop(answered);
        is_all
    }

    /// Sends so many bytes, if as many are unsent.
    fn send(&mut self, count: usize) -> Result<bool, AllocError> {
        let Some(bytes) = self.connection.unsent().get(..count) else {
            return Ok(false);
        };
        self.sent.extend_from_slice(bytes)?;
        self.connection.sent(count);
        Ok(true)
    }

    fn send_all(&mut self) -> Result<(), AllocError> {
        self.sent.extend_from_slice(self.connection.unsent())?;
        self.connection.sent_all();
        Ok(())
    }

    /// Gives its calls up.
    #[tactic(auto, using(crate::proofs::Owned::owns_all))]
    fn give_up(&mut self, calls: &mut Numbered) {
        self.connection.give_up(calls);
    }

    fn takes_row(&mut self, alloc: Global) -> Result<bool, AllocError> {
        Ok(self.connection.lend_row(Row::new(alloc)?).is_none())
    }

    fn gives_row(&mut self) -> bool {
        self.connection.give_row().is_some()
    }

    fn takes_buffer(&mut self, alloc: Global) -> Result<bool, AllocError> {
        Ok(self.connection.lend_buffer(Buffer::new(alloc)?).is_none())
    }

    fn gives_buffer(&mut self) -> bool {
        self.connection.give_buffer().is_some()
    }

    /// Receives a piece at rest, if it may rest, and is woken. Whether it may.
    fn rests(&mut self, alloc: Global, piece: &[u8]) -> Result<bool, AllocError> {
        let connection = mem::replace(&mut self.connection, Connection::new(alloc));
        match Resting::of(connection) {
            Ok(mut resting) => {
                let received = resting.receive(piece);
                resting.trim();
                let is_idle = resting.connection().is_idle();
                self.connection = resting.wake();
                received?;
                Ok(is_idle)
            }
            Err(held) => {
                self.connection = held;
                Ok(false)
            }
        }
    }

    /// Takes turns until no whole message is in hand. It has a row only meanwhile.
    fn serve(&mut self, alloc: Global, calls: &mut Numbered) -> Result<(), AllocError> {
        for _ in 0..64u32 {
            if !self.connection.has_message() {
                break;
            }
            let _is_taken = self.takes_row(alloc)?;
            self.connection.begin(calls);
            let _is_all = self.is_answered(calls);
            self.send_all()?;
            let _is_given = self.gives_row();
        }
        Ok(())
    }

    /// Receives a piece at rest, and serves what came of it. Whether it rested, and may rest then.
    pub(crate) fn serve_piece(
        &mut self,
        alloc: Global,
        calls: &mut Numbered,
        piece: &[u8],
    ) -> Result<bool, AllocError> {
        let rested = self.rests(alloc, piece)?;
        self.serve(alloc, calls)?;
        Ok(rested && self.connection.is_idle())
    }

    /// Whether it stands so.
    fn is(&self, alloc: Global, calls: &Numbered, state: &State) -> Result<bool, AllocError> {
        let connection = &self.connection;
        match state {
            State::Idle(is_idle) => Ok(connection.is_idle() == *is_idle),
            State::Ready(is_ready) => Ok(connection.has_message() == *is_ready),
            State::WholeMap(is_whole) => Ok(connection.asks_whole_map() == *is_whole),
            State::Answerable(is_answerable) => Ok(connection.may_answer(calls) == *is_answerable),
            State::Waiting(call) => Ok(connection.awaits(calls) == *call),
            State::Sent(first, count) => are_replies(alloc, &self.sent, *first, *count, 0),
            State::Unsent(first, count, start) => {
                are_replies(alloc, connection.unsent(), *first, *count, *start)
            }
            State::GivenUp(given_up) => Ok(calls.given_up.as_slice() == *given_up),
        }
    }

    /// Whether what is done comes out so.
    fn takes(
        &mut self,
        alloc: Global,
        calls: &mut Numbered,
        step: &Step,
    ) -> Result<bool, AllocError> {
        match step {
            Step::Receive(first, count) => self.receive(alloc, *first, *count)?,
            Step::ReceiveCount => self.connection.receive(b"\x00\x01\x20")?,
            Step::Begin(count) => return Ok(self.begin(calls) == *count),
            Step::Settle(call) => calls.settled = *call,
            Step::Answer(is_all) => return Ok(self.is_answered(calls) == *is_all),
            Step::Send(count) => return self.send(*count),
            Step::SendAll => self.send_all()?,
            Step::GiveUp => self.give_up(calls),
            Step::LendRow(is_taken) => return Ok(self.takes_row(alloc)? == *is_taken),
            Step::GiveRow(is_given) => return Ok(self.gives_row() == *is_given),
            Step::LendBuffer(is_taken) => return Ok(self.takes_buffer(alloc)? == *is_taken),
            Step::GiveBuffer(is_given) => return Ok(self.gives_buffer() == *is_given),
            Step::Trim => self.connection.trim(),
            Step::Rest(may_rest) => return Ok(self.rests(alloc, b"")? == *may_rest),
            Step::Is(state) => return self.is(alloc, calls, state),
        }
        Ok(true)
    }
}

/// Connections over the same calls.
#[derive(Drop)]
struct Peers {
    one: Peer,
    other: Peer,
    third: Peer,
}

/// One of the connections.
pub(crate) enum Who {
    One,
    Other,
    Third,
}

impl Peers {
    fn takes(
        &mut self,
        alloc: Global,
        calls: &mut Numbered,
        who: &Who,
        step: &Step,
    ) -> Result<bool, AllocError> {
        match who {
            Who::One => self.one.takes(alloc, calls, step),
            Who::Other => self.other.takes(alloc, calls, step),
            Who::Third => self.third.takes(alloc, calls, step),
        }
    }
}

/// The number of the first step that comes out otherwise, if any.
fn first_wrong(
    alloc: Global,
    peers: &mut Peers,
    calls: &mut Numbered,
    steps: &[(Who, Step)],
) -> Result<Option<usize>, AllocError> {
    for number in 0..steps.len() {
        let (who, step) = &steps[number];
        if !peers.takes(alloc, calls, who, step)? {
            return Ok(Some(number));
        }
    }
    Ok(None)
}

/// The same of new connections.
fn wrong_step(alloc: Global, steps: &[(Who, Step)]) -> Result<Option<usize>, AllocError> {
    let mut calls = Numbered::new(alloc);
    let mut peers = Peers {
        one: Peer::new(alloc),
        other: Peer::new(alloc),
        third: Peer::new(alloc),
    };
    let wrong = first_wrong(alloc, &mut peers, &mut calls, steps);
    drop(peers);
    drop(calls);
    wrong
}

/// Ends the test if a step of new connections comes out otherwise, and prints its number.
pub(crate) fn assert_steps<R: Abort>(rt: &R, alloc: Global, steps: &[(Who, Step)]) {
    assert_same(rt, &wrong_step(alloc, steps), &Ok(None));
}
