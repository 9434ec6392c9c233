//! A connection as data: bytes are handed in, calls are begun and answered, replies are handed out.

ghost use Rattle.std.specs.Prelude.{◌≡◌, ◌≢◌, ◌≤◌, ◌<◌, ◌++◌, [], true, false, length, take, drop, map, OnOk, OnErr};
ghost use Rattle.std.specs.VecDeque.{deque_len, deque_capacity};
ghost use Rattle.wire_frames.specs.Messages.{IsPartial};
ghost use Rattle.wire_frames.specs.Held.{fed};
ghost use Rattle.wire_frames.specs.Replies.{reply_frame};
ghost use Rattle.connections.specs.Moves.{GivesUp, Leads};
ghost use Rattle.connections.specs.Owning.{OwnsRow, StillOwns};
ghost use Rattle.connections.specs.Past.{Past, Standing, IsPast, Grew, IsAnswered, MayBegin, closed, fresh, no_past, standing, with_late, late_of};
ghost use Rattle.connections.specs.Progress.{work};

use crate::calls::Calls;
use crate::outgoing::{MOST_LEFT, Outgoing, ROOM};
use crate::row::{MOST_HELD, Place, answer_of, begin_row, ends, give_up_row, may_finish_first};
use map_types::{Refusal, Reply};
use std::alloc::{AllocError, Global};
use std::collections::VecDeque;
use wire_frames::Feeder;

/// How a connection stands.
#[derive(Clone, Copy, Drop)]
pub enum Stage {
    /// It goes on.
    Open,
    /// A reply of status 86 or 89 was its last.
    Ended,
    /// What was held of it was given up.
    GivenUp,
}

impl Stage {
    /// How it stands once what is held is given up.
    fn closed(self) -> Stage
        ensures { result ≡ closed self }
    {
        match self {
            Stage::Ended => Stage::Ended,
            Stage::Open | Stage::GivenUp => Stage::GivenUp,
        }
    }
}

/// How far the calls of a connection were answered.
#[derive(Drop)]
pub enum Answered {
    /// None is held any more.
    All,
    /// What is unsent is to be written, or the next call may wait.
    Paused,
    /// No memory was found for this reply: it is to be written behind what is unsent.
    Late(Result<Reply, Refusal>),
}

impl Answered {
    /// Whether none of the calls is held any more.
    pub fn is_all(&self) -> bool
        ensures all { result ≡ true → self.now ≡ Answered.All }
        ensures not { result ≡ false → self.now ≢ Answered.All }
    {
        matches!(self, Answered::All)
    }
}

/// One connection: what was received of it, what is held of its calls, and its replies.
///
/// Whoever serves it may serve others with the same calls between any two of its methods.
#[derive(Drop)]
pub struct Connection<H> {
    pub(crate) alloc: Global,
    pub(crate) feeder: Feeder,
    pub(crate) row: VecDeque<Place<H>>,
    pub(crate) out: Outgoing,
    pub(crate) stage: Stage,
}

impl<H> Connection<H> {
    /// A connection that has no memory yet.
    pub fn new(alloc: Global) -> Connection<H>
        ensures fresh { standing result ≡ fresh }
        ensures past { IsPast no_past (standing result) }
    {
        Connection {
            alloc,
            feeder: Feeder::new(alloc),
            row: VecDeque::new(alloc),
            out: Outgoing::new(alloc),
            stage: Stage::Open,
        }
    }

    /// Gets the room that its calls and replies need.
    pub fn make_room(&mut self) -> Result<(), AllocError>
        ensures same { standing self.new ≡ standing self.old }
        ensures room { OnOk result (MOST_HELD ≤ deque_capacity self.new.row) }
    {
        self.row.reserve(MOST_HELD)?;
        self.out.reserve(ROOM)
    }

    /// Takes bytes that were read. If no memory is found for them, nothing changes.
    pub fn receive(&mut self, piece: &[u8]) -> Result<(), AllocError>
        ensures past { OnOk result ((past : Past H) → IsPast past (standing self.old)
            → IsPast (record past { received = past.received ++ piece.now }) (standing self.new)) }
        ensures ok { OnOk result (self.new ≡ record self.old {
          feeder = fed self.old.feeder piece.now;
        }) }
        ensures err { OnErr result (self.new ≡ self.old) }
    {
        self.feeder.feed(piece)
    }

    /// Whether none of its calls is held.
    pub fn is_idle(&self) -> bool
        ensures idle { result ≡ true → self.now.row.items ≡ [] }
        ensures busy { result ≡ false → self.now.row.items ≢ [] }
    {
        self.row.is_empty()
    }

    /// Whether a reply has ended it.
    pub fn has_ended(&self) -> bool
        ensures ended { result ≡ true → self.now.stage ≡ Stage.Ended }
        ensures not { result ≡ false → self.now.stage ≢ Stage.Ended }
    {
        matches!(self.stage, Stage::Ended)
    }

    /// Whether its next messages may take their places.
    fn is_ready(&self) -> bool
        ensures ready { result ≡ true → (self.now.stage ≡ Stage.Open)
            × (self.now.row.items ≡ []) × (MOST_HELD ≤ deque_capacity self.now.row) }
        ensures not { result ≡ false → self.now.stage ≡ Stage.Open
            → self.now.row.items ≡ [] → MOST_HELD ≤ deque_capacity self.now.row → ⊥ }
    {
        matches!(self.stage, Stage::Open) && self.row.is_empty() && self.row.capacity() >= MOST_HELD
    }

    /// Begins the whole messages in hand, at most 64, and none behind a bad frame, nor once the replies
    /// have many bytes, as the calls tell. A request of the whole map is begun alone. Nothing is begun
    /// while a call is held, without room, or if the connection has ended or was given up.
    pub fn begin<C: Calls<Held = H>>(&mut self, calls: &mut C)
        // The messages take their places in order, whatever came of the connection before.
        ensures grew { Grew C.began C.finished C.gave_up calls.old calls.new
            (standing self.old) (standing self.new) }

        // Of an open connection that has room some message is begun, if a whole one is in hand.
        ensures begins { MayBegin (standing self.old) → MOST_HELD ≤ deque_capacity self.old.row
            → self.new.row.items ≢ [] }
        ensures partial { self.old.stage ≡ Stage.Open → self.old.row.items ≡ []
            → MOST_HELD ≤ deque_capacity self.old.row → self.new.row.items ≡ []
            → self.old.feeder.ended ≡ false → IsPartial self.new.feeder.left }
        ensures fewer { self.old.row.items ≡ [] → self.new.row.items ≢ []
            → work self.new.feeder < work self.old.feeder }

        // While a call is held, or without room, nothing is done.
        ensures one_turn { self.old.row.items ≢ []
            → (self.new ≡ self.old) × (calls.new ≡ calls.old) }
        ensures no_room { deque_capacity self.old.row < MOST_HELD
            → (self.new ≡ self.old) × (calls.new ≡ calls.old) }

        // Nothing is answered, and it needs no memory.
        ensures unsent { self.new.out ≡ self.old.out }
        ensures stage { self.new.stage ≡ self.old.stage }
        ensures capacity { deque_capacity self.new.row ≡ deque_capacity self.old.row }

        // What is held of the new calls is owned, and what was owned still is.
        ensures owned { OwnsRow C.owns calls.old self.old.row.items
            → OwnsRow C.owns calls.new self.new.row.items }
        ensures others { StillOwns C.owns calls.old calls.new }
    {
        if self.is_ready() {
            begin_row(&mut self.feeder, calls, &mut self.row);
        }
    }

    /// Whether the next call is left for later: its reply has no room beside what is unsent, or it
    /// may wait.
    fn is_to_pause<C: Calls<Held = H>>(&self, calls: &C, may_wait: bool) -> bool
        ensures goes_on { may_wait ≡ true → self.now.out ≡ [] → result ≡ false }
        ensures room { result ≡ false → length self.now.out ≤ MOST_LEFT }
    {
        if may_wait && self.out.is_empty() {
            return false;
        }
        self.out.len() > MOST_LEFT || !may_finish_first(calls, &self.row)
    }

    /// Gathers a reply. It returns one that no memory was found for.
    fn gather(&mut self, answer: Result<Reply, Refusal>) -> Option<Result<Reply, Refusal>>
        ensures made { (with_late (standing self.new) result)
            ≡ record (standing self.old) { unsent = self.old.out ++ reply_frame answer } }
        ensures same { self.new ≡ record self.old { out = self.new.out } }
    {
        if self.out.gather(&answer) {
            return None;
        }
        Some(answer)
    }

    /// Answers the first call, and gives up the others if its reply ends the connection. It returns
    /// a reply that no memory was found for.
    fn answer_first<C: Calls<Held = H>>(&mut self, calls: &mut C) -> Option<Result<Reply, Refusal>>
        requires busy { self.old.row.items ≢ [] }
        requires owned { OwnsRow C.owns calls.old self.old.row.items }
        ensures grew { Grew C.began C.finished C.gave_up calls.old calls.new
            (standing self.old) (with_late (standing self.new) result) }
        ensures fewer { deque_len self.new.row < deque_len self.old.row }
        ensures feeder { self.new.feeder ≡ self.old.feeder }
        ensures stage { self.old.stage ≢ Stage.GivenUp → self.new.stage ≢ Stage.GivenUp }
        ensures capacity { deque_capacity self.new.row ≡ deque_capacity self.old.row }
        ensures owned { OwnsRow C.owns calls.new self.new.row.items }
        ensures others { StillOwns C.owns calls.old calls.new }
    {
        let Some(place) = self.row.pop_front() else {
            return None;
        };
        let answer = answer_of(calls, place);
        if ends(&answer) {
            give_up_row(calls, &mut self.row);
            self.stage = Stage::Ended;
        }
        self.gather(answer)
    }

    /// Answers the calls from the first on, as far as they can be without a wait and their replies
    /// have room. If `may_wait` says so, a call that may wait is answered too, once nothing is
    /// unsent. Behind a reply that ends the connection what is held is given up.
    pub fn answer<C: Calls<Held = H>>(&mut self, calls: &mut C, may_wait: bool) -> Answered
        // What is held is of these calls.
        requires owned { OwnsRow C.owns calls.old self.old.row.items }

        // The first calls are answered, and their replies are to be written in order.
        ensures grew { Grew C.began C.finished C.gave_up calls.old calls.new
            (standing self.old) (with_late (standing self.new) (late_of result)) }

        // It says so if nothing is held, and goes on if it may wait and nothing is unsent.
        ensures all { result ≡ Answered.All → self.new.row.items ≡ [] }
        ensures fewer { may_wait ≡ true → self.old.out ≡ [] → (result ≢ Answered.All)
            → deque_len self.new.row < deque_len self.old.row }

        // Nothing is received, begun or given up of a connection that goes on.
        ensures feeder { self.new.feeder ≡ self.old.feeder }
        ensures stage { self.old.stage ≢ Stage.GivenUp → self.new.stage ≢ Stage.GivenUp }
        ensures capacity { deque_capacity self.new.row ≡ deque_capacity self.old.row }

        // What is left is owned, and what was owned of other connections still is.
        ensures owned { OwnsRow C.owns calls.new self.new.row.items }
        ensures others { StillOwns C.owns calls.old calls.new }
    {
        'answers: while !self.row.is_empty() {
            if self.is_to_pause(calls, may_wait) {
                return Answered::Paused;
            }
            match self.answer_first(calls) {
                None => {}
                Some(answer) => return Answered::Late(answer),
            }
        }
        Answered::All
    }

    /// Gives up what is held, in order. Nothing is begun any more.
    pub fn give_up<C: Calls<Held = H>>(&mut self, calls: &mut C)
        // What is held is of these calls.
        requires owned { OwnsRow C.owns calls.old self.old.row.items }

        // Each held call is given up once, in order, and nothing else is done.
        ensures given { Leads C.began C.finished C.gave_up
            calls.old (map GivesUp self.old.row.items) calls.new }
        ensures grew { Grew C.began C.finished C.gave_up calls.old calls.new
            (standing self.old) (standing self.new) }

        // Nothing is held, and nothing is begun any more.
        ensures left { standing self.new ≡ record (standing self.old) {
          places = [];
          stage = closed self.old.stage;
        } }

        // What was owned of other connections still is.
        ensures others { StillOwns C.owns calls.old calls.new }
    {
        give_up_row(calls, &mut self.row);
        self.stage = self.stage.closed();
    }

    /// The replies that aren't written yet.
    pub fn unsent(&self) -> &[u8]
        ensures { result.now ≡ self.now.out }
    {
        self.out.bytes()
    }

    /// Takes note that the first of the unsent bytes were written.
    pub fn sent(&mut self, count: usize)
        requires { count ≤ length self.old.out }
        ensures past { (past : Past H) → IsPast past (standing self.old)
            → IsPast (record past { written = past.written ++ take count self.old.out })
            (standing self.new) }
        ensures same { self.new ≡ record self.old { out = drop count self.old.out } }
    {
        self.out.sent(count);
    }

    /// Takes note that all unsent bytes were written.
    pub fn sent_all(&mut self)
        ensures { self.new ≡ record self.old { out = [] } }
    {
        self.out.clear();
    }
}

/// A connection that holds nothing, and that was not given up, has the whole dialogue of its
/// messages written or unsent.
pub fn past_is_a_dialogue<H>()
    ensures { (past : Past H) (left : Standing H) → IsPast past left → IsAnswered past left }
{}
