//! What a connection is lent and gives back, and what whoever serves many may ask of it.

ghost use Rattle.std.specs.Prelude.{◌≡◌, ◌≢◌, ◌⊎◌, ◌<◌, ◌≤◌, ◌↔◌, [], true, false, IsTrue, IsSome, IfNone, IfSome};
ghost use Rattle.std.specs.VecDeque.{deque_capacity};
ghost use Rattle.wire_frames.specs.Messages.{IsPartial};
ghost use Rattle.wire_frames.specs.Feed.{BeginsBulk, BeginsCount};
ghost use Rattle.connections.specs.declared.exchange.Stage.TheVariants.{Open};
ghost use Rattle.connections.specs.Past.{MayBegin, standing};

use crate::calls::Calls;
use crate::exchange::{Connection, Stage};
use crate::outgoing::Outgoing;
use crate::room::{Buffer, Row};
use crate::row::{MOST_HELD, first_awaits, may_finish_first};
use std::collections::VecDeque;
use std::mem;

impl<H: Drop> Connection<H> {
    /// Takes a row for its calls, unless it has one. It hands back the row that it doesn't need.
    pub fn lend_row(&mut self, row: Row<H>) -> Option<Row<H>>
        ensures same { standing self.new ≡ standing self.old }
        ensures room { self.old.row.items ≡ [] → MOST_HELD ≤ deque_capacity self.new.row }
        ensures kept { IfSome result (λ _. self.new ≡ self.old) }
    {
        if !self.row.is_empty() || self.row.capacity() >= MOST_HELD {
            return Some(row);
        }
        self.row = row.into_places();
        None
    }

    /// Gives its row back, if it has one and none of its calls is held. Without a row it begins
    /// nothing.
    pub fn give_row(&mut self) -> Option<Row<H>>
        ensures same { standing self.new ≡ standing self.old }
        ensures gives { self.old.row.items ≡ [] → MOST_HELD ≤ deque_capacity self.old.row
            → IsSome result }
        ensures given { IfSome result (λ _. self.new.row.items ≡ []) }
        ensures kept { IfNone result (self.new ≡ self.old) }
    {
        if !self.row.is_empty() || self.row.capacity() < MOST_HELD {
            return None;
        }
        let places = mem::replace(&mut self.row, VecDeque::new(self.alloc));
        Some(Row::of(places))
    }
}

impl<H> Connection<H> {
    /// Takes a buffer for its replies, unless some are unsent. It hands back the buffer that it
    /// doesn't need.
    pub fn lend_buffer(&mut self, buffer: Buffer) -> Option<Buffer>
        ensures same { standing self.new ≡ standing self.old }
        ensures row { self.new.row ≡ self.old.row }
    {
        if !self.out.is_empty() || self.out.is_wide() {
            return Some(buffer);
        }
        self.out = buffer.into_outgoing();
        None
    }

    /// Gives its buffer back, if it has one. What is unsent it keeps, in no more room than that
    /// needs; if no memory is found for it, it keeps the buffer.
    pub fn give_buffer(&mut self) -> Option<Buffer>
        ensures same { standing self.new ≡ standing self.old }
        ensures row { self.new.row ≡ self.old.row }
    {
        if !self.out.is_wide() {
            return None;
        }
        let Ok(kept) = self.out.narrow(self.alloc) else {
            return None;
        };
        let mut out = mem::replace(&mut self.out, kept);
        out.clear();
        Some(Buffer::of(out))
    }

    /// Gives back the memory that it doesn't need for what it holds. A row and a buffer that it was
    /// lent stay.
    pub fn trim(&mut self)
        ensures same { standing self.new ≡ standing self.old }
        ensures row { self.new.row ≡ self.old.row }
    {
        self.feeder.trim();
        if self.out.is_empty() && !self.out.is_wide() {
            self.out = Outgoing::new(self.alloc);
        }
    }

    /// Whether `begin` would begin some of its messages, if it has a row.
    pub fn has_message(&self) -> bool
        ensures some { result ≡ true → MayBegin (standing self.now) }
        ensures none { result ≡ false → self.now.stage ≡ Open → self.now.row.items ≡ []
            → (self.now.feeder.ended ≡ true) ⊎ IsPartial self.now.feeder.left }
    {
        matches!(self.stage, Stage::Open) && self.row.is_empty() && self.feeder.has_message()
    }

    /// Whether the next message in hand asks something of the whole map.
    pub fn asks_whole_map(&self) -> bool
        ensures { IsTrue result ↔ BeginsBulk self.now.feeder }
    {
        self.feeder.begins_bulk()
    }

    /// Whether the next message in hand asks for a count.
    pub fn asks_count(&self) -> bool
        ensures { IsTrue result ↔ BeginsCount self.now.feeder }
    {
        self.feeder.begins_count()
    }

    /// Whether the answer of its first call will likely be had without a wait. It is a hint, and no
    /// clause speaks of it.
    pub fn may_answer<C: Calls<Held = H>>(&self, calls: &C) -> bool {
        may_finish_first(calls, &self.row)
    }

    /// The number that its first call waits for, if it is known. It is a hint, and no clause speaks
    /// of it.
    pub fn awaits<C: Calls<Held = H>>(&self, calls: &C) -> Option<u64> {
        first_awaits(calls, &self.row)
    }
}
