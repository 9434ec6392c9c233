//! What a worker lends to the connections that have their turn.
ghost use Rattle.std.specs.Prelude.{◌≡◌};

use crate::begun::Begun;
use crate::client::{Line, Piece};
use crate::closing::Closing;
use connections::{Buffer, Connection, Resting, Row};
use std::alloc::{AllocError, Global};
use std::time::Instant;

/// The most bytes that one read takes.
const PIECE: usize = 65536;

/// The most rows that are kept while no connection has them.
const MOST_ROWS: usize = 256;

/// What came of a read.
#[derive(Clone, Copy)]
pub(crate) enum Received {
    /// What there was is taken.
    Taken,
    /// The client sends no more, or the socket failed.
    End,
    /// No memory was found for the piece.
    NoMemory,
}

/// The rows that no connection has, the buffer of what is written, and the room of what is read.
#[derive(Drop)]
pub(crate) struct Spares {
    alloc: Global,
    rows: Vec<Row<Begun>>,
    buffer: Option<Buffer>,
    room: Vec<u8>,
}

impl Spares {
    pub(crate) fn new(alloc: Global) -> Result<Spares, AllocError> {
        Ok(Spares {
            alloc,
            rows: Vec::with_capacity(alloc, MOST_ROWS)?,
            buffer: None,
            room: vec![in alloc; 0u8; PIECE]?,
        })
    }

    /// Reads a piece of what the client of a connection sends, if there is one.
    pub(crate) fn read(
        &mut self,
        resting: &mut Resting<Begun>,
        line: &mut Line,
        now: Option<Instant>,
    ) -> Received {
        match line.read(&mut self.room, now) {
            Piece::Bytes(len) => match resting.receive(&self.room[..len]) {
                Ok(()) => Received::Taken,
                Err(_) => Received::NoMemory,
            },
            Piece::Nothing => Received::Taken,
            Piece::End => Received::End,
        }
    }

    /// Goes on with a connection that is being closed. It says whether that is to go on.
    pub(crate) fn close(&mut self, closing: &mut Closing, line: &mut Line) -> bool {
        closing.go_on(line, &mut self.room)
    }

    /// Lends a row to a connection. It says whether memory was found for one.
    pub(crate) fn lend_row(&mut self, connection: &mut Connection<Begun>) -> bool
        ensures { connection.new.row.items ≡ connection.old.row.items }
    {
        let lent = match self.rows.pop() {
            Some(row) => Some(row),
            None => Row::new(self.alloc).ok(),
        };
        let Some(row) = lent else {
            return false;
        };
        if let Some(row) = connection.lend_row(row) {
            self.keep_row(row);
        }
        true
    }

    /// Lends the buffer to a connection. With no memory for one, its replies need their own.
    pub(crate) fn lend_buffer(&mut self, connection: &mut Connection<Begun>)
        ensures { connection.new.row.items ≡ connection.old.row.items }
    {
        let lent = match self.buffer.take() {
            Some(buffer) => Some(buffer),
            None => Buffer::new(self.alloc).ok(),
        };
        if let Some(buffer) = lent {
            self.buffer = connection.lend_buffer(buffer);
        }
    }

    /// Keeps a row that no connection has, or lets go of it.
    fn keep_row(&mut self, row: Row<Begun>) {
        if self.rows.len() < MOST_ROWS {
            let _ = self.rows.push(row);
        }
    }

    /// Takes back what a connection was lent and doesn't need any more.
    pub(crate) fn take_back(&mut self, connection: &mut Connection<Begun>)
        ensures { connection.new.row.items ≡ connection.old.row.items }
    {
        if let Some(row) = connection.give_row() {
            self.keep_row(row);
        }
        if let Some(buffer) = connection.give_buffer() {
            self.buffer = Some(buffer);
        }
        connection.trim();
    }
}
