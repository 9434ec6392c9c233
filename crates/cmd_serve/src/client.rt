//! The clients of a worker: their sockets, and their connections while these rest.
ghost use Rattle.std.specs.Prelude.{◌≤◌, length, IfOk};
ghost use Rattle.cmd_serve.specs.Reading.{Fits};

use crate::begun::Begun;
use crate::closing::Closing;
use crate::streams::Stream;
use connections::Resting;
use std::io;
use std::io::{ErrorKind, Read, Write};
use std::time::Instant;

/// What a read gave.
#[derive(Clone, Copy)]
pub(crate) enum Piece {
    /// So many bytes.
    Bytes(usize),
    /// None for now.
    Nothing,
    /// The client sends no more, or the socket failed.
    End,
}

/// The socket of a client, and what is known of it.
#[derive(Drop)]
pub(crate) struct Line {
    pub(crate) socket: Stream,
    /// When the client last sent or took a byte, or when it came, if that is of interest.
    pub(crate) since: Option<Instant>,
    /// There may be bytes to be read.
    pub(crate) may_read: bool,
    /// The client sends no more than what has come.
    pub(crate) has_closed: bool,
    /// The client takes no bytes for now.
    pub(crate) is_blocked: bool,
    /// It took none when its time was up and it was tried again.
    pub(crate) was_tried: bool,
}

impl Line {
    pub(crate) fn new(socket: Stream, since: Option<Instant>) -> Line {
        Line {
            socket,
            since,
            may_read: false,
            has_closed: false,
            is_blocked: false,
            was_tried: false,
        }
    }

    /// Reads a piece, if there is one. A piece that doesn't fill the room is the last for now, unless
    /// the client sends no more: then the end stands behind it.
    pub(crate) fn read(&mut self, room: &mut [u8], now: Option<Instant>) -> Piece
        ensures { Fits result (length room.new) }
    {
        match self.socket.read(room) {
            Ok(0) => Piece::End,
            Ok(len) => {
                self.since = now;
                self.may_read = self.has_closed || len == room.len();
                Piece::Bytes(len)
            }
            Err(error) if error.kind() == ErrorKind::Interrupted => Piece::Nothing,
            Err(error) if error.kind() == ErrorKind::WouldBlock => {
                self.may_read = false;
                Piece::Nothing
            }
            Err(_) => Piece::End,
        }
    }

    /// Writes what the socket takes, and returns how many bytes that were.
    pub(crate) fn write(&mut self, bytes: &[u8], now: Option<Instant>) -> io::Result<usize>
        ensures { IfOk result (λ written. written ≤ length bytes.now) }
    {
        let mut written = 0;
        for _ in 0..u64::MAX {
            if written == bytes.len() {
                break;
            }
            match self.socket.write(&bytes[written..]) {
                Ok(0) => return Err(io::Error::from(ErrorKind::WriteZero)),
                Ok(len) => {
                    written += len;
                    self.since = now;
                    self.was_tried = false;
                }
                Err(error) if error.kind() == ErrorKind::Interrupted => {}
                Err(error) if error.kind() == ErrorKind::WouldBlock => {
                    self.is_blocked = true;
                    break;
                }
                Err(error) => return Err(error),
            }
        }
        Ok(written)
    }
}

impl Line {
    /// Ends the sending side.
    pub(crate) fn end_sending(&self) -> io::Result<()> {
        self.socket.end_sending()
    }
}

/// What is to become of a client once its connection, whose calls wait or are answered elsewhere, is back.
#[derive(Clone, Copy)]
pub(crate) enum Fate {
    /// It is served.
    Stays,
    /// The server ends its connection.
    Ends,
    /// It is gone, and is let go of.
    Gone,
}

/// A client of a worker.
#[derive(Drop)]
pub(crate) struct Client {
    pub(crate) line: Line,
    /// Its connection, unless its calls wait, or it is answered elsewhere, or is being closed.
    pub(crate) resting: Option<Resting<Begun>>,
    /// Its connection, if that is being closed.
    pub(crate) closing: Option<Closing>,
    /// It is among those that are to have their turn.
    pub(crate) is_queued: bool,
    pub(crate) fate: Fate,
}

impl Client {
    pub(crate) fn new(line: Line, resting: Resting<Begun>) -> Client {
        Client {
            line,
            resting: Some(resting),
            closing: None,
            is_queued: false,
            fate: Fate::Stays,
        }
    }

    /// Whether it may have a turn: its connection rests, its replies are taken, and there may be
    /// something to begin.
    pub(crate) fn is_due(&self) -> bool {
        match &self.resting {
            None => false,
            Some(resting) => {
                let connection = resting.connection();
                !connection.has_ended()
                    && connection.unsent().is_empty()
                    && (self.line.may_read || connection.has_message())
            }
        }
    }
}
