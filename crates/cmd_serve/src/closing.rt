//! Connections that the server ends. A socket that is closed with unread input resets, and the client may
//! lose replies that it has not read. So the sending side is ended first, and what comes is dropped.

use crate::begun::Begun;
use crate::client::{Line, Piece};
use crate::desk::Desk;
use connections::{Calls, Resting};
use disk_model::Disk;
use std::alloc::Global;
use std::sync::Wait;
use std::time::{Clock, Duration, Instant};

/// For how many seconds the client of a connection that the server ends can still read its replies.
const LONGEST_END: u64 = 10;

/// How many bytes are dropped at most of what such a client sends. More is left unread.
const MOST_DROPPED: usize = 1 << 20;

/// A connection that is being closed.
#[derive(Drop)]
pub(crate) struct Closing {
    resting: Resting<Begun>,
    /// When it is closed, whatever is left of it.
    pub(crate) until: Instant,
    // how many bytes may still be dropped
    room: usize,
    // its sending side is ended: its replies are written
    has_ended: bool,
}

impl Closing {
    pub(crate) fn new(resting: Resting<Begun>, until: Instant) -> Closing {
        Closing {
            resting,
            until,
            room: MOST_DROPPED,
            has_ended: false,
        }
    }

    /// Writes what is unsent, as far as the client takes it, and then ends the sending side. It says
    /// whether the client is still there.
    fn send(&mut self, line: &mut Line) -> bool {
        if self.has_ended {
            return true;
        }
        match line.write(self.resting.connection().unsent(), None) {
            Ok(count) => self.resting.sent(count),
            Err(_) => return false,
        }
        if self.resting.connection().unsent().is_empty() {
            self.has_ended = true;
            return line.end_sending().is_ok();
        }
        true
    }

    /// Drops a piece of what the client sends. It says whether there may be more.
    fn drop_piece(&mut self, line: &mut Line, room: &mut [u8]) -> Piece {
        let len = self.room.min(room.len());
        let piece = line.read(&mut room[..len], None);
        if let Piece::Bytes(count) = piece {
            self.room = self.room.saturating_sub(count);
        }
        piece
    }

    /// Writes what is unsent, and drops what comes. It says whether that is to go on: it is over once all
    /// is written and the client sends no more.
    pub(crate) fn go_on(&mut self, line: &mut Line, room: &mut [u8]) -> bool {
        if !line.is_blocked && !self.send(line) {
            return false;
        }
        for _ in 0..MOST_DROPPED {
            if !line.may_read || self.room == 0 {
                return true;
            }
            if matches!(self.drop_piece(line, room), Piece::End) {
                line.may_read = false;
                return !self.has_ended;
            }
        }
        true
    }
}

impl<'a, D: Disk + Drop, R: Clock + Wait, C: Calls<Held = Begun> + Drop> Desk<'a, D, R, C> {
    // ---- connections that the server ends

    /// Goes on with a connection that is being closed.
    pub(crate) fn go_on_closing(&mut self, key: usize) {
        let Some(client) = self.clients.get_mut(key) else {
            return;
        };
        let Some(closing) = &mut client.closing else {
            return;
        };
        if !self.turns.close(closing, &mut client.line) {
            self.remove(key);
        }
    }

    /// Ends a connection. Nothing more of it is begun. Its client gets what is unsent, and what it has not
    /// read yet, if it reads within ten seconds.
    pub(crate) fn close(&mut self, key: usize, resting: Resting<Begun>) {
        let until = match Instant::now(self.rt) {
            Ok(now) => now.checked_add(Duration::from_secs(LONGEST_END)),
            Err(_) => None,
        };
        let (Some(until), Some(client)) = (until, self.clients.get_mut(key)) else {
            self.remove(key);
            return;
        };
        client.closing = Some(Closing::new(resting, until));
        self.closing = self.closing.saturating_add(1);
        self.sweep_at(until);
        self.go_on_closing(key);
    }

    /// Ends a connection of which this is left, or lets go of its client.
    pub(crate) fn close_left(&mut self, key: usize, left: Option<Resting<Begun>>) {
        match left {
            Some(resting) => self.close(key, resting),
            None => self.remove(key),
        }
    }
}
