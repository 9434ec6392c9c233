//! Connections that hold no call.

ghost use Rattle.std.specs.Prelude.{◌≡◌, ◌≢◌, ◌≤◌, ◌++◌, [], length, take, drop, IfOk, IfErr, OnOk, OnErr};
ghost use Rattle.wire_frames.specs.Held.{fed};
ghost use Rattle.connections.specs.Past.{Past, IsPast, fresh, no_past, standing};

use crate::exchange::Connection;
use std::alloc::{AllocError, Global};
use std::marker::Model;

/// A connection of which no call is held. Nothing of it is owned by any calls, so it may be kept
/// apart from them, and served by others.
#[derive(Drop)]
pub struct Resting<H> {
    connection: Connection<H>,
}

impl<H> Model for Resting<H> {
    ghost use Rattle.std.specs.Prelude.{◌≡◌, []};
    ghost use Rattle.connections.specs.declared.exchange.Connection.{Connection};

    ghost Value = { Connection H };

    ghost view = { λ r. r.connection };

    ghost invariant = { λ r. r.connection.row.items ≡ [] };
}

impl<H> Resting<H> {
    /// A connection that has no memory yet.
    pub fn new(alloc: Global) -> Resting<H>
        ensures fresh { standing result ≡ fresh }
        ensures past { IsPast no_past (standing result) }
    {
        Resting {
            connection: Connection::new(alloc),
        }
    }

    /// The connection, if it holds no call; else it is handed back.
    pub fn of(connection: Connection<H>) -> Result<Resting<H>, Connection<H>>
        ensures ok { IfOk result (λ resting. resting ≡ connection) }
        ensures err { IfErr result (λ other. (other ≡ connection) × (other.row.items ≢ [])) }
    {
        if connection.is_idle() {
            Ok(Resting { connection })
        } else {
            Err(connection)
        }
    }

    /// The connection, which holds no call.
    pub fn connection(&self) -> &Connection<H>
        ensures same { result.now ≡ self.now }
        ensures idle { self.now.row.items ≡ [] }
    {
        &self.connection
    }

    /// Takes bytes that were read. If no memory is found for them, nothing changes.
    pub fn receive(&mut self, piece: &[u8]) -> Result<(), AllocError>
        ensures past { OnOk result ((past : Past H) → IsPast past (standing self.old)
            → IsPast (record past { received = past.received ++ piece.now }) (standing self.new)) }
        ensures ok { OnOk result (self.new ≡ record self.old {
          feeder = fed self.old.feeder piece.now;
        }) }
        ensures err { OnErr result (self.new ≡ self.old) }
    {
        self.connection.receive(piece)
    }

    /// Takes note that the first of the unsent bytes were written.
    pub fn sent(&mut self, count: usize)
        requires { count ≤ length self.old.out }
        ensures past { (past : Past H) → IsPast past (standing self.old)
            → IsPast (record past { written = past.written ++ take count self.old.out })
            (standing self.new) }
        ensures same { self.new ≡ record self.old { out = drop count self.old.out } }
    {
        self.connection.sent(count);
    }

    /// Gives back the memory that it doesn't need for what it holds.
    pub fn trim(&mut self)
        ensures { standing self.new ≡ standing self.old }
    {
        self.connection.trim();
    }

    /// The connection, to be served.
    pub fn wake(self) -> Connection<H>
        ensures same { result ≡ self }
        ensures idle { result.row.items ≡ [] }
    {
        self.connection
    }
}
