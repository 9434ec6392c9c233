//! Room that a connection has only while it has something to do.

ghost use Rattle.std.specs.Prelude.{◌≡◌, ◌≤◌, [], OnOk, IfOk};
ghost use Rattle.std.specs.VecDeque.{deque_capacity};

use crate::outgoing::{Outgoing, ROOM};
use crate::row::{MOST_HELD, Place};
use std::alloc::{AllocError, Global};
use std::collections::VecDeque;
use std::marker::Model;

/// The room for the calls of one turn of a connection. It holds none while it is lent to nobody.
#[derive(Drop)]
pub struct Row<H> {
    places: VecDeque<Place<H>>,
}

impl<H> Model for Row<H> {
    ghost use Rattle.std.specs.Prelude.{◌≡◌, ◌≤◌, []};
    ghost use Rattle.std.specs.VecDeque.{deque_capacity};
    ghost use Rattle.connections.specs.declared.row.TheConstants.{MOST_HELD};

    ghost Value = { Unit {0} };

    ghost view = { λ _. tt };

    ghost invariant = { λ r. (r.places.items ≡ []) × (MOST_HELD ≤ deque_capacity r.places) };
}

impl<H> Row<H> {
    pub fn new(alloc: Global) -> Result<Row<H>, AllocError> {
        let places = VecDeque::with_capacity(alloc, MOST_HELD)?;
        Ok(Row { places })
    }

    /// The row of these places.
    pub(crate) fn of(places: VecDeque<Place<H>>) -> Row<H>
        requires empty { places.items ≡ [] }
        requires room { MOST_HELD ≤ deque_capacity places }
    {
        Row { places }
    }

    /// Its places, of which none is taken.
    pub(crate) fn into_places(self) -> VecDeque<Place<H>>
        ensures empty { result.items ≡ [] }
        ensures room { MOST_HELD ≤ deque_capacity result }
    {
        self.places
    }
}

/// The bytes that replies are gathered in. It has none while it is lent to nobody.
#[derive(Drop)]
pub struct Buffer {
    out: Outgoing,
}

impl Model for Buffer {
    ghost use Rattle.std.specs.Prelude.{◌≡◌, []};

    ghost Value = { Unit {0} };

    ghost view = { λ _. tt };

    ghost invariant = { λ b. b.out ≡ [] };
}

impl Buffer {
    /// A buffer of 64 KiB.
    pub fn new(alloc: Global) -> Result<Buffer, AllocError> {
        let mut out = Outgoing::new(alloc);
        out.reserve(ROOM)?;
        Ok(Buffer { out })
    }

    /// The buffer of what has nothing to be written.
    pub(crate) fn of(out: Outgoing) -> Buffer
        requires { out ≡ [] }
    {
        Buffer { out }
    }

    /// What has nothing to be written.
    pub(crate) fn into_outgoing(self) -> Outgoing
        ensures { result ≡ [] }
    {
        self.out
    }
}
