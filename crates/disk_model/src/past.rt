// What happened to a disk. Only clauses and proofs read it, and it takes no bytes.
ghost use Rattle.std.specs.Prelude.{◌≡◌, List, [], ◌∷◌};
ghost use Rattle.std.specs.Borrow.{ftrue};
ghost use Rattle.disk_model.specs.Events.{Event, event_of};

use crate::Fill;
use std::marker::Model;

/// What a device call, or a stop, did.
#[derive(Drop)]
pub(crate) enum Note<'a> {
    Looked,
    Failed,
    Wrote {
        file: usize,
        at: usize,
        bytes: &'a [u8],
    },
    Tore {
        file: usize,
        at: usize,
        bytes: &'a [u8],
        seen: &'a [u8],
    },
    Broke {
        file: usize,
        at: usize,
        bytes: &'a [u8],
    },
    Synced {
        file: usize,
    },
    Measured {
        file: usize,
        len: usize,
    },
    Gave {
        file: usize,
        at: usize,
        room: usize,
        bytes: &'a [u8],
    },
    Stopped {
        fill: &'a Fill,
    },
}

#[derive(Drop)]
pub(crate) struct Past {
    pub ghost events: { List Event },
}

impl Model for Past {
    ghost also_owns = { λ _. ftrue };
}

// It owns nothing.
unsafe impl Send for Past {}

impl Past {
    pub(crate) fn new() -> Past
        ensures { result.events ≡ [] }
    {
        Past {}
    }

    pub(crate) fn with(&self, _note: &Note<'_>) -> Past
        ensures { result.events ≡ event_of _note.now ∷ self.now.events }
    {
        Past {}
    }
}
