//! What a pass records. No value of `Record`, or of what it is made of, is ever made: contracts
//! alone speak of them. They are Rust types so that they can be a shared table's view of a pass.
use crate::numbers::{Position, Ticket};
use crate::stripe::Entry;
use atomic_methods::Part;
use map_types::{Command, Read, Reply};
use std::collections::LinkedList;
use std::marker::Model;

/// A finite map from keys to values.
pub struct FiniteMap {
    part: Part,
}

impl Model for FiniteMap {
    ghost use Rattle.std.specs.Coded.{coded_ℕ, coded_list};
    ghost use Rattle.std.specs.FinMap as finite;
    ghost use Rattle.map_types.specs.contracts.texts.Value as value_type;
    ghost use Rattle.map_model.specs.Maps.{Map};

    ghost Value = { Map };

    ghost coded = { finite.code (coded_list coded_ℕ) value_type.the_row.coded };

    ghost view = { λ finite_map. finite_map.part.map };
}

/// Where a history begins: its first `first` changes are known by the map after them alone.
pub struct Opening {
    pub first: u64,
    pub map: FiniteMap,
    /// The most bytes that the key of a change may have.
    pub key_limit: u16,
}

/// What a stripe is given back for.
#[derive(Drop)]
pub enum Purpose {
    /// Nothing more: a change, or a call that was refused.
    Nothing,
    /// The reply to this read.
    Answer(Read),
    /// A sweep, which keeps the outbox.
    Sweep,
    /// A capture, which keeps the part as a section.
    Capture,
}

/// A step of a pass, with what it found.
pub enum StepMade {
    /// TAKE of a free stripe, with the outbox and the `last` that were in it.
    Took {
        stripe: usize,
        outbox: LinkedList<Entry>,
        last: u64,
    },
    /// TAKE of a stripe that another holds.
    FoundHeld {
        stripe: usize,
    },
    /// GIVE.
    Gave {
        stripe: usize,
    },
    /// TICKET.
    Drew {
        ticket: Ticket,
    },
    /// LOOK.
    Looked {
        count: u64,
    },
    /// DURABLE, with its number.
    Published {
        number: u64,
    },
    /// SEE.
    Saw {
        durable: u64,
    },
    /// FAIL.
    Failed,
    /// ALIVE; it says no if the store has failed.
    FoundAlive {
        is_alive: bool,
    },
}

/// What a call asks.
pub enum Asked {
    Changing(Command),
    Reading(Read),
}

/// A call that was made, with its place in the one history.
pub struct Call {
    pub position: Position,
    pub asked: Asked,
    pub reply: Reply,
}

/// The part of a stripe after the first `mark` changes of the one history.
pub struct Section {
    pub stripe: usize,
    pub mark: u64,
    pub part: FiniteMap,
}

/// The stripe that a pass holds.
pub struct Holding {
    pub stripe: usize,
    /// The part that has to be given back.
    pub part: FiniteMap,
    /// The outbox that has to be given back, but for a sweep.
    pub outbox: LinkedList<Entry>,
    /// What has to be given back as the stripe's `last`.
    pub last: u64,
    /// A ticket was drawn since the TAKE.
    pub has_drawn: bool,
    /// The count that a LOOK found since the TAKE, if no ticket was drawn.
    pub looked: Option<u64>,
}

/// All that one pass did and saw.
pub struct Record {
    pub opening: Opening,
    pub steps: LinkedList<StepMade>,
    /// Each call once: a change at its TICKET, a read at its GIVE.
    pub calls: LinkedList<Call>,
    /// What captures and views took, at their GIVE.
    pub sections: LinkedList<Section>,
    /// The front of the one history that the pass has seen, from the opening on.
    pub seen: LinkedList<Command>,
    pub holding: Option<Holding>,
    /// It is the one pass that sweeps, publishes and fails.
    pub keeper: bool,
    /// The entries that its sweeps took, at their GIVE.
    pub taken: LinkedList<Entry>,
    /// The greatest number that it has published, at first that of the opening.
    pub published: u64,
    /// It has made a FAIL.
    pub failed: bool,
    /// It counts among the passes of its shared words.
    pub enrolled: bool,
    /// It saw the count of tickets below their limit since its last TICKET.
    pub fresh: bool,
    /// The greatest count of passes that it has seen.
    pub passes: u64,
}
