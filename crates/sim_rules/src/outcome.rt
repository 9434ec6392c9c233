//! What came of an event.
use map_types::{Key, Refusal, Reply, Value};
use store_layout::{CheckpointPhase, Phase};

/// A step that a walk made, with what it found.
#[derive(Clone, Copy, Debug, PartialEq, Eq)]
pub enum Made {
    /// TAKE of a free stripe.
    Took(usize),
    /// TAKE of a stripe that another holds.
    FoundHeld(usize),
    /// GIVE.
    Gave(usize),
    /// TICKET, with the number drawn.
    Drew(u64),
    /// LOOK, with the count of tickets.
    Looked(u64),
    /// SEE, with the durable count.
    Saw(u64),
    /// ALIVE: false if a FAIL was made.
    FoundAlive(bool),
}

/// What a step leaves of its walk.
#[derive(Drop)]
pub enum End {
    /// The walk goes on.
    Goes,
    /// A change or a read was made; its reply is held at this position.
    Held(u64),
    /// The held reply is released.
    Replied { position: u64, reply: Reply },
    /// The held reply isn't durable yet, and stays held.
    NotYet,
    /// The store has failed, and the held reply is given up.
    Failed,
    /// A sweep has come to its end; its LOOK found this count.
    Swept(u64),
    /// A sweep waits for this stripe.
    SweepHeld(usize),
    /// A capture has come to its end, with this mark.
    Captured(u64),
    Refused(Refusal),
}

/// A call of the device that changes what a stop may leave.
#[derive(Debug, Drop, PartialEq, Eq)]
pub enum DeviceCall {
    Write {
        file: usize,
        at: usize,
        bytes: Vec<u8>,
    },
    Sync {
        file: usize,
    },
}

/// An entry of the map.
#[derive(Drop)]
pub struct MapEntry {
    pub key: Key,
    pub value: Value,
}

/// What came of an event.
#[derive(Drop)]
pub enum Outcome {
    /// The run began with a directory of version 01.
    Old,
    /// The event doesn't fit, and changed nothing.
    Skipped,
    Refused(Refusal),
    /// The store was opened with `calls` device calls. Its files stand for the map after the first
    /// `prefix` changes. `entries` are those of the map, their keys in rising order of their bytes.
    Opened {
        calls: u64,
        prefix: u64,
        entries: Vec<MapEntry>,
    },
    /// The store wasn't opened, after `calls` device calls.
    NotOpened {
        calls: u64,
        refusal: Refusal,
    },
    /// A walk or a release was begun.
    Started,
    Stepped {
        made: Made,
        end: End,
    },
    /// n changes were staged.
    Staged(u32),
    /// The log's device call was made, with the phase after it.
    Logged {
        call: DeviceCall,
        phase: Phase,
    },
    /// The checkpoint's device call was made, with the phase after it.
    Checkpointed {
        call: DeviceCall,
        phase: CheckpointPhase,
    },
    /// This device call was made, and failed.
    CallFailed {
        call: DeviceCall,
    },
    /// This count was published.
    Published(u64),
    /// A FAIL was made.
    FailMade,
    /// A checkpoint was begun.
    Begun,
    /// The seal was begun.
    Sealing,
    /// The machine stopped, within this device call if one is named.
    Stopped {
        within: Option<DeviceCall>,
    },
    Left,
}
