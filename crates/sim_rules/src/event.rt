//! What happens to a store: to its workers, to its keeper, to its disk.
use disk_model::Fill;
use java_hash::StripeCount;
use map_types::{Command, Read};

/// Which of the keeper's two writers.
#[derive(Clone, Copy, Debug, PartialEq, Eq)]
pub enum Side {
    Log,
    Checkpoint,
}

/// How a device call ends. Of a write that fails, the fill says what it left.
#[derive(Drop)]
pub enum Ending {
    Done,
    Fails(Fill),
}

/// One event of a schedule: at most one atomic step, or one device call, or the end of a life.
#[derive(Drop)]
pub enum Event {
    /// The run begins with a directory of version 01. It fits as the first event alone.
    Old,
    /// The store is opened for `stripes` stripes. If the number of a device call is given, counted
    /// from 1, that call fails.
    Open {
        stripes: StripeCount,
        fails_at: Option<u64>,
    },
    /// A worker begins the walk of a change, unless its key is too long; its steps follow.
    Change {
        worker: usize,
        command: Command,
    },
    /// A worker begins the walk of a read; its steps follow.
    Read {
        worker: usize,
        read: Read,
    },
    /// The worker's walk makes its next step.
    Step {
        worker: usize,
    },
    /// The worker begins to release the reply that it holds; the steps follow.
    Release {
        worker: usize,
    },
    /// The keeper begins a sweep, or goes on with one that found a stripe held.
    Sweep,
    /// The keeper's sweep or capture makes its next step.
    KeeperStep,
    /// The keeper stages a batch of at most `most` changes.
    Stage {
        most: u32,
    },
    /// One of the keeper's writers makes its next device call.
    Device {
        side: Side,
        ending: Ending,
    },
    Publish,
    Fail,
    /// A checkpoint is begun.
    Begin,
    /// The capture of a stripe begins.
    Capture {
        stripe: usize,
    },
    /// The checkpoint is to be sealed.
    Seal,
    /// The machine stops, between device calls or within the next one of a writer.
    Stop {
        within: Option<Side>,
        fill: Fill,
    },
    /// The life is left, with the files as they are.
    Leave,
}
