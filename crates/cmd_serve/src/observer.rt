//! What is told of a server's work: how it is watched, and how a test holds it up.

use crate::figures::Figures;
use crate::tally::Tally;
use disk_model::Disk;
use durable_map::{DurableMap, Ends, SealedCheckpoint};
use log::Log;
use std::sync::Wait;
use std::sync::atomic::AtomicUsize;
use std::time::Clock;

/// Is told of what a server does. What is left out does nothing.
pub trait Observer {
    /// The worker with this number takes up a request, whose call it has not begun yet. What is
    /// returned is handed to `request_ended`; with nothing it is not told of the request again.
    fn request_begins<R: Clock>(&self, rt: &R, worker: usize) -> Option<u64>;

    /// A request of the worker was answered or given up, for which `request_begins` returned this
    /// mark.
    fn request_ended<R: Clock>(&self, rt: &R, worker: usize, mark: u64);

    /// Whether it may hold a request up. Then no worker gets two clients before each has one.
    fn may_hold_up(&self) -> bool {
        false
    }

    /// Where the worker writes how many clients it has.
    fn tally(&self, _worker: usize) -> Option<&Tally> {
        None
    }

    /// A checkpoint was sealed.
    fn checkpoint_sealed<R: Clock + Figures + Log>(&self, _rt: &R, _sealed: &SealedCheckpoint) {}

    /// Whether `watch` is to be called, on a thread of its own.
    fn watches(&self) -> bool {
        false
    }

    /// Watches the map, of which `served` connections are served, until `ends` says so.
    fn watch<R: Clock + Figures + Log + Wait, D: Disk + Drop, E: Ends>(
        &self,
        _rt: &R,
        _map: &DurableMap<D>,
        _served: &AtomicUsize,
        _ends: &E,
    ) {}
}

/// Is told of nothing.
#[derive(Drop)]
pub struct NoObserver;

impl Observer for NoObserver {
    fn request_begins<R: Clock>(&self, _rt: &R, _worker: usize) -> Option<u64> {
        None
    }

    fn request_ended<R: Clock>(&self, _rt: &R, _worker: usize, _mark: u64) {}
}
