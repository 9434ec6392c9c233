//! The calls of the device are watched, and the names of its files: a call that takes long is told of, and
//! that a file was removed.

use disk_model::{DeviceCall, FirstError};
use durable_map::Ends;
use log::{Log, error, info, warn};
use std::sync::Wait;
use std::thread;
use std::time::{Clock, Duration, Instant};

/// How long the thread that watches sleeps at a time, in milliseconds.
const PAUSE: u64 = 100;

/// After how many pauses it is looked whether the files have names still: each second.
const PAUSES: u32 = 10;

/// After how many seconds a device call is told of.
const LONG: u64 = 5;

/// A device call that is under way.
#[derive(Clone, Copy)]
struct Watched {
    call: DeviceCall,
    since: Instant,
    // a record tells of it
    is_told: bool,
}

impl Watched {
    /// For how long it has been watched.
    fn seconds<R: Clock>(&self, rt: &R) -> u64 {
        match self.since.elapsed(rt) {
            Ok(elapsed) => elapsed.as_secs(),
            Err(_) => 0,
        }
    }

    /// Writes a record, if it takes long and none tells of it.
    fn tell<R: Clock + Log>(&mut self, rt: &R) {
        if self.is_told || self.seconds(rt) < LONG {
            return;
        }
        let file = self.call.file;
        warn!(rt; "{file}: no answer for {LONG} s");
        self.is_told = true;
    }

    /// Writes a record that it has ended, if one tells of it.
    fn tell_end<R: Clock + Log>(&self, rt: &R) {
        if self.is_told {
            let file = self.call.file;
            let seconds = self.seconds(rt);
            info!(rt; "{file}: it answered after {seconds} s");
        }
    }
}

/// A call that is watched from now on.
fn begin_watch<R: Clock>(rt: &R, call: Option<DeviceCall>) -> Option<Watched> {
    Some(Watched {
        call: call?,
        since: Instant::now(rt).ok()?,
        is_told: false,
    })
}

/// Whether the call that is watched is this one.
fn goes_on(watched: &Option<Watched>, call: Option<DeviceCall>) -> bool {
    match (watched, call) {
        (Some(watched), Some(call)) => watched.call == call,
        _ => false,
    }
}

/// Looks whether the files have names still, unless that was found. If one has none, a record says so. From
/// then on each device call fails, so that no change is answered which would be lost with the process.
fn look_for_names<L: Log>(rt: &L, first_error: &FirstError, is_removed: bool) -> bool {
    if is_removed {
        return true;
    }
    let is_removed = first_error.note_removal();
    if is_removed {
        error!(rt; "the files have no names any more: no change is kept from now on");
    }
    is_removed
}

/// Watches the calls of the device until `ends` says so. It makes none, and waits for none. While none is
/// under way it asks the system each second whether the files have names.
pub(crate) fn watch_device<R: Clock + Log + Wait, E: Ends>(
    rt: &R,
    first_error: &FirstError,
    ends: &E,
) {
    let mut watched: Option<Watched> = None;
    let mut pauses: u32 = 0;
    let mut is_removed = false;
    for _turn in rt.forever() {
        if ends.has_ended() {
            return;
        }
        let call = first_error.under_way();
        if !goes_on(&watched, call) {
            if let Some(ended) = &watched {
                ended.tell_end(rt);
            }
            watched = begin_watch(rt, call);
        }
        if let Some(watched) = &mut watched {
            watched.tell(rt);
        }
        pauses = pauses.saturating_add(1);
        if pauses >= PAUSES && call.is_none() {
            pauses = 0;
            is_removed = look_for_names(rt, first_error, is_removed);
        }
        thread::sleep(rt, Duration::from_millis(PAUSE));
    }
}
