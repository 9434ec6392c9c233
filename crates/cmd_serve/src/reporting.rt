//! The records of a server's work, one in so many seconds, and one of each checkpoint.
ghost use Rattle.std.specs.Prelude.{◌≡◌, IfOk};
ghost use Rattle.stripe_locks.specs.Passes.{IsSamePass};
ghost use Rattle.durable_map.specs.Maps.{IsReady};

use crate::figures::Figures;
use crate::observer::Observer;
use crate::reports::{CheckpointRecord, Report};
use crate::tally::{Tally, Totals, tallies};
use bulk_tasks::count;
use disk_model::Disk;
use durable_map::{DurableMap, Ends, SealedCheckpoint, Standing};
use log::{Log, info};
use std::alloc::{AllocError, Global};
use std::sync::Wait;
use std::sync::atomic::{AtomicUsize, Ordering};
use std::thread;
use std::time::{Clock, Duration, Instant};
use store_layout::checkpoint_file;
use stripe_locks::Pass;

/// How long the thread that writes the records sleeps at a time, in milliseconds.
const PAUSE: u64 = 100;

/// The names of the two files of checkpoints.
const CHECKPOINTS: [&str; 2] = ["ckpt-a", "ckpt-b"];

/// Watches a server, and writes records, if they are asked for.
#[derive(Drop)]
pub(crate) struct Reporter<'a> {
    alloc: Global,
    directory: &'a str,
    // how many seconds lie between two records; nothing if there are none
    seconds: Option<u32>,
    // how many changes the map began with
    first: u64,
    start: Option<Instant>,
    // one for each thread that takes up requests; none if there are no records
    tallies: Vec<Tally>,
}

impl<'a> Reporter<'a> {
    /// One for this many threads that take up requests.
    pub(crate) fn new<R: Clock>(
        rt: &R,
        alloc: Global,
        directory: &'a str,
        seconds: Option<u32>,
        first: u64,
        threads: usize,
    ) -> Result<Reporter<'a>, AllocError>
        ensures { IfOk result (λ reporter. reporter.seconds ≡ seconds) }
    {
        let count = match seconds {
            Some(_) => threads,
            None => 0,
        };
        Ok(Reporter {
            alloc,
            directory,
            seconds,
            first,
            start: Instant::now(rt).ok(),
            tallies: tallies(alloc, count)?,
        })
    }

    /// How many nanoseconds have gone since it was made, if the clock tells.
    fn nanos<R: Clock>(&self, rt: &R) -> Option<u64> {
        let elapsed = self.start?.elapsed(rt).ok()?;
        u64::try_from(elapsed.as_nanos()).ok()
    }

    /// How many whole seconds have, if the clock tells.
    fn seconds_gone<R: Clock>(&self, rt: &R) -> Option<u64> {
        let elapsed = self.start?.elapsed(rt).ok()?;
        Some(elapsed.as_secs())
    }
}

/// How long the file of a checkpoint is, if the system tells.
fn length_of<R: Figures>(rt: &R, alloc: Global, directory: &str, generation: u64) -> Option<u64> {
    let name = CHECKPOINTS.get(checkpoint_file(generation))?;
    let path = format!(in alloc; "{directory}/{name}").ok()?;
    rt.file_length(path.as_str())
}

/// How the map stood at the last record.
#[derive(Clone, Copy)]
struct Last {
    tickets: u64,
    durable: u64,
    batches: u64,
}

impl Last {
    fn of(standing: &Standing) -> Last {
        Last {
            tickets: standing.tickets,
            durable: standing.durable,
            batches: standing.batches,
        }
    }
}

impl Reporter<'_> {
    /// Writes the record of the time since the last one, and returns how the map stands.
    fn report<R: Clock + Figures + Log + Wait, D: Disk + Drop>(
        &self,
        rt: &R,
        map: &DurableMap<D>,
        pass: &mut Pass,
        served: &AtomicUsize,
        last: Last,
    ) -> Last
        requires ready { IsReady map.now pass.old }
        ensures ready { IsReady map.now pass.new }
        ensures same { IsSamePass pass.old pass.new }
    {
        let entries = count(rt, map, pass).ok();
        let standing = map.standing(rt);
        let sealed_ago = standing
            .sealed
            .and_then(|sealed| sealed.ended?.elapsed(rt).ok());
        let report = Report {
            totals: Totals::of(&self.tallies),
            changes: standing.tickets.saturating_sub(last.tickets),
            committed: standing.durable.saturating_sub(last.durable),
            batches: standing.batches.saturating_sub(last.batches),
            open: served.load(Ordering::SeqCst) as u64,
            standing,
            entries,
            sealed_ago,
            memory: rt.memory(self.alloc),
        };
        info!(rt; "report {report}");
        Last::of(&standing)
    }

    /// Sleeps until so many seconds have gone since the start, and returns how many have. It returns
    /// nothing once the server has ended.
    fn sleep_until<R: Clock + Wait, E: Ends>(&self, rt: &R, seconds: u64, ends: &E) -> Option<u64> {
        for _turn in rt.forever() {
            if ends.has_ended() {
                return None;
            }
            match self.seconds_gone(rt) {
                Some(gone) if gone >= seconds => return Some(gone),
                _ => thread::sleep(rt, Duration::from_millis(PAUSE)),
            }
        }
        unreachable!()
    }

    /// Writes a record each time that so many seconds have gone, until the server ends.
    fn report_all<R: Clock + Figures + Log + Wait, D: Disk + Drop, E: Ends>(
        &self,
        rt: &R,
        map: &DurableMap<D>,
        pass: &mut Pass,
        served: &AtomicUsize,
        ends: &E,
        seconds: u64,
    )
        requires ready { IsReady map.now pass.old }
    {
        let mut last = Last {
            tickets: self.first,
            durable: self.first,
            batches: 0,
        };
        let mut next = seconds;
        for _turn in rt.forever() {
            let Some(gone) = self.sleep_until(rt, next, ends) else {
                return;
            };
            last = self.report(rt, map, pass, served, last);
            next = self
                .seconds_gone(rt)
                .unwrap_or(gone)
                .saturating_add(seconds);
        }
        unreachable!()
    }
}

impl Observer for Reporter<'_> {
    fn request_begins<R: Clock>(&self, rt: &R, worker: usize) -> Option<u64> {
        if worker >= self.tallies.len() {
            return None;
        }
        self.nanos(rt)
    }

    fn request_ended<R: Clock>(&self, rt: &R, worker: usize, mark: u64) {
        if let (Some(tally), Some(nanos)) = (self.tallies.get(worker), self.nanos(rt)) {
            tally.note_time(nanos.saturating_sub(mark));
        }
    }

    fn tally(&self, worker: usize) -> Option<&Tally> {
        self.tallies.get(worker)
    }

    fn checkpoint_sealed<R: Clock + Figures + Log>(&self, rt: &R, sealed: &SealedCheckpoint) {
        if self.seconds.is_none() {
            return;
        }
        let bytes = length_of(rt, self.alloc, self.directory, sealed.generation);
        let checkpoint = CheckpointRecord { sealed, bytes };
        info!(rt; "checkpoint {checkpoint}");
    }

    fn watches(&self) -> bool {
        self.seconds.is_some()
    }

    fn watch<R: Clock + Figures + Log + Wait, D: Disk + Drop, E: Ends>(
        &self,
        rt: &R,
        map: &DurableMap<D>,
        served: &AtomicUsize,
        ends: &E,
    ) {
        let Some(seconds) = self.seconds else {
            return;
        };
        if let Ok(mut pass) = map.pass() {
            self.report_all(rt, map, &mut pass, served, ends, u64::from(seconds));
        }
    }
}
