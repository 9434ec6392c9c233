//! The texts of the records of a server's work: pairs of a key and a value, in a fixed order. What isn't
//! known is left out.

use crate::tally::Totals;
use durable_map::{SealedCheckpoint, Standing};
use std::fmt;
use std::fmt::{Display, Formatter, Write};
use std::time::Duration;

/// A time in seconds, with its milliseconds.
#[derive(Clone, Copy)]
struct Seconds(Duration);

impl Display for Seconds {
    fn fmt<W: Write>(&self, f: &mut Formatter<W>) -> fmt::Result {
        let seconds = self.0.as_secs();
        let millis = self.0.subsec_millis();
        write!(f, "{seconds}.{millis:03}")
    }
}

/// The record of a checkpoint.
#[derive(Clone, Copy)]
pub(crate) struct CheckpointRecord<'a> {
    pub(crate) sealed: &'a SealedCheckpoint,
    /// The length of its file, if the system tells.
    pub(crate) bytes: Option<u64>,
}

impl Display for CheckpointRecord<'_> {
    fn fmt<W: Write>(&self, f: &mut Formatter<W>) -> fmt::Result {
        let SealedCheckpoint {
            generation,
            entries,
            ..
        } = *self.sealed;
        write!(f, "generation={generation} entries={entries}")?;
        if let Some(bytes) = self.bytes {
            write!(f, " bytes={bytes}")?;
        }
        if let Some(spent) = self.sealed.spent() {
            let seconds = Seconds(spent);
            write!(f, " seconds={seconds}")?;
        }
        Ok(())
    }
}

/// The record of how a server works and stands.
#[derive(Drop)]
pub(crate) struct Report {
    pub(crate) totals: Totals,
    /// How many changes were made and committed since the last record, and in how many batches.
    pub(crate) changes: u64,
    pub(crate) committed: u64,
    pub(crate) batches: u64,
    /// How many connections are served.
    pub(crate) open: u64,
    pub(crate) standing: Standing,
    /// How many entries there are, unless the store has failed.
    pub(crate) entries: Option<usize>,
    /// How long ago the checkpoint was sealed, if this server sealed it.
    pub(crate) sealed_ago: Option<Duration>,
    /// How many bytes of memory the process has, if the system tells.
    pub(crate) memory: Option<u64>,
}

impl Report {
    /// The calls since the last record.
    fn fmt_calls<W: Write>(&self, f: &mut Formatter<W>) -> fmt::Result {
        let calls = self.totals.calls;
        let mean = self.totals.mean();
        let half = self.totals.percentile(50);
        let most = self.totals.percentile(99);
        let longest = self.totals.longest();
        write!(
            f,
            "calls={calls} mean_us={mean} p50_us={half} p99_us={most}"
        )?;
        write!(f, " max_us={longest}")
    }

    /// The changes since the last record, and the batches in which they were committed.
    fn fmt_changes<W: Write>(&self, f: &mut Formatter<W>) -> fmt::Result {
        let changes = self.changes;
        let batches = self.batches;
        let tenths = self.committed.saturating_mul(10) / batches.max(1);
        let whole = tenths / 10;
        let tenth = tenths % 10;
        write!(
            f,
            " changes={changes} batches={batches} batch_mean={whole}.{tenth}"
        )
    }

    fn fmt_connections<W: Write>(&self, f: &mut Formatter<W>) -> fmt::Result {
        let open = self.open;
        let held = self.totals.held;
        let waiting = open.saturating_sub(self.totals.clients);
        write!(f, " connections={open} held={held} waiting={waiting}")
    }

    fn fmt_map<W: Write>(&self, f: &mut Formatter<W>) -> fmt::Result {
        let Standing {
            tickets,
            durable,
            log_bytes,
            generation,
            ..
        } = self.standing;
        write!(f, " tickets={tickets} durable={durable}")?;
        if let Some(entries) = self.entries {
            write!(f, " entries={entries}")?;
        }
        write!(f, " log_bytes={log_bytes} generation={generation}")?;
        if let Some(ago) = self.sealed_ago {
            let seconds = ago.as_secs();
            write!(f, " sealed_seconds={seconds}")?;
        }
        Ok(())
    }
}

impl Display for Report {
    fn fmt<W: Write>(&self, f: &mut Formatter<W>) -> fmt::Result {
        self.fmt_calls(f)?;
        self.fmt_changes(f)?;
        self.fmt_connections(f)?;
        self.fmt_map(f)?;
        if let Some(memory) = self.memory {
            write!(f, " memory_bytes={memory}")?;
        }
        Ok(())
    }
}
