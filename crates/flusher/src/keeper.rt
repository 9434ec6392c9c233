//! The keeper of one store: its disk, its logs, and the entries in hand.
//!
//! What becomes of the entries of a stripe:
//!
//! ```text
//! sweep        they are in hand, by their tickets          (`sweeping`)
//! stage_batch  they are staged, and still in hand          (`batching`)
//! advance      written, synced, gate opened, synced: committed, and no longer in hand (`logs`)
//! publish      the durable count has them
//! ```
//!
//! During a rotation `advance` also writes the header of the log that follows, and then ends the
//! newest one. A device call that fails leaves the keeper broken (`is_broken`): it makes no more,
//! and its owner calls `fail`. The loops of `durable_map` call it under one lock; `checkpoint_walk`
//! writes checkpoints by it; `cmd_mem` and the simulator call it on one thread.
ghost use Rattle.std.specs.Prelude.{◌≡◌, ◌||◌, ◌<◌, None, is_some, [], true, false};
ghost use Rattle.ticket_order.specs.declared.record.Record.{Record};
ghost use Rattle.ticket_order.specs.Records.{failing, publishing};
ghost use Rattle.ticket_order.specs.StepRules.{IsOfSamePass};
ghost use Rattle.ticket_order.specs.Walks.{MakesOne, Durable, Fail};
ghost use Rattle.log_records.specs.Layout.{layout_of};
ghost use Rattle.gate_log.specs.States.{resumed};
ghost use Rattle.gate_log.specs.LogStates as log;
ghost use Rattle.disk_model.specs.Files.{now};
ghost use Rattle.flusher.specs.KeeperSteps.{is_walking};
ghost use Rattle.flusher.specs.Fitting.{Fits, FitsOn, IsFoundFor, IsKept, IsUnused};

use crate::sweeper::{Sweeper, Walking};
use checkpoint_file::CheckpointWriter;
use disk_model::Disk;
use gate_log::{GateLog, Zeros};
use java_hash::StripeCount;
use std::alloc::Global;
use store_invariant::laws;
use ticket_order::{Entry, Steps, Walk};

/// The one value that sweeps, commits, publishes and fails.
#[derive(Drop)]
pub struct Keeper<D: Disk> {
    pub disk: D,
    /// The generation of the sealed checkpoint.
    pub sealed: u64,
    /// The newest log.
    pub log: GateLog,
    /// The log that is to follow the newest one, until that has ended.
    pub next: Option<GateLog>,
    pub sweeper: Sweeper,
    /// What is written ahead in the newest log.
    pub zeros: Zeros,
    /// The entries of the staged batch, which are in hand until they are committed.
    pub staged: Vec<Entry>,
    pub alloc: Global,
    /// For how many stripes a checkpoint is written.
    pub stripes: StripeCount,
    /// The writer of the checkpoint that is under way.
    pub checkpoint: Option<CheckpointWriter>,
    /// The capture of a stripe that is under way.
    pub capture: Option<Walk>,
    /// The gate of the file that the next checkpoint goes to is to be closed first.
    pub must_close: bool,
    /// A device call has failed.
    pub is_broken: bool,
    /// `fail` was called.
    pub has_failed: bool,
    /// The count that was last published.
    pub published: u64,
}

impl<D: Disk> Keeper<D> {
    /// The keeper of a directory that was opened. The checkpoint that was used is of this
    /// generation, and this log goes on behind the last batch of the newest log. It takes no
    /// memory.
    pub fn opened(
        alloc: Global,
        disk: D,
        stripes: StripeCount,
        sealed: u64,
        log: GateLog,
        must_close: bool,
    ) -> Keeper<D>
        // It has what it was given; no rotation, checkpoint or capture runs.
        ensures disk { result.disk ≡ disk }
        ensures store { (result.sealed ≡ sealed) × (result.log ≡ log) × (result.next ≡ None)
            × (result.must_close ≡ must_close) }
        ensures checkpoint { (result.checkpoint ≡ None) × (result.capture ≡ None)
            × (result.stripes ≡ stripes) }

        // No entry is in hand, no sweep begun, no batch staged, no zeros set.
        ensures hand { result.sweeper.in_hand ≡ record { next = log.committed; slots = [] } }
        ensures sweep { (result.sweeper.sweep ≡ None) × (result.sweeper.walking ≡ Walking.Rests) }
        ensures staged { result.staged.items ≡ [] }
        ensures zeros { result.zeros ≡ 0 }

        // It hasn't failed, and all that is committed counts as published.
        ensures works { (result.is_broken ≡ false) × (result.has_failed ≡ false) }
        ensures published { result.published ≡ log.committed }

        // The invariant begins, if the files were found so and the pass unused.
        ensures fits { (p : Record)
            → log ≡ resumed log.version log.generation log.low log.gate log.committed
            → IsUnused log.committed (layout_of log.version).key_limit p
            → (D.honest disk → IsFoundFor p sealed log must_close (now (D.states disk)))
            → Fits D.states D.honest stripes.count [] result p }
    {
        laws::beginnings_of_stores();
        let first = log.committed();
        Keeper {
            disk,
            sealed,
            log,
            next: None,
            zeros: Zeros::none(alloc),
            sweeper: Sweeper::new(alloc, first),
            staged: Vec::new(alloc),
            alloc,
            stripes,
            checkpoint: None,
            capture: None,
            must_close,
            is_broken: false,
            has_failed: false,
            published: first,
        }
    }

    /// Whether the keeper is between the steps of a walk, of a sweep or of a capture. There the caller
    /// makes only that walk's call, `committed` or `into_disk`.
    pub fn is_walking(&self) -> bool
        ensures { result ≡ is_walking self.now.sweeper.walking || is_some self.now.capture }
    {
        !matches!(self.sweeper.walking, Walking::Rests) || self.capture.is_some()
    }

    /// How many commands are committed.
    pub fn committed(&self) -> u64
        ensures { result ≡ self.now.log.committed }
    {
        self.log.committed()
    }

    /// DURABLE with the committed count, which the pass has seen; no step if `fail` was called.
    pub fn publish<S: Steps>(&mut self, steps: &mut S)
        // The invariant holds, and no sweep is between two of its steps.
        requires fits { IsKept D.states D.honest (S.stripe_count steps.old) self.old
            (S.recorded steps.old) }
        requires rests { is_walking self.old.sweeper.walking ≡ false }

        // Before `fail` one step is made: DURABLE with the committed count.
        ensures one { self.old.has_failed ≡ false
            → MakesOne S.recorded S.moves Durable steps.old steps.new }
        ensures published { self.old.has_failed ≡ false
            → (S.recorded steps.new ≡ publishing (S.recorded steps.old) self.old.log.committed)
            × (self.new ≡ record self.old { published = self.old.log.committed }) }

        // After `fail` no step is made, and nothing changes.
        ensures failed { self.old.has_failed ≡ true
            → (steps.new ≡ steps.old) × (self.new ≡ self.old) }

        // The invariant goes on, in the same pass over as many stripes.
        ensures fits { FitsOn D.states D.honest S.stripe_count S.recorded self.old steps.old
            self.new steps.new }
        ensures pass { IsOfSamePass S.place S.stripe_count steps.old steps.new }
    {
        if self.has_failed {
            return;
        }
        let committed = self.log.committed();
        steps.durable(committed);
        self.published = committed;
    }

    /// FAIL. From now on nothing is published.
    pub fn fail<S: Steps>(&mut self, steps: &mut S)
        // The invariant holds, and no sweep is between two of its steps.
        requires fits { IsKept D.states D.honest (S.stripe_count steps.old) self.old
            (S.recorded steps.old) }
        requires rests { is_walking self.old.sweeper.walking ≡ false }

        // One step is made: FAIL. The keeper notes it.
        ensures one { MakesOne S.recorded S.moves Fail steps.old steps.new }
        ensures failed { (S.recorded steps.new ≡ failing (S.recorded steps.old))
            × (self.new ≡ record self.old { has_failed = true }) }

        // The invariant goes on, in the same pass over as many stripes.
        ensures fits { FitsOn D.states D.honest S.stripe_count S.recorded self.old steps.old
            self.new steps.new }
        ensures pass { IsOfSamePass S.place S.stripe_count steps.old steps.new }
    {
        steps.fail();
        self.has_failed = true;
    }

    /// The disk, which the keeper no longer needs.
    pub fn into_disk(self) -> D
        ensures { result ≡ self.disk }
    {
        let Keeper {
            disk,
            sealed: _,
            log: _log,
            next: _next,
            zeros: _zeros,
            sweeper: _sweeper,
            staged: _staged,
            alloc: _,
            stripes: _,
            checkpoint: _checkpoint,
            capture: _capture,
            must_close: _,
            is_broken: _,
            has_failed: _,
            published: _,
        } = self;
        disk
    }
}
