//! The map in memory: the shared stripes on one thread, and a keeper with its log on a disk.
ghost use Rattle.std.specs.Prelude.{◌≡◌, IfOk, IfErr, None, false};
ghost use Rattle.ticket_order.specs.declared.record.Record.{Record};
ghost use Rattle.ticket_order.specs.StepRules.{IsOfSamePass};
ghost use Rattle.flusher.specs.Fitting.{IsKept, IsUnused};
ghost use Rattle.flusher.specs.KeeperSteps.{is_walking};
ghost use Rattle.recovery.specs.LogReading.{IsResumed};
ghost use Rattle.stripe_locks.specs.Passes.{begun_with, stripe_count};
ghost use Rattle.cmd_mem.specs.Maps.{CannotBegin, CannotOpen, IsEmpty, Leaves, nothing_yet};
ghost use Rattle.cmd_mem.specs.Served.{BegunIsServed, Begins, Ends, IsCallOf, IsIdle, PassGoesOn, StillMade, fails};

use crate::committing::give_out;
use connections::Calls;
use disk_model::{Disk, MemDisk};
use flusher::Keeper;
use java_hash::StripeCount;
use journal::{Journal, OwnSteps, laws};
use map_types::{Refusal, Reply};
use recovery::{format, open};
use std::alloc::Global;
use std::marker::Model;
use std::sync::{Arc, Wait};
use store_layout::laws as layout_laws;
use stripe_locks::Stripes;
use ticket_order::{Held, Steps};
use wire_frames::Request;

/// A map of 16 stripes in memory, with a keeper whose log lies on a disk. The keeper's pass makes the
/// calls when they are begun. The keeper sweeps the stripes, commits and publishes before a reply is
/// given out, so that one batch commits all calls that were begun. What it is refused for want of
/// memory is tried again until memory is found. If a device call fails, or the log is full, a call
/// can't be committed: the map has failed, and from then on each call is refused with `Failed`, one
/// that was begun before too.
#[derive(Drop)]
pub struct Memory<'a, D: Disk + Drop, R: Wait> {
    rt: &'a R,
    alloc: Global,
    journal: Journal<D, OwnSteps>,
    has_failed: bool,
}

impl<'a, D: Disk + Drop, R: Wait> Model for Memory<'a, D, R> {
    ghost use Rattle.std.specs.Arc.{arc_value};
    ghost use Rattle.std.specs.Prelude.{◌≡◌, false};
    ghost use Rattle.stripe_locks.specs.Passes.{recorded, stripe_count};
    ghost use Rattle.cmd_mem.specs.Maps.{MapState};
    ghost use Rattle.cmd_mem.specs.Served.{IsIdle};
    ghost use Rattle.ticket_order.specs.contracts.record.Record as record_type;
    ghost use Rattle.std.specs.Coded.{codes};

    ghost Value = { MapState };

    ghost coded = { Prim.hlevel (codes, record_type.the_row.coded) };

    ghost view = { λ memory.
        record {
          stripes = stripe_count (arc_value memory.journal.steps.stripes);
          pass = recorded memory.journal.steps.pass;
          log = memory.journal.keeper.log;
          has_failed = memory.has_failed;
        } };

    ghost invariant = { λ memory. memory.has_failed ≡ false → IsIdle memory.journal.keeper };
}

/// Makes the call of a request. A request of the whole map is refused as an unknown method.
fn make<D: Disk, S: Steps>(
    journal: &mut Journal<D, S>,
    alloc: Global,
    request: Request,
) -> Result<Held, Refusal>
    // The call was made or refused, and each that was made before stays made.
    ensures begins { Begins (S.stripe_count journal.old.steps) (S.recorded journal.old.steps)
        request result (S.recorded journal.new.steps) }
    ensures made { IfOk result (IsCallOf (S.recorded journal.new.steps)) }
    ensures others { StillMade (S.recorded journal.old.steps) (S.recorded journal.new.steps) }

    // The keeper stays, in the same pass.
    ensures same { journal.new.keeper ≡ journal.old.keeper }
    ensures pass { IsOfSamePass S.place S.stripe_count journal.old.steps journal.new.steps }
{
    match request {
        Request::Change(command) => journal.try_call(alloc, command),
        Request::Read(read) => journal.try_read(read),
        Request::Bulk(_) => Err(Refusal::UnknownMethod),
    }
}

/// Finishes a call that was begun, over a map that has not failed.
fn end<D: Disk, S: Steps, R: Wait>(
    rt: &R,
    journal: &mut Journal<D, S>,
    held: Held,
) -> Result<Reply, Refusal>
    // The keeper rests between two commits.
    requires idle { IsIdle journal.old.keeper }

    // The reply was given out or is withheld, and each call that was made stays made.
    ensures ends { Ends (S.recorded journal.old.steps) held result
        (S.recorded journal.new.steps) journal.new.keeper.log }
    ensures others { StillMade (S.recorded journal.old.steps) (S.recorded journal.new.steps) }

    // The keeper rests so again unless the map has failed, in the same pass.
    ensures works { fails result ≡ false → IsIdle journal.new.keeper }
    ensures pass { IsOfSamePass S.place S.stripe_count journal.old.steps journal.new.steps }
{
    give_out(rt, journal, held)
}

/// A call that was begun and then finished with a reply was made, and its own entry is committed,
/// whatever was begun and finished in between.
pub fn begun_are_served()
    ensures served { BegunIsServed }
    ensures goes_on { PassGoesOn }
{}

/// Makes the disk that of an empty map of 16 stripes, and opens it.
fn open_new<D: Disk + Drop>(alloc: Global, disk: D) -> Result<(Keeper<D>, Stripes), (D, Refusal)>
    // 16 stripes and a keeper at rest; on an honest disk the map is empty.
    ensures idle { IfOk result (λ x. IsIdle x.0) }
    ensures still { IfOk result (λ x. is_walking x.0.sweeper.walking ≡ false) }
    ensures over { IfOk result (λ x. x.0.capture ≡ None) }
    ensures stripes { IfOk result (λ x. stripe_count x.1 ≡ 16) }
    ensures log { IfOk result (λ x. IsResumed x.0.log
        × (x.0.log.committed ≡ (begun_with x.1).first)) }
    ensures new { IfOk result (λ x. D.honest x.0.disk → begun_with x.1 ≡ nothing_yet) }

    // The invariant begins, for a pass that made no call of the keeper.
    ensures kept { IfOk result (λ x. (p : Record) → p.opening ≡ begun_with x.1
        → IsUnused (begun_with x.1).first (begun_with x.1).key_limit p
        → IsKept D.states D.honest 16 x.0 p) }

    // No device call failed; or the refusal says why it was not opened.
    ensures failures { IfOk result (λ x. D.failures x.0.disk ≡ D.failures disk) }
    ensures err { IfErr result (λ x. D.honest x.0 → CannotOpen D.states D.failures disk x.1 x.0) }
{
    layout_laws::laws_of_opening();
    let Some(count) = StripeCount::new(16) else {
        unreachable!()
    };
    let mut disk = disk;
    match format(alloc, &mut disk, count) {
        Ok(()) => open(alloc, disk, count),
        Err(refusal) => Err((disk, refusal)),
    }
}

impl<'a, R: Wait> Memory<'a, MemDisk, R> {
    /// An empty map, over a disk in memory that is made that of an empty map and opened. It refuses
    /// with `AlreadyFormatted` only if a checkpoint is sealed there, with `Failed` only if a device
    /// call has failed, with `SeatsSpent` only if the stripes have no keeper's pass, and else with
    /// `NoMemory`. If it refuses, the disk is handed back.
    pub fn new(
        rt: &'a R,
        alloc: Global,
        disk: MemDisk,
    ) -> Result<Memory<'a, MemDisk, R>, (MemDisk, Refusal)>
        ensures empty { IfOk result IsEmpty }
        ensures err { IfErr result (λ refused.
            CannotBegin ⟦<MemDisk as Disk>⟧.states ⟦<MemDisk as Disk>⟧.failures disk refused.1
            refused.0) }
    {
        let (keeper, stripes) = open_new(alloc, disk)?;
        let Ok(stripes) = Arc::new(alloc, stripes) else {
            return Err((keeper.into_disk(), Refusal::NoMemory));
        };
        Ok(Memory {
            rt,
            alloc,
            journal: Journal::over(keeper, stripes)?,
            has_failed: false,
        })
    }
}

impl<D: Disk + Drop, R: Wait> Memory<'_, D, R> {
    /// The disk, which the map no longer needs. What is committed is on it.
    pub fn into_disk(self) -> D
        ensures { D.honest result → Leaves D.states self.entry result }
    {
        laws::stops_of_a_journal(&self.journal);
        let Memory {
            rt: _,
            alloc: _,
            journal,
            has_failed: _,
        } = self;
        journal.into_disk()
    }
}

impl<D: Disk + Drop, R: Wait> Calls for Memory<'_, D, R> {
    ghost use Rattle.cmd_mem.specs.Maps.{Began, Finished, GaveUp, Owns};

    type Held = Held;

    ghost began = { Began };

    ghost finished = { Finished };

    ghost gave_up = { GaveUp };

    ghost owns = { Owns };

    /// The call is made, and its reply is held until its position is committed.
    fn begin(&mut self, request: Request) -> Result<Held, Refusal> {
        if self.has_failed {
            return Err(Refusal::Failed);
        }
        let begun = make(&mut self.journal, self.alloc, request);
        self.has_failed = matches!(begun, Err(Refusal::Failed));
        begun
    }

    /// The first call of a row that is finished commits all that were begun.
    fn may_finish(&self, held: &Held) -> bool {
        held.position().number() <= self.journal.keeper().committed()
    }

    fn finish(&mut self, held: Held) -> Result<Reply, Refusal> {
        if self.has_failed {
            return Err(Refusal::Failed);
        }
        let answer = end(self.rt, &mut self.journal, held);
        self.has_failed = matches!(answer, Err(Refusal::Failed));
        answer
    }

    fn give_up(&mut self, held: Held) {
        held.give_up();
    }
}
