//! A store that is closed, or in a life.
ghost use Rattle.std.specs.Prelude.{◌≡◌, ◌+◌, ℕ, List, [], Option, Some, true, false, IfOk, IfSome, length};
ghost use Rattle.java_hash.specs.declared.stripe_count.StripeCount.{StripeCount as StripesOf};
ghost use Rattle.ticket_order.specs.declared.record.Record.{Record};
ghost use Rattle.one_history.specs.Turns.{opening_of};
ghost use Rattle.disk_model.specs.Files.{Files};
ghost use Rattle.disk_model.specs.Fills.{after_stop};
ghost use Rattle.disk_model.specs.Memory.{memory_failures};
ghost use Rattle.file_pieces.specs.Counting.{Made, MadeAtMost};
ghost use Rattle.store_layout.specs.Calls.{opening_calls};
ghost use Rattle.store_layout.specs.Opening.{Holds, Opened, Refuses};
ghost use Rattle.flusher.specs.Fitting.{Fits, IsUnused};
ghost use Rattle.recovery.specs.Dividing.{ArePartsOf};
ghost use Rattle.recovery.specs.LogReading.{contents_of, RefusesFor};
ghost use Rattle.recovery.specs.Opening.{IsAtStart, IsOpenedAs};
ghost use Rattle.recovery.specs.Syncing.{Stopped, SyncsAndLooks};
ghost use Rattle.sim_rules.specs.Cases as cases;
ghost use Rattle.sim_rules.specs.World.{World};
ghost use Rattle.sim_rules.specs.After.{without_life};
ghost use Rattle.sim_rules.specs.declared.event.Event.TheVariants as event;
ghost use Rattle.schedule_sim.specs.Living.{IsLife, is_of_life};
ghost use Rattle.schedule_sim.specs.Opening.{LastFails, TellsCalls};
ghost use Rattle.schedule_sim.specs.Storing.{DidStore, IsClosed, IsStore, LiesOn, StandsNow};
ghost use Rattle.schedule_sim.specs.Tracing.{traced_states, traced_honest};

use crate::entries::entries_of;
use crate::life::Life;
use crate::traced::Traced;
use atomic_methods::Part;
use checkpoint_walk::laws as walk_laws;
use disk_model::Fill;
use flusher::Keeper;
use java_hash::StripeCount;
use map_model::laws as map_laws;
use map_types::Refusal;
use recovery::open_parts;
use sim_keeper::laws as keeper_laws;
use sim_rules::{DeviceCall, Event, Outcome, Side, laws as rule_laws};
use std::alloc::{AllocError, Global};

#[derive(Drop)]
pub(crate) enum Store {
    Closed(Traced),
    Open(Life),
}

/// Has the call with this number fail, counted from 1; or none. A failing call of an opening reads or
/// syncs, and the fill has no effect.
fn plan_opening(disk: &mut Traced, fails_at: Option<u64>) -> Result<(), AllocError>
    ensures { traced_states disk.new ≡ traced_states disk.old }
{
    match fails_at {
        Some(number) if number > 0 => disk.plan(number - 1, &Fill::New),
        _ => {
            disk.plan_none();
            Ok(())
        }
    }
}

/// How many calls were made since there were `before` of them.
fn calls_since(disk: &Traced, before: Option<u64>) -> Result<u64, AllocError>
    ensures { (old : List Files) → IfSome before (λ n. n ≡ length old)
        → IfOk result (λ n. length old + n ≡ length (traced_states disk.now)) }
{
    let now = disk.calls().ok_or(AllocError)?;
    let before = before.ok_or(AllocError)?;
    now.checked_sub(before).ok_or(AllocError)
}

/// Whether the event names one of the first `calls` calls.
fn names_within(fails_at: Option<u64>, calls: u64) -> bool
    ensures { result ≡ cases.names_within fails_at calls }
{
    match fails_at {
        Some(number) => 0 < number && number <= calls,
        None => false,
    }
}

/// Whether an opening that failed did so at the call that its event names, as the last of `calls`
/// calls.
fn is_last(disk: &Traced, fails_at: Option<u64>, calls: u64) -> bool
    ensures { result ≡ true → (fails_at ≡ Some calls) × LastFails calls (traced_states disk.now) }
{
    match fails_at {
        Some(number) if number == calls => calls > 4 || disk.has_lost_sync(),
        _ => false,
    }
}

/// The store stays closed. No contract of a disk tells which of its calls failed, so this counts
/// them. If they aren't as the event has it, memory was missing.
fn refused(
    disk: Traced,
    refusal: Refusal,
    calls: u64,
    fails_at: Option<u64>,
) -> Result<(Store, Outcome), AllocError>
    ensures did { IfOk result (λ x. (w : World) (least : ℕ) (stripes : StripesOf) (old : Traced)
        → length (traced_states old) + calls ≡ length (traced_states disk)
        → ((found : Opened) → Holds (contents_of traced_states old) found
        → MadeAtMost traced_states (opening_calls (contents_of traced_states old) found) old disk)
        → Stopped traced_states (λ traced. memory_failures traced.disk) traced_honest 4 old disk
        refusal → RefusesFor (Refuses (contents_of traced_states old) refusal) refusal
        → IsClosed w least old → DidStore w least (event.Open stripes fails_at) x.1 x.0) }
    ensures told { (old : Traced) → length (traced_states old) + calls ≡ length (traced_states disk)
        → IfOk result (λ x. TellsCalls old x) }
{
    rule_laws::steps_between_lives();
    let is_told = match refusal {
        Refusal::Failed => is_last(&disk, fails_at, calls),
        _ => !names_within(fails_at, calls),
    };
    if is_told {
        Ok((Store::Closed(disk), Outcome::NotOpened { calls, refusal }))
    } else {
        Err(AllocError)
    }
}

/// A life begins with what the opening found.
fn begun(
    alloc: Global,
    keeper: Keeper<Traced>,
    stripes: StripeCount,
    parts: Vec<Part>,
    first: u64,
    limit: u16,
    calls: u64,
) -> Result<(Store, Outcome), AllocError>
    requires parts { ArePartsOf stripes.count parts.items }
    requires fits { (p : Record) → p.opening ≡ opening_of first parts.items limit
        → IsUnused first limit p → Fits traced_states traced_honest stripes.count [] keeper p }
    requires start { IsAtStart stripes first keeper }
    ensures did { IfOk result (λ x. (w : World) (least : ℕ) (fails_at : Option ℕ) (old : Traced)
        → cases.names_within fails_at calls ≡ false
        → length (traced_states old) + calls ≡ length (traced_states keeper.disk)
        → ((found : Opened) → Holds (contents_of traced_states old) found
        → Made traced_states (opening_calls (contents_of traced_states old) found) old keeper.disk)
        → SyncsAndLooks traced_states (λ traced. memory_failures traced.disk) traced_honest 4 0 old
        keeper.disk → IsOpenedAs (contents_of traced_states old) stripes.count keeper parts.items
        first limit → IsClosed w least old
        → DidStore w least (event.Open stripes fails_at) x.1 x.0) }
    ensures told { (old : Traced) → length (traced_states old) + calls
        ≡ length (traced_states keeper.disk) → IfOk result (λ x. TellsCalls old x) }
{
    rule_laws::steps_between_lives();
    map_laws::laws_of_parts();
    let entries = entries_of(alloc, &parts)?;
    let life = Life::new(alloc, keeper, stripes, parts, first, limit)?;
    let outcome = Outcome::Opened {
        calls,
        prefix: first,
        entries,
    };
    Ok((Store::Open(life), outcome))
}

/// Opens the store that is on the disk. If an opening went past the call that its event names,
/// memory was missing.
fn opened(
    alloc: Global,
    mut disk: Traced,
    stripes: StripeCount,
    fails_at: Option<u64>,
) -> Result<(Store, Outcome), AllocError>
    ensures did { IfOk result (λ x. (w : World) (least : ℕ) → IsClosed w least disk
        → DidStore w least (event.Open stripes fails_at) x.1 x.0) }
    ensures told { IfOk result (λ x. TellsCalls disk x) }
{
    plan_opening(&mut disk, fails_at)?;
    let before = disk.calls();
    match open_parts(alloc, disk, stripes) {
        Ok((keeper, parts, first, limit)) => {
            let calls = calls_since(&keeper.disk, before)?;
            if names_within(fails_at, calls) {
                return Err(AllocError);
            }
            begun(alloc, keeper, stripes, parts, first, limit, calls)
        }
        Err((disk, refusal)) => {
            let calls = calls_since(&disk, before)?;
            refused(disk, refusal, calls, fails_at)
        }
    }
}

/// The machine stops, within this device call if one is named.
fn stopped(
    mut disk: Traced,
    within: Option<DeviceCall>,
    fill: &Fill,
) -> Result<(Store, Outcome), AllocError>
    ensures store { IfOk result (λ x. (w : World) (least : ℕ) → LiesOn w least disk
        → IsStore (without_life w (after_stop fill.now w.files)) least x.0) }
    ensures outcome { IfOk result (λ x. x.1 ≡ Outcome.Stopped within) }
{
    disk.stop(fill)?;
    Ok((Store::Closed(disk), Outcome::Stopped { within }))
}

/// The machine stops within the next device call of this side.
fn stopped_within(mut life: Life, side: Side, fill: &Fill) -> Result<(Store, Outcome), AllocError>
    requires { (w : World) × IsLife w life }
    ensures { IfOk result (λ x. (w : World) (least : ℕ) → IsStore w least (Store.Open life)
        → DidStore w least (event.Stop (Some side) fill.now) x.1 x.0) }
{
    if !life.may_call(side) {
        return Ok((Store::Open(life), Outcome::Skipped));
    }
    let call = life.interrupt(side)?;
    stopped(life.into_disk(), Some(call), fill)
}

impl Store {
    fn into_disk(self) -> Traced
        ensures { (w : World) (least : ℕ) → IsStore w least self → LiesOn w least result }
    {
        match self {
            Store::Closed(disk) => disk,
            Store::Open(life) => life.into_disk(),
        }
    }

    /// Whatever a stop may leave now, and what is read, stands for a front of the history as it has to.
    pub(crate) fn stands_for_a_front(&self)
        ensures { (w : World) (least : ℕ) → IsStore w least self.now → StandsNow w least }
    {
        rule_laws::laws_of_known_histories();
        keeper_laws::laws_of_telling::<Traced>();
        match self {
            Store::Closed(_disk) => {}
            Store::Open(life) => walk_laws::stops_while_capturing(&life.keeper),
        }
    }

    /// Whether memory was missing for a device call.
    pub(crate) fn is_short(&self) -> bool {
        match self {
            Store::Closed(disk) => disk.is_short(),
            Store::Open(life) => life.keeper.disk.is_short(),
        }
    }

    fn open(
        self,
        alloc: Global,
        stripes: StripeCount,
        fails_at: Option<u64>,
    ) -> Result<(Store, Outcome), AllocError>
        ensures { IfOk result (λ x. (w : World) (least : ℕ) → IsStore w least self
            → DidStore w least (event.Open stripes fails_at) x.1 x.0) }
    {
        match self {
            Store::Closed(disk) => opened(alloc, disk, stripes, fails_at),
            Store::Open(life) => Ok((Store::Open(life), Outcome::Skipped)),
        }
    }

    fn stop_within(self, side: Side, fill: &Fill) -> Result<(Store, Outcome), AllocError>
        requires { (w : World) × (least : ℕ) × IsStore w least self }
        ensures { IfOk result (λ x. (w : World) (least : ℕ) → IsStore w least self
            → DidStore w least (event.Stop (Some side) fill.now) x.1 x.0) }
    {
        match self {
            Store::Open(life) => stopped_within(life, side, fill),
            Store::Closed(disk) => Ok((Store::Closed(disk), Outcome::Skipped)),
        }
    }

    fn stop(self, within: Option<Side>, fill: &Fill) -> Result<(Store, Outcome), AllocError>
        requires { (w : World) × (least : ℕ) × IsStore w least self }
        ensures { IfOk result (λ x. (w : World) (least : ℕ) → IsStore w least self
            → DidStore w least (event.Stop within fill.now) x.1 x.0) }
    {
        match within {
            Some(side) => self.stop_within(side, fill),
            None => stopped(self.into_disk(), None, fill),
        }
    }

    fn leave(self) -> (Store, Outcome)
        ensures { (w : World) (least : ℕ) → IsStore w least self
            → DidStore w least event.Leave result.1 result.0 }
    {
        match self {
            Store::Open(life) => (Store::Closed(life.into_disk()), Outcome::Left),
            Store::Closed(disk) => (Store::Closed(disk), Outcome::Skipped),
        }
    }

    fn go_on(self, event: &Event) -> Result<(Store, Outcome), AllocError>
        requires { (w : World) × (least : ℕ) × IsStore w least self }
        ensures { IfOk result (λ x. (w : World) (least : ℕ) → IsStore w least self
            → is_of_life event.now ≡ true → DidStore w least event.now x.1 x.0) }
    {
        match self {
            Store::Open(mut life) => {
                let outcome = life.happen(event)?;
                Ok((Store::Open(life), outcome))
            }
            Store::Closed(disk) => Ok((Store::Closed(disk), Outcome::Skipped)),
        }
    }

    /// The store after the event, and what came of it.
    pub(crate) fn happen(self, alloc: Global, event: &Event) -> Result<(Store, Outcome), AllocError>
        requires { (w : World) × (least : ℕ) × IsStore w least self }
        ensures { IfOk result (λ x. (w : World) (least : ℕ) → IsStore w least self
            → DidStore w least event.now x.1 x.0) }
    {
        match event {
            Event::Old => Ok((self, Outcome::Skipped)),
            Event::Open { stripes, fails_at } => self.open(alloc, *stripes, *fails_at),
            Event::Stop { within, fill } => self.stop(*within, fill),
            Event::Leave => Ok(self.leave()),
            _ => self.go_on(event),
        }
    }
}
