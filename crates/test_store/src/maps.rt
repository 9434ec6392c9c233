//! A running map in memory, whose changes are committed when a test says so.
ghost use Rattle.durable_map.specs.Maps.{IsReady};

use disk_model::{Disk, Failure, MemDisk};
use durable_map::{DurableMap, Ends, flush_loop};
use java_hash::StripeCount;
use map_types::{Key, Refusal, Value};
use recovery::{format, open_parts};
use std::alloc::Global;
use std::sync::Wait;
use std::sync::atomic::{AtomicBool, AtomicU32, Ordering};
use stripe_locks::Pass;

/// A batch has four device calls, and a turn before them takes up what was changed.
const TURNS_OF_A_BATCH: u32 = 5;

/// Ends a loop after `left` turns.
#[derive(Drop)]
struct Turns {
    left: AtomicU32,
}

impl Ends for Turns {
    fn has_ended(&self) -> bool {
        let left = self.left.load(Ordering::SeqCst);
        self.left.store(left.saturating_sub(1), Ordering::SeqCst);
        left == 0
    }
}

/// Ends the loops once a test has made its calls.
#[derive(Drop)]
pub(crate) struct Flag {
    is_up: AtomicBool,
}

impl Flag {
    pub(crate) fn new() -> Flag {
        Flag {
            is_up: AtomicBool::new(false),
        }
    }

    pub(crate) fn raise(&self) {
        self.is_up.store(true, Ordering::SeqCst);
    }
}

impl Ends for Flag {
    fn has_ended(&self) -> bool {
        self.is_up.load(Ordering::SeqCst)
    }
}

/// The map of a disk that was formatted.
pub(crate) fn map_over<D: Disk + Drop>(
    alloc: Global,
    disk: D,
    count: StripeCount,
) -> Result<DurableMap<D>, Refusal> {
    let Ok((keeper, parts, first, limit)) = open_parts(alloc, disk, count) else {
        return Err(Refusal::Failed);
    };
    match DurableMap::new(alloc, keeper, parts, first, limit) {
        Ok(map) => Ok(map),
        Err((_disk, refusal)) => Err(refusal),
    }
}

/// A disk that was made that of an empty map.
fn formatted(alloc: Global, count: StripeCount) -> Result<MemDisk, Refusal> {
    let mut disk = MemDisk::new(alloc);
    format(alloc, &mut disk, count)?;
    Ok(disk)
}

/// A map with no entries, over a disk that fails as planned from the opening on.
pub(crate) fn open_over(
    alloc: Global,
    stripes: u16,
    failure: Option<Failure>,
) -> Result<DurableMap<MemDisk>, Refusal> {
    let count = StripeCount::new(stripes).ok_or(Refusal::WrongPhase)?;
    let mut disk = formatted(alloc, count)?;
    disk.plan(failure);
    map_over(alloc, disk, count)
}

/// A map with no entries.
pub(crate) fn open(alloc: Global, stripes: u16) -> Result<DurableMap<MemDisk>, Refusal> {
    open_over(alloc, stripes, None)
}

/// Commits what was changed so far.
pub(crate) fn commit<R: Wait>(rt: &R, map: &DurableMap<MemDisk>) {
    let turns = Turns {
        left: AtomicU32::new(TURNS_OF_A_BATCH),
    };
    let _end = flush_loop(rt, map, &turns);
}

/// A put, which isn't committed yet.
pub(crate) fn put(
    map: &DurableMap<MemDisk>,
    pass: &mut Pass,
    alloc: Global,
    key: &str,
    value: Value,
) -> Result<(), Refusal>
    requires { IsReady map.now pass.old }
    ensures { IsReady map.now pass.new }
{
    let _held = map.try_put(pass, Key::new(alloc, key)?, value)?;
    Ok(())
}
