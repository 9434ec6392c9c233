//! A map in memory with as many entries as are asked for, and one thread's calls on it.
ghost use Rattle.std.specs.Prelude.{◌≡◌, None};
ghost use Rattle.std.specs.Coded.{Coded-set, coded_option};
ghost use Rattle.ticket_order.specs.contracts.record.Holding.{the_row as row};
ghost use Rattle.stripe_locks.specs.Passes.{recorded};
ghost use Rattle.durable_map.specs.Maps.{IsPassOf};

use crate::turns::Turns;
use disk_model::MemDisk;
use durable_map::{DurableMap, flush_loop};
use java_hash::StripeCount;
use map_types::{Func, Key, Refusal, Value};
use recovery::{format, open_parts};
use std::alloc::Global;
use std::sync::Wait;
use stripe_locks::Pass;

/// How many entries are put before they are committed. Their records have 21 bytes each, so that one
/// batch, which has at most 1,048,576 bytes, takes them.
const ENTRIES_OF_A_BATCH: u32 = 40_000;

/// The count of stripes that each map has.
pub(crate) fn sixteen() -> StripeCount {
    let Some(count) = StripeCount::new(16) else {
        unreachable!()
    };
    count
}

/// The key of a number.
fn key_of(alloc: Global, number: u32) -> Result<Key, Refusal> {
    let text = format!(in alloc; "key{number:07}")?;
    Key::new(alloc, text.as_str())
}

/// A map, and the pass of one thread. Between two of its calls it holds no stripe.
#[derive(Drop)]
pub(crate) struct MapCaller<'a> {
    pub alloc: Global,
    pub map: &'a DurableMap<MemDisk>,
    pub pass: Pass,
    ghost own: { IsPassOf map.now pass },
    ghost idle: { (recorded pass).holding ≡ None } by { Coded-set (coded_option row.coded) _ _ },
}

impl<'a> MapCaller<'a> {
    /// A caller with a new pass of this map.
    pub(crate) fn new(
        alloc: Global,
        map: &'a DurableMap<MemDisk>,
    ) -> Result<MapCaller<'a>, Refusal> {
        let pass = map.pass()?;
        Ok(MapCaller { alloc, map, pass })
    }

    /// Puts the value of the key of this number. It isn't committed yet.
    fn put(&mut self, number: u32, value: u32) -> Result<(), Refusal> {
        let key = key_of(self.alloc, number)?;
        let value = Value::Int(i64::from(value));
        self.map.try_put(&mut self.pass, key, value)?.give_up();
        Ok(())
    }

    /// Commits what was put. It is one batch.
    fn commit<R: Wait>(&self, rt: &R) -> Result<(), Refusal> {
        flush_loop(rt, self.map, &Turns::of_a_batch())
    }

    /// Adds the amount to the value of the key of this number, and returns once that is durable.
    pub(crate) fn add<R: Wait>(&mut self, rt: &R, number: u32, amount: u32) -> Result<(), Refusal> {
        let key = key_of(self.alloc, number)?;
        let amount = Value::Int(i64::from(amount));
        self.map.merge(rt, &mut self.pass, key, Func::Sum, amount)?;
        Ok(())
    }
}

/// What a map is filled with.
#[derive(Clone, Copy)]
pub(crate) struct Filling {
    pub entries: u32,
    /// The values are the numbers below this one, again and again.
    pub values: u32,
}

impl Filling {
    /// Puts the entries from the first one on that one batch takes.
    fn put_batch(self, caller: &mut MapCaller<'_>, first: u32) -> Result<(), Refusal> {
        let end = first.saturating_add(ENTRIES_OF_A_BATCH).min(self.entries);
        for number in first..end {
            caller.put(number, number % self.values.max(1))?;
        }
        Ok(())
    }

    /// Puts all entries, which are durable then.
    fn fill<R: Wait>(
        self,
        rt: &R,
        alloc: Global,
        map: &DurableMap<MemDisk>,
    ) -> Result<(), Refusal> {
        let mut caller = MapCaller::new(alloc, map)?;
        for batch in 0..self.entries.div_ceil(ENTRIES_OF_A_BATCH) {
            self.put_batch(&mut caller, batch.saturating_mul(ENTRIES_OF_A_BATCH))?;
            caller.commit(rt)?;
        }
        Ok(())
    }

    /// A map with these entries, all of which are durable.
    pub(crate) fn filled<R: Wait>(
        self,
        rt: &R,
        alloc: Global,
    ) -> Result<DurableMap<MemDisk>, Refusal> {
        let map = empty(alloc)?;
        self.fill(rt, alloc, &map)?;
        Ok(map)
    }
}

fn empty(alloc: Global) -> Result<DurableMap<MemDisk>, Refusal> {
    let mut disk = MemDisk::new(alloc);
    format(alloc, &mut disk, sixteen())?;
    let Ok((keeper, parts, first, limit)) = open_parts(alloc, disk, sixteen()) else {
        return Err(Refusal::Failed);
    };
    match DurableMap::new(alloc, keeper, parts, first, limit) {
        Ok(map) => Ok(map),
        Err((_disk, refusal)) => Err(refusal),
    }
}
