//! Turns of the log that a thread makes which waits for them, beside the loop of the log, and changes
//! that nobody waits for.

use crate::begun::begin_put;
use crate::maps::{Flag, open};
use disk_model::MemDisk;
use durable_map::{DurableMap, Ends, flush_loop};
use map_types::Refusal;
use std::alloc::Global;
use std::sync::Wait;
use std::thread;
use std::thread::join;
use std::time::{Clock, Duration};
use stripe_locks::Held;

/// How often it is looked whether a change is durable, each time after a millisecond.
const MOST_LOOKS: u32 = 20_000;

/// How many changes are made until a thread has made the turns of one by itself.
const MOST_PUTS: u32 = 2_000;

/// Goes on for ever.
#[derive(Drop)]
struct Endless;

impl Ends for Endless {
    fn has_ended(&self) -> bool {
        false
    }
}

/// Whether what is held becomes durable, though nobody asks for it.
fn comes<R: Clock>(rt: &R, map: &DurableMap<MemDisk>, held: &Held) -> bool {
    for _look in 0..MOST_LOOKS {
        if map.may_finish(held) {
            return true;
        }
        thread::sleep(rt, Duration::from_millis(1));
    }
    false
}

/// Begins a put while the loop of the log sleeps. It says whether it becomes durable.
fn put_and_leave<R: Clock + Wait>(
    rt: &R,
    map: &DurableMap<MemDisk>,
    alloc: Global,
) -> Result<bool, Refusal> {
    let mut pass = map.pass()?;
    let first = begin_put(rt, map, &mut pass, alloc, 1)?;
    let _reply = map.finish(rt, &mut pass, first)?;
    let left = begin_put(rt, map, &mut pass, alloc, 2)?;
    Ok(comes(rt, map, &left))
}

/// The same, and then the loop is to end.
fn leave_and_end<R: Clock + Wait>(
    rt: &R,
    map: &DurableMap<MemDisk>,
    alloc: Global,
    flag: &Flag,
) -> Result<bool, Refusal> {
    let is_committed = put_and_leave(rt, map, alloc);
    flag.raise();
    is_committed
}

#[test]
fn a_change_that_nobody_finishes_is_committed(rt: HostRuntime) -> Result<(), Refusal> {
    let alloc = rt.alloc();
    let map = open(alloc, 16)?;
    let flag = Flag::new();
    let (_, called) = join(
        &rt,
        || flush_loop(&rt, &map, &flag),
        || leave_and_end(&rt, &map, alloc, &flag),
    );
    assert!(rt; called?, "the change was not committed in time");
    Ok(())
}

/// Begins a put with a pass of its own, and makes the turns of the log if its loop rests. It says whether
/// it made them, and the put is finished in any case.
fn put_and_lead<R: Wait>(
    rt: &R,
    map: &DurableMap<MemDisk>,
    alloc: Global,
) -> Result<bool, Refusal> {
    let mut pass = map.pass()?;
    let put = begin_put(rt, map, &mut pass, alloc, 1)?;
    let is_led = map.try_flush(put.position(), &Endless)? && map.may_finish(&put);
    map.wake_log();
    let _reply = map.finish(rt, &mut pass, put)?;
    Ok(is_led)
}

/// Puts until the turns of one were made without the loop.
fn lead_once<R: Wait>(rt: &R, map: &DurableMap<MemDisk>, alloc: Global) -> Result<bool, Refusal> {
    for _put in 0..MOST_PUTS {
        if put_and_lead(rt, map, alloc)? {
            return Ok(true);
        }
    }
    Ok(false)
}

/// The same, and then the loop is to end.
fn lead_and_end<R: Wait>(
    rt: &R,
    map: &DurableMap<MemDisk>,
    alloc: Global,
    flag: &Flag,
) -> Result<bool, Refusal> {
    let is_led = lead_once(rt, map, alloc);
    flag.raise();
    is_led
}

#[test]
fn a_thread_that_waits_makes_the_turns_of_the_log(rt: HostRuntime) -> Result<(), Refusal> {
    let alloc = rt.alloc();
    let map = open(alloc, 16)?;
    let flag = Flag::new();
    let (_, called) = join(
        &rt,
        || flush_loop(&rt, &map, &flag),
        || lead_and_end(&rt, &map, alloc, &flag),
    );
    assert!(rt; called?, "the turns were never made without the loop");
    Ok(())
}
