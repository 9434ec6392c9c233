//! The running store over a directory of the system, with each of its loops on a thread of its own.
ghost use Rattle.std.specs.Prelude.{IfOk};
ghost use Rattle.durable_map.specs.Maps.{IsHeldOf, IsReady};

use crate::maps::{Flag, map_over};
use disk_model::{DirDisk, Disk, Unknown};
use durable_map::{DurableMap, checkpoint_loop, flush_loop};
use java_hash::StripeCount;
use map_types::{Key, Refusal, Reply, Value};
use recovery::format;
use std::alloc::Global;
use std::fs::File;
use std::io::Read;
use std::rt::Files;
use std::sync::Wait;
use std::test::Fail;
use std::thread::Threads;
use std::time::{Clock, Duration};
use std::{fs, thread};
use stripe_locks::{Held, Pass, Released};

/// How many turns are waited at most, each of a millisecond.
const MOST_TURNS: u32 = 10_000;

/// The length of the log of one put, so that the put begins a checkpoint.
const LOG_BYTES: u64 = 48;

/// The map of a directory, which is made that of an empty map.
fn new_map(rt: &HostRuntime, directory: &str) -> Result<DurableMap<DirDisk<Unknown>>, Fail> {
    let alloc = rt.alloc();
    let count = StripeCount::new(16).ok_or(Refusal::WrongPhase)?;
    let mut disk = DirDisk::create(rt, alloc, directory, Unknown)?;
    format(alloc, &mut disk, count)?;
    Ok(map_over(alloc, disk, count)?)
}

/// The position and the reply, once the position is durable.
fn released_in_time<D: Disk + Drop, C: Clock>(
    clock: &C,
    map: &DurableMap<D>,
    pass: &mut Pass,
    held: Held,
) -> Option<(u64, Reply)>
    requires ready { IsReady map.now pass.old }
    requires held { IsHeldOf map.now held }
{
    let mut waiting = held;
    for _turn in 0..MOST_TURNS {
        match map.release(pass, waiting) {
            Released::Reply(position, reply) => return Some((position.number(), reply)),
            Released::NotYet(held) => waiting = held,
            Released::Failed => return None,
        }
        thread::sleep(clock, Duration::from_millis(1));
    }
    None
}

/// Whether the file begins with an open gate.
fn is_sealed<R: Files<File = File>>(rt: &R, path: &str) -> bool {
    let Ok(mut file) = File::open(rt, path) else {
        return false;
    };
    let mut gate = [0u8; 1];
    file.read_exact(&mut gate).is_ok() && gate[0] == 0xA5
}

/// The same, in time.
fn is_sealed_in_time<R: Clock + Files<File = File>>(rt: &R, path: &str) -> bool {
    for _turn in 0..MOST_TURNS {
        if is_sealed(rt, path) {
            return true;
        }
        thread::sleep(rt, Duration::from_millis(1));
    }
    false
}

/// A put and a get of one key, whose reply isn't released before the put is durable.
fn put_and_get(
    map: &DurableMap<DirDisk<Unknown>>,
    pass: &mut Pass,
    alloc: Global,
) -> Result<Held, Fail>
    requires ready { IsReady map.now pass.old }
    ensures held { IfOk result (IsHeldOf map.now) }
    ensures ready { IsReady map.now pass.new }
{
    let _put = map.try_put(pass, Key::new(alloc, "k")?, Value::Int(1))?;
    let held = map.try_get(pass, Key::new(alloc, "k")?)?;
    match map.release(pass, held) {
        Released::NotYet(held) => Ok(held),
        Released::Reply(..) | Released::Failed => Err(Fail::from("nothing is durable")),
    }
}

/// Each loop runs on a thread of its own until the read is released and a checkpoint is sealed.
fn run_both<D: Disk + Drop + Send, R: Clock + Files<File = File> + Threads + Wait + Sync>(
    rt: &R,
    map: &DurableMap<D>,
    pass: &mut Pass,
    held: Held,
    flag: &Flag,
) -> (Option<(u64, Reply)>, bool)
    requires ready { IsReady map.now pass.old }
    requires held { IsHeldOf map.now held }
{
    thread::scope(
        thread::scope_env(),
        rt,
        |scope|
            requires { IsReady map.now pass.now × IsHeldOf map.now held }
        {
            let flusher = scope.spawn(move || flush_loop(rt, map, flag));
            let keeper = scope.spawn(move || checkpoint_loop(rt, map, LOG_BYTES, flag));
            let released = released_in_time(rt, map, pass, held);
            let sealed = flusher.is_ok()
                && keeper.is_ok()
                && is_sealed_in_time(rt, "running/ckpt-b");
            flag.raise();
            (released, sealed)
        },
    )
}

#[test]
fn a_read_waits_for_its_put_and_a_checkpoint_follows(rt: HostRuntime) -> Result<(), Fail> {
    let alloc = rt.alloc();
    let _ = fs::remove_dir_all(&rt, "running");
    fs::create_dir(&rt, "running")?;
    let map = new_map(&rt, "running")?;
    let mut pass = map.pass()?;
    let held = put_and_get(&map, &mut pass, alloc)?;
    let (released, sealed) = run_both(&rt, &map, &mut pass, held, &Flag::new());
    assert_eq!(rt; released, Some((1, Reply::Now(Some(Value::Int(1))))));
    assert!(rt; sealed, "no checkpoint was sealed in time");
    fs::remove_dir_all(&rt, "running")?;
    Ok(())
}
