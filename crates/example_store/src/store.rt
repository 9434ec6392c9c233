//! The map of a directory: it is opened, its loops run on threads, and calls are made.

use disk_model::{DirDisk, Disk, Unknown};
use durable_map::{DurableMap, Ends, checkpoint_loop, flush_loop};
use java_hash::StripeCount;
use map_types::{Func, Key, Refusal, Reply, Value};
use recovery::{format, open_parts};
use std::alloc::Global;
use std::fs::File;
use std::rt::Files;
use std::sync::Wait;
use std::sync::atomic::{AtomicBool, Ordering};
use std::thread;
use std::thread::Threads;
use std::time::Clock;

/// The length of the log that begins a checkpoint.
const LOG_BYTES: u64 = 67_108_864;

/// Tells the loops when to end.
#[derive(Drop)]
struct Ending {
    has_ended: AtomicBool,
}

impl Ends for Ending {
    fn has_ended(&self) -> bool {
        self.has_ended.load(Ordering::SeqCst)
    }
}

/// Opens the directory, which is made that of an empty map if none is there.
pub fn open<R: Files<File = File>>(
    rt: &R,
    alloc: Global,
    directory: &str,
) -> Result<DurableMap<DirDisk<Unknown>>, Refusal> {
    let stripes = StripeCount::new(16).ok_or(Refusal::WrongPhase)?;
    let Ok(mut disk) = DirDisk::create(rt, alloc, directory, Unknown) else {
        return Err(Refusal::Failed);
    };
    match format(alloc, &mut disk, stripes) {
        Ok(()) | Err(Refusal::AlreadyFormatted) => {}
        Err(refusal) => return Err(refusal),
    }
    let Ok((keeper, parts, first, limit)) = open_parts(alloc, disk, stripes) else {
        return Err(Refusal::Failed);
    };
    match DurableMap::new(alloc, keeper, parts, first, limit) {
        Ok(map) => Ok(map),
        Err((_disk, refusal)) => Err(refusal),
    }
}

/// Puts 5 in stock and takes 2 out. Each call returns once it is durable.
fn sell<D: Disk + Drop, R: Wait>(
    rt: &R,
    alloc: Global,
    map: &DurableMap<D>,
) -> Result<i64, Refusal> {
    let mut pass = map.pass()?;
    let stock = Key::new(alloc, "stock")?;
    let _before = map.put(rt, &mut pass, stock, Value::Int(5))?;
    let stock = Key::new(alloc, "stock")?;
    match map.merge(rt, &mut pass, stock, Func::Sum, Value::Int(-2))? {
        Reply::Now(Some(Value::Int(left))) => Ok(left),
        _ => Err(Refusal::WrongPhase),
    }
}

/// Runs both loops on threads of their own while the calls are made.
pub fn run<D: Disk + Drop + Send, R: Clock + Threads + Wait + Sync>(
    rt: &R,
    alloc: Global,
    map: &DurableMap<D>,
) -> Result<i64, Refusal> {
    let ending = &Ending {
        has_ended: AtomicBool::new(false),
    };
    thread::scope(thread::scope_env(), rt, |scope| {
        let flusher = scope.spawn(move || flush_loop(rt, map, ending));
        let keeper = scope.spawn(move || checkpoint_loop(rt, map, LOG_BYTES, ending));
        let left = if flusher.is_ok() && keeper.is_ok() {
            sell(rt, alloc, map)
        } else {
            Err(Refusal::NoMemory)
        };
        ending.has_ended.store(true, Ordering::SeqCst);
        left
    })
}
