//! Keys above the limit of a running map, whose directory is of version 01.
ghost use Rattle.durable_map.specs.Maps.{IsReady};

use crate::maps::{Flag, map_over};
use disk_model::MemDisk;
use durable_map::{DurableMap, flush_loop};
use java_hash::StripeCount;
use log_records::Version;
use map_types::{Key, Refusal, Value};
use recovery::format_as;
use std::alloc::Global;
use std::sync::Wait;
use std::thread::join;
use stripe_locks::Pass;

fn open_old(alloc: Global) -> Result<DurableMap<MemDisk>, Refusal> {
    let count = StripeCount::new(16).ok_or(Refusal::WrongPhase)?;
    let mut disk = MemDisk::new(alloc);
    format_as(alloc, &mut disk, count, Version::First)?;
    map_over(alloc, disk, count)
}

/// The key of this many bytes, each an `x`.
fn key_of(alloc: Global, bytes: usize) -> Result<Key, Refusal> {
    let mut text = String::new(alloc);
    for _ in 0..bytes {
        text.push('x')?;
    }
    Key::new(alloc, text.as_str())
}

/// The number of the refusal, or 0.
fn number_of<T: Drop>(answer: Result<T, Refusal>) -> u8 {
    match answer {
        Ok(_) => 0,
        Err(refusal) => refusal.number(),
    }
}

/// What a put of a key of this many bytes comes to, tried and waited for, and then a get of it.
fn call_with<R: Wait>(
    rt: &R,
    map: &DurableMap<MemDisk>,
    pass: &mut Pass,
    alloc: Global,
    bytes: usize,
) -> Result<[u8; 3], Refusal>
    requires { IsReady map.now pass.old }
    ensures { IsReady map.now pass.new }
{
    let tried = number_of(map.try_put(pass, key_of(alloc, bytes)?, Value::Int(1)));
    let put = number_of(map.put(rt, pass, key_of(alloc, bytes)?, Value::Int(2)));
    let got = number_of(map.get(rt, pass, key_of(alloc, bytes)?));
    Ok([tried, put, got])
}

/// What comes of calls with keys of 256 and of 255 bytes, and how many tickets are drawn.
fn call_with_both<R: Wait>(
    rt: &R,
    map: &DurableMap<MemDisk>,
    alloc: Global,
) -> Result<([u8; 3], [u8; 3], u64), Refusal> {
    let mut pass = map.pass()?;
    let longer = call_with(rt, map, &mut pass, alloc, 256)?;
    let longest = call_with(rt, map, &mut pass, alloc, 255)?;
    Ok((longer, longest, map.look(&mut pass)))
}

/// The same; then the loop ends.
fn call_and_end<R: Wait>(
    rt: &R,
    map: &DurableMap<MemDisk>,
    alloc: Global,
    flag: &Flag,
) -> Result<([u8; 3], [u8; 3], u64), Refusal> {
    let called = call_with_both(rt, map, alloc);
    flag.raise();
    called
}

/// A change of a key that is too long is refused and draws no ticket; a read of it is served.
#[test]
fn keys_above_the_limit(rt: HostRuntime) -> Result<(), Refusal> {
    let alloc = rt.alloc();
    let map = open_old(alloc)?;
    let flag = Flag::new();
    let (_, called) = join(
        &rt,
        || flush_loop(&rt, &map, &flag),
        || call_and_end(&rt, &map, alloc, &flag),
    );
    assert_eq!(rt; called?, ([2, 2, 0], [0, 0, 0], 2));
    Ok(())
}
