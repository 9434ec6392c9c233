//! The calls of a running map, on threads beside its loops.
ghost use Rattle.std.specs.Prelude.{IfOk};
ghost use Rattle.durable_map.specs.Maps.{IsHeldOf, IsReady};

use crate::maps::{Flag, commit, open};
use disk_model::MemDisk;
use durable_map::{DurableMap, flush_loop};
use map_types::{Func, Key, Refusal, Reply, Value};
use std::alloc::Global;
use std::sync::Wait;
use std::thread::join;
use stripe_locks::{Held, Pass, Released};

pub(crate) fn key(alloc: Global, text: &str) -> Result<Key, Refusal> {
    Key::new(alloc, text)
}

/// Whether nothing was there before.
pub(crate) fn was_absent(reply: Result<Reply, Refusal>) -> bool {
    matches!(reply, Ok(Reply::Was(None)))
}

/// Whether this number was there before.
pub(crate) fn was(reply: Result<Reply, Refusal>, wanted: i64) -> bool {
    match reply {
        Ok(Reply::Was(Some(Value::Int(number)))) => number == wanted,
        _ => false,
    }
}

/// Whether this number is there now.
pub(crate) fn is_now(reply: Result<Reply, Refusal>, wanted: i64) -> bool {
    match reply {
        Ok(Reply::Now(Some(Value::Int(number)))) => number == wanted,
        _ => false,
    }
}

/// Whether nothing is there now.
pub(crate) fn is_absent_now(reply: Result<Reply, Refusal>) -> bool {
    matches!(reply, Ok(Reply::Now(None)))
}

/// Whether a call answered so.
fn did(reply: Result<Reply, Refusal>, wanted: bool) -> bool {
    match reply {
        Ok(Reply::Did(done)) => done == wanted,
        _ => false,
    }
}

/// Changes of one key, and whether each returns what it should.
fn change_often<R: Wait>(
    rt: &R,
    map: &DurableMap<MemDisk>,
    pass: &mut Pass,
    alloc: Global,
) -> Result<bool, Refusal>
    requires { IsReady map.now pass.old }
    ensures { IsReady map.now pass.new }
{
    let put = was_absent(map.put(rt, pass, key(alloc, "a")?, Value::Int(5)));
    let added = was(
        map.put_if_absent(rt, pass, key(alloc, "a")?, Value::Int(7)),
        5,
    );
    let replaced = was(map.replace(rt, pass, key(alloc, "a")?, Value::Int(6)), 5);
    let old = Value::Int(6);
    let swapped = did(
        map.replace_if(rt, pass, key(alloc, "a")?, old, Value::Int(8)),
        true,
    );
    let removed = did(
        map.remove_if(rt, pass, key(alloc, "a")?, Value::Int(9)),
        false,
    );
    Ok(put && added && replaced && swapped && removed)
}

/// Functions of one key, whose value is 8, and whether each returns what it should.
fn compute_often<R: Wait>(
    rt: &R,
    map: &DurableMap<MemDisk>,
    pass: &mut Pass,
    alloc: Global,
) -> Result<bool, Refusal>
    requires { IsReady map.now pass.old }
    ensures { IsReady map.now pass.new }
{
    let merged = is_now(
        map.merge(rt, pass, key(alloc, "a")?, Func::Sum, Value::Int(2)),
        10,
    );
    let four = Some(Value::Int(4));
    let least = is_now(map.compute(rt, pass, key(alloc, "a")?, Func::Min, four), 4);
    let kept = is_now(
        map.compute_if_absent(rt, pass, key(alloc, "a")?, Func::Drop, None),
        4,
    );
    let nine = Some(Value::Int(9));
    let most = is_now(
        map.compute_if_present(rt, pass, key(alloc, "a")?, Func::Max, nine),
        9,
    );
    let removed = was(map.remove(rt, pass, key(alloc, "a")?), 9);
    Ok(merged && least && kept && most && removed)
}

/// Reads of an absent key, and whether each returns what it should.
fn read_often<R: Wait>(
    rt: &R,
    map: &DurableMap<MemDisk>,
    pass: &mut Pass,
    alloc: Global,
) -> Result<bool, Refusal>
    requires { IsReady map.now pass.old }
    ensures { IsReady map.now pass.new }
{
    let got = is_absent_now(map.get(rt, pass, key(alloc, "a")?));
    let default = is_now(
        map.get_or_default(rt, pass, key(alloc, "a")?, Value::Int(3)),
        3,
    );
    let contained = did(map.contains_key(rt, pass, key(alloc, "a")?), false);
    Ok(got && default && contained)
}

/// Makes all thirteen calls, and ends the loops.
fn call_all<R: Wait>(
    rt: &R,
    map: &DurableMap<MemDisk>,
    alloc: Global,
    flag: &Flag,
) -> Result<bool, Refusal> {
    let mut pass = map.pass()?;
    let changed = change_often(rt, map, &mut pass, alloc);
    let computed = compute_often(rt, map, &mut pass, alloc);
    let read = read_often(rt, map, &mut pass, alloc);
    flag.raise();
    Ok(changed? && computed? && read? && map.look(&mut pass) == 10)
}

#[test]
fn thirteen_calls_answer_once_they_are_durable(rt: HostRuntime) -> Result<(), Refusal> {
    let alloc = rt.alloc();
    let map = open(alloc, 16)?;
    let flag = Flag::new();
    let (_, called) = join(
        &rt,
        || flush_loop(&rt, &map, &flag),
        || call_all(&rt, &map, alloc, &flag),
    );
    assert!(rt;
        called?,
        "a call has another reply, or the position is not 10"
    );
    Ok(())
}

/// Whether what is held is durable, and the reply is this number, which is there now.
fn gives(map: &DurableMap<MemDisk>, pass: &mut Pass, held: Held, wanted: i64) -> bool
    requires ready { IsReady map.now pass.old }
    requires held { IsHeldOf map.now held }
    ensures ready { IsReady map.now pass.new }
{
    match map.release(pass, held) {
        Released::Reply(_, reply) => is_now(Ok(reply), wanted),
        Released::NotYet(_) | Released::Failed => false,
    }
}

pub(crate) fn position(held: Held) -> u64 {
    held.position().number()
}

/// Makes a call of each `try_` form; the keys that are used are in stripes of their own.
fn try_changes(map: &DurableMap<MemDisk>, pass: &mut Pass, alloc: Global) -> Result<u64, Refusal>
    requires { IsReady map.now pass.old }
    ensures { IsReady map.now pass.new }
{
    let one = Value::Int(1);
    let _put = position(map.try_put(pass, key(alloc, "a")?, Value::Int(1))?);
    let _added = position(map.try_put_if_absent(pass, key(alloc, "b")?, one)?);
    let _replaced = position(map.try_replace(pass, key(alloc, "a")?, Value::Int(2))?);
    let two = Value::Int(2);
    let _swapped = position(map.try_replace_if(pass, key(alloc, "a")?, two, Value::Int(3))?);
    let _removed = position(map.try_remove(pass, key(alloc, "b")?)?);
    let last = position(map.try_remove_if(pass, key(alloc, "b")?, Value::Int(1))?);
    Ok(last)
}

fn try_functions(map: &DurableMap<MemDisk>, pass: &mut Pass, alloc: Global) -> Result<u64, Refusal>
    requires { IsReady map.now pass.old }
    ensures { IsReady map.now pass.new }
{
    let one = Some(Value::Int(1));
    let _computed = position(map.try_compute(pass, key(alloc, "a")?, Func::Sum, one)?);
    let two = Some(Value::Int(2));
    let _absent = position(map.try_compute_if_absent(pass, key(alloc, "c")?, Func::Const, two)?);
    let _present = position(map.try_compute_if_present(pass, key(alloc, "c")?, Func::Drop, None)?);
    let last = position(map.try_merge(pass, key(alloc, "a")?, Func::Sum, Value::Int(4))?);
    Ok(last)
}

/// A read of each kind; what the last two give is held.
fn try_reads(
    map: &DurableMap<MemDisk>,
    pass: &mut Pass,
    alloc: Global,
) -> Result<(Held, Held), Refusal>
    requires ready { IsReady map.now pass.old }
    ensures held { IfOk result (λ both. IsHeldOf map.now both.0 × IsHeldOf map.now both.1) }
    ensures ready { IsReady map.now pass.new }
{
    let _contained = position(map.try_contains_key(pass, key(alloc, "a")?)?);
    let default = map.try_get_or_default(pass, key(alloc, "b")?, Value::Int(6))?;
    Ok((map.try_get(pass, key(alloc, "a")?)?, default))
}

/// What is held, which isn't durable.
fn still_held(map: &DurableMap<MemDisk>, pass: &mut Pass, held: Held) -> Result<Held, Refusal>
    requires ready { IsReady map.now pass.old }
    requires held { IsHeldOf map.now held }
    ensures held { IfOk result (IsHeldOf map.now) }
    ensures ready { IsReady map.now pass.new }
{
    match map.release(pass, held) {
        Released::NotYet(held) => Ok(held),
        Released::Reply(..) | Released::Failed => Err(Refusal::TooEarly),
    }
}

/// Makes all tries, and releases what two reads gave: first before it is durable, and then behind it.
fn try_all<R: Wait>(rt: &R, map: &DurableMap<MemDisk>, alloc: Global) -> Result<bool, Refusal> {
    let mut pass = map.pass()?;
    let changed = try_changes(map, &mut pass, alloc)? == 6;
    let computed = try_functions(map, &mut pass, alloc)? == 10;
    let (got, default) = try_reads(map, &mut pass, alloc)?;
    let learned = map.learn(&mut pass, got.position());
    let got = still_held(map, &mut pass, got)?;
    commit(rt, map);
    let gave = gives(map, &mut pass, got, 8) && gives(map, &mut pass, default, 6);
    Ok(changed && computed && learned && gave)
}

#[test]
fn tries_are_held_until_they_are_durable(rt: HostRuntime) -> Result<(), Refusal> {
    let alloc = rt.alloc();
    let map = open(alloc, 16)?;
    assert!(rt;
        try_all(&rt, &map, alloc)?,
        "a try has another reply or another position"
    );
    Ok(())
}
