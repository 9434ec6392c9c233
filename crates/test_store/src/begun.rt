//! Calls of a running map that are begun, and finished later.
ghost use Rattle.std.specs.Prelude.{IfOk};
ghost use Rattle.durable_map.specs.Maps.{IsHeldOf, IsReady};

use crate::calls::{is_absent_now, is_now, key, was, was_absent};
use crate::maps::{commit, open};
use disk_model::MemDisk;
use durable_map::DurableMap;
use map_types::{Change, Command, Question, Read, Refusal, Value};
use std::alloc::Global;
use std::sync::Wait;
use stripe_locks::{Held, Pass};

/// Begins a put of `a`.
pub(crate) fn begin_put<R: Wait>(
    rt: &R,
    map: &DurableMap<MemDisk>,
    pass: &mut Pass,
    alloc: Global,
    number: i64,
) -> Result<Held, Refusal>
    requires ready { IsReady map.now pass.old }
    ensures held { IfOk result (IsHeldOf map.now) }
    ensures ready { IsReady map.now pass.new }
{
    let key = key(alloc, "a")?;
    let change = Change::Put(Value::Int(number));
    map.begin_change(rt, pass, Command { key, change })
}

/// Begins a get of `a`.
fn begin_get<R: Wait>(
    rt: &R,
    map: &DurableMap<MemDisk>,
    pass: &mut Pass,
    alloc: Global,
) -> Result<Held, Refusal>
    requires ready { IsReady map.now pass.old }
    ensures held { IfOk result (IsHeldOf map.now) }
    ensures ready { IsReady map.now pass.new }
{
    let key = key(alloc, "a")?;
    let question = Question::Get;
    map.begin_read(rt, pass, Read { key, question })
}

/// Which of the three may be finished.
fn may_finish(map: &DurableMap<MemDisk>, first: &Held, second: &Held, last: &Held) -> [bool; 3] {
    [
        map.may_finish(first),
        map.may_finish(second),
        map.may_finish(last),
    ]
}

/// Finishes a put of 1 over nothing, a put of 2, and a get, and whether each replies as it should.
fn finish_three<R: Wait>(
    rt: &R,
    map: &DurableMap<MemDisk>,
    pass: &mut Pass,
    first: Held,
    second: Held,
    last: Held,
) -> bool
    requires ready { IsReady map.now pass.old }
    requires first { IsHeldOf map.now first }
    requires second { IsHeldOf map.now second }
    requires last { IsHeldOf map.now last }
{
    let put = was_absent(map.finish(rt, pass, first));
    let again = was(map.finish(rt, pass, second), 1);
    let got = is_now(map.finish(rt, pass, last), 2);
    put && again && got
}

/// Begins three calls of one key, commits one batch, and then finishes them.
fn share_a_batch<R: Wait>(
    rt: &R,
    map: &DurableMap<MemDisk>,
    alloc: Global,
) -> Result<bool, Refusal> {
    let mut pass = map.pass()?;
    let first = begin_put(rt, map, &mut pass, alloc, 1)?;
    let second = begin_put(rt, map, &mut pass, alloc, 2)?;
    let last = begin_get(rt, map, &mut pass, alloc)?;
    let before = may_finish(map, &first, &second, &last);
    commit(rt, map);
    let behind = may_finish(map, &first, &second, &last);
    if before != [false; 3] || behind != [true; 3] {
        return Ok(false);
    }
    Ok(finish_three(rt, map, &mut pass, first, second, last))
}

#[test]
fn begun_calls_share_a_batch(rt: HostRuntime) -> Result<(), Refusal> {
    let alloc = rt.alloc();
    let map = open(alloc, 16)?;
    assert!(rt;
        share_a_batch(&rt, &map, alloc)?,
        "the calls may be finished before the commit or not behind it, or have other replies"
    );
    Ok(())
}

/// Whether a pass gets the absent `b` while another's put of `a`, on another stripe, isn't committed.
fn gets_beside_a_put<R: Wait>(
    rt: &R,
    map: &DurableMap<MemDisk>,
    alloc: Global,
) -> Result<bool, Refusal> {
    let mut writer = map.pass()?;
    let mut reader = map.pass()?;
    let put = begin_put(rt, map, &mut writer, alloc, 1)?;
    let got = is_absent_now(map.get(rt, &mut reader, key(alloc, "b")?));
    Ok(got && !map.may_finish(&put))
}

#[test]
fn a_read_of_another_stripe_waits_for_no_commit(rt: HostRuntime) -> Result<(), Refusal> {
    let alloc = rt.alloc();
    let map = open(alloc, 16)?;
    assert!(rt;
        gets_beside_a_put(&rt, &map, alloc)?,
        "the read found another value, or the put was committed before"
    );
    Ok(())
}
