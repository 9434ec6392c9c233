//! Answers of the whole map, of which no copy is made.
ghost use Rattle.durable_map.specs.Maps.{IsReady};

use crate::maps::{commit, open, put};
use bulk_tasks::{count, reduce, search};
use disk_model::MemDisk;
use durable_map::DurableMap;
use map_types::{Func, FuncError, Refusal, Value};
use std::alloc::Global;
use std::sync::Wait;
use stripe_locks::Pass;

/// Whether a reduction gives this number.
fn gives<R: Wait>(
    rt: &R,
    alloc: Global,
    map: &DurableMap<MemDisk>,
    pass: &mut Pass,
    func: Func,
    number: i64,
) -> bool
    requires { IsReady map.now pass.old }
    ensures { IsReady map.now pass.new }
{
    reduce(rt, alloc, map, pass, func) == Ok(Ok(Some(Value::Int(number))))
}

/// Whether this is the least key with the number, or there is none.
fn finds<R: Wait>(
    rt: &R,
    alloc: Global,
    map: &DurableMap<MemDisk>,
    pass: &mut Pass,
    number: i64,
    key: Option<&str>,
) -> bool
    requires { IsReady map.now pass.old }
    ensures { IsReady map.now pass.new }
{
    match (search(rt, alloc, map, pass, &Value::Int(number)), key) {
        (Ok(Some(found)), Some(key)) => found.as_str() == key,
        (Ok(None), None) => true,
        _ => false,
    }
}

#[test]
fn a_map_of_no_entries(rt: HostRuntime) -> Result<(), Refusal> {
    let alloc = rt.alloc();
    let map = open(alloc, 16)?;
    let mut pass = map.pass()?;
    assert!(rt; count(&rt, &map, &mut pass) == Ok(0), "the count is not 0");
    let sum = reduce(&rt, alloc, &map, &mut pass, Func::Sum);
    assert!(rt; sum == Ok(Ok(None)), "{sum:?}");
    assert!(rt;
        finds(&rt, alloc, &map, &mut pass, 9, None),
        "a key of the value 9 was found"
    );
    Ok(())
}

#[test]
fn a_map_of_numbers(rt: HostRuntime) -> Result<(), Refusal> {
    let alloc = rt.alloc();
    let map = open(alloc, 16)?;
    let mut pass = map.pass()?;
    put(&map, &mut pass, alloc, "c", Value::Int(7))?;
    put(&map, &mut pass, alloc, "b", Value::Int(7))?;
    put(&map, &mut pass, alloc, "a", Value::Int(5))?;
    commit(&rt, &map);
    assert!(rt; count(&rt, &map, &mut pass) == Ok(3), "the count is not 3");
    assert!(rt;
        gives(&rt, alloc, &map, &mut pass, Func::Sum, 19),
        "the sum is not 19"
    );
    assert!(rt;
        gives(&rt, alloc, &map, &mut pass, Func::Max, 7),
        "the greatest value is not 7"
    );
    assert!(rt;
        gives(&rt, alloc, &map, &mut pass, Func::Min, 5),
        "the least value is not 5"
    );
    assert!(rt;
        finds(&rt, alloc, &map, &mut pass, 7, Some("b")),
        "b is not the least key of the value 7"
    );
    assert!(rt;
        finds(&rt, alloc, &map, &mut pass, 9, None),
        "a key of the value 9 was found"
    );
    let unknown = reduce(&rt, alloc, &map, &mut pass, Func::Concat);
    assert!(rt; unknown == Err(Refusal::UnknownFunction), "{unknown:?}");
    Ok(())
}

#[test]
fn a_map_with_a_text(rt: HostRuntime) -> Result<(), Refusal> {
    let alloc = rt.alloc();
    let map = open(alloc, 16)?;
    let mut pass = map.pass()?;
    put(&map, &mut pass, alloc, "a", Value::Int(1))?;
    put(&map, &mut pass, alloc, "b", Value::Int(2))?;
    put(&map, &mut pass, alloc, "c", Value::text(alloc, "x")?)?;
    commit(&rt, &map);
    let sum = reduce(&rt, alloc, &map, &mut pass, Func::Sum);
    assert!(rt; sum == Ok(Err(FuncError::WrongKind)), "{sum:?}");
    assert!(rt; count(&rt, &map, &mut pass) == Ok(3), "the count is not 3");
    assert!(rt;
        finds(&rt, alloc, &map, &mut pass, 2, Some("b")),
        "b is not the least key of the value 2"
    );
    Ok(())
}
