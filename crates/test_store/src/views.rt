//! Bulk answers over whole views.
ghost use Rattle.durable_map.specs.Maps.{IsReady};

use crate::maps::{commit, open, put};
use bulk_tasks::{View, view};
use disk_model::MemDisk;
use durable_map::DurableMap;
use map_types::{Func, FuncError, Key, Refusal, Value};
use std::alloc::Global;
use std::thread::Threads;
use stripe_locks::Pass;

/// No entries of a view are few for the first of these, and all are for the last.
const THRESHOLDS: [u64; 5] = [0, 2_047, 2_048, 2_049, u64::MAX];

/// What is wanted of a view of numbers.
struct Wanted {
    entries: u32,
    sum: i64,
    greatest: i64,
    /// The least key with the greatest number.
    key: &'static str,
}

/// The numbers 0, 0, 1, 1, 2, 2 and so on. From 2,048 entries on the work is split among threads.
const IN_TWOS: [Wanted; 3] = [
    Wanted {
        entries: 2_047,
        sum: 1_046_529,
        greatest: 1_023,
        key: "k12046",
    },
    Wanted {
        entries: 2_048,
        sum: 1_047_552,
        greatest: 1_023,
        key: "k12046",
    },
    Wanted {
        entries: 2_049,
        sum: 1_048_576,
        greatest: 1_024,
        key: "k12048",
    },
];

/// Whether a reduction gives this number.
pub(crate) fn gives<R: Threads + Sync>(
    rt: &R,
    view: &View,
    func: Func,
    threshold: u64,
    number: i64,
) -> bool {
    view.reduce(rt, func, threshold) == Ok(Ok(Some(Value::Int(number))))
}

/// Whether this key is the least one with the number.
pub(crate) fn finds<R: Threads + Sync>(
    rt: &R,
    view: &View,
    number: i64,
    threshold: u64,
    key: &str,
) -> bool {
    match view.search(rt, &Value::Int(number), threshold) {
        Ok(Some(found)) => found.as_str() == key,
        _ => false,
    }
}

/// Whether no key has the number.
fn finds_none<R: Threads + Sync>(rt: &R, view: &View, number: i64, threshold: u64) -> bool {
    matches!(view.search(rt, &Value::Int(number), threshold), Ok(None))
}

fn put_number(
    map: &DurableMap<MemDisk>,
    pass: &mut Pass,
    alloc: Global,
    key: &str,
    number: i64,
) -> Result<(), Refusal>
    requires { IsReady map.now pass.old }
    ensures { IsReady map.now pass.new }
{
    put(map, pass, alloc, key, Value::Int(number))
}

/// Whether a view of no entries returns what it should.
fn answers_of_none<R: Threads + Sync>(rt: &R, view: &View, threshold: u64) -> bool {
    view.count() == 0
        && view.reduce(rt, Func::Sum, threshold) == Ok(Ok(None))
        && finds_none(rt, view, 9, threshold)
}

/// Whether a view of a: 5 and b: 7 does.
fn answers_of_two<R: Threads + Sync>(rt: &R, view: &View, threshold: u64) -> bool {
    view.count() == 2
        && gives(rt, view, Func::Sum, threshold, 12)
        && gives(rt, view, Func::Max, threshold, 7)
        && gives(rt, view, Func::Min, threshold, 5)
        && view.reduce(rt, Func::Concat, threshold) == Err(Refusal::UnknownFunction)
        && view.reduce(rt, Func::SumExact, threshold) == Err(Refusal::UnknownFunction)
}

/// Whether a view of a: 1, b: 2 and c: a text does.
fn answers_of_three<R: Threads + Sync>(rt: &R, view: &View, threshold: u64) -> bool {
    view.count() == 3
        && view.reduce(rt, Func::Sum, threshold) == Ok(Err(FuncError::WrongKind))
        && finds(rt, view, 2, threshold, "b")
        && finds_none(rt, view, 9, threshold)
}

#[test]
fn answers_of_no_entries_of_numbers_and_of_a_text(rt: HostRuntime) -> Result<(), Refusal> {
    let alloc = rt.alloc();
    let map = open(alloc, 16)?;
    let mut pass = map.pass()?;
    let none = view(&rt, alloc, &map, &mut pass)?;
    put_number(&map, &mut pass, alloc, "b", 7)?;
    put_number(&map, &mut pass, alloc, "a", 5)?;
    commit(&rt, &map);
    let two = view(&rt, alloc, &map, &mut pass)?;
    put(&map, &mut pass, alloc, "c", Value::text(alloc, "x")?)?;
    put_number(&map, &mut pass, alloc, "b", 2)?;
    put_number(&map, &mut pass, alloc, "a", 1)?;
    commit(&rt, &map);
    let three = view(&rt, alloc, &map, &mut pass)?;
    assert!(rt;
        answers_of_none(&rt, &none, 0),
        "the view of no entries has another answer at threshold 0"
    );
    assert!(rt;
        answers_of_none(&rt, &none, u64::MAX),
        "the view of no entries has another answer at the greatest threshold"
    );
    assert!(rt;
        answers_of_two(&rt, &two, 0),
        "the view of two numbers has another answer at threshold 0"
    );
    assert!(rt;
        answers_of_two(&rt, &two, u64::MAX),
        "the view of two numbers has another answer at the greatest threshold"
    );
    assert!(rt;
        answers_of_three(&rt, &three, 0),
        "the view of two numbers and a text has another answer at threshold 0"
    );
    assert!(rt;
        answers_of_three(&rt, &three, u64::MAX),
        "the view of two numbers and a text has another answer at the greatest threshold"
    );
    Ok(())
}

/// Puts the entries from this place on, up to that one.
fn put_in_twos(
    map: &DurableMap<MemDisk>,
    pass: &mut Pass,
    alloc: Global,
    from: u32,
    to: u32,
) -> Result<(), Refusal>
    requires { IsReady map.now pass.old }
    ensures { IsReady map.now pass.new }
{
    for place in from..to {
        let key = format!(in alloc; "k{}", place.wrapping_add(10_000))?;
        put_number(map, pass, alloc, key.as_str(), i64::from(place / 2))?;
    }
    Ok(())
}

/// Whether a view returns what is wanted with each threshold.
fn answers_so<R: Threads + Sync>(rt: &R, view: &View, wanted: &Wanted) -> bool {
    THRESHOLDS.iter().all(|threshold| {
        gives(rt, view, Func::Sum, *threshold, wanted.sum)
            && gives(rt, view, Func::Max, *threshold, wanted.greatest)
            && gives(rt, view, Func::Min, *threshold, 0)
            && finds(rt, view, wanted.greatest, *threshold, wanted.key)
    })
}

#[test]
fn the_threshold_changes_no_answer(rt: HostRuntime) -> Result<(), Refusal> {
    let alloc = rt.alloc();
    let map = open(alloc, 16)?;
    let mut pass = map.pass()?;
    let mut entries = 0;
    for wanted in &IN_TWOS {
        put_in_twos(&map, &mut pass, alloc, entries, wanted.entries)?;
        entries = wanted.entries;
        commit(&rt, &map);
        let view = view(&rt, alloc, &map, &mut pass)?;
        assert!(rt;
            answers_so(&rt, &view, wanted),
            "the view of {entries} entries has another answer"
        );
    }
    Ok(())
}
