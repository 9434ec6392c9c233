//! Views beside the loop that commits, and after it has failed.

use crate::maps::{Flag, commit, open, open_over, put};
use crate::views::gives;
use bulk_tasks::view;
use disk_model::{Failure, Fill, MemDisk};
use durable_map::{DurableMap, flush_loop};
use map_types::{Func, Refusal, Value};
use std::alloc::Global;
use std::sync::Wait;
use std::thread::{Threads, join};

/// The device calls of opening a new directory. The next one writes the first batch.
const OPENING_CALLS: u64 = 12;

/// Whether a view, which waits until it is durable, has the one entry of the map.
fn has_the_entry<R: Threads + Wait + Sync>(
    rt: &R,
    map: &DurableMap<MemDisk>,
    alloc: Global,
) -> Result<bool, Refusal> {
    let mut pass = map.pass()?;
    let view = view(rt, alloc, map, &mut pass)?;
    Ok(view.mark(1) == Some(1) && gives(rt, &view, Func::Sum, 0, 5))
}

/// The same, and then the loop ends.
fn view_at_last<R: Threads + Wait + Sync>(
    rt: &R,
    map: &DurableMap<MemDisk>,
    alloc: Global,
    flag: &Flag,
) -> Result<bool, Refusal> {
    let has = has_the_entry(rt, map, alloc);
    flag.raise();
    has
}

/// Nothing is committed before both begin.
#[test]
fn a_view_waits_until_it_is_durable(rt: HostRuntime) -> Result<(), Refusal> {
    let alloc = rt.alloc();
    let map = open(alloc, 16)?;
    let mut pass = map.pass()?;
    put(&map, &mut pass, alloc, "a", Value::Int(5))?;
    let flag = Flag::new();
    let (_, has) = join(
        &rt,
        || flush_loop(&rt, &map, &flag),
        || view_at_last(&rt, &map, alloc, &flag),
    );
    assert!(rt; has?, "the view has not the entry that was put before it");
    Ok(())
}

/// It saw a change that can't be committed any more, so it is refused, and doesn't wait.
#[test]
fn a_view_of_a_failed_store(rt: HostRuntime) -> Result<(), Refusal> {
    let alloc = rt.alloc();
    let failure = Failure {
        after: OPENING_CALLS,
        fill: Fill::Old,
    };
    let map = open_over(alloc, 16, Some(failure))?;
    let mut pass = map.pass()?;
    put(&map, &mut pass, alloc, "a", Value::Int(5))?;
    commit(&rt, &map);
    let viewed = view(&rt, alloc, &map, &mut pass);
    assert!(rt;
        matches!(viewed, Err(Refusal::Failed)),
        "the view of a failed store was not refused so"
    );
    Ok(())
}
