//! A view step by step, with changes between its steps.
ghost use Rattle.std.specs.Prelude.{IfOk};
ghost use Rattle.ticket_order.specs.declared.record.Record.{Record};
ghost use Rattle.view_walk.specs.Viewing.{Fits};
ghost use Rattle.stripe_locks.specs.Passes.{recorded};
ghost use Rattle.durable_map.specs.Maps.{IsPassOf, stripe_count};

use crate::maps::{commit, open, put};
use crate::views::{finds, gives};
use bulk_tasks::View;
use disk_model::MemDisk;
use durable_map::{DurableMap, ViewWalk, Viewed};
use map_types::{Func, Refusal, Value};
use std::alloc::Global;
use std::sync::Wait;
use std::thread::Threads;
use stripe_locks::Pass;

/// The view behind `steps` steps, none of which is its last.
fn advanced(
    map: &DurableMap<MemDisk>,
    pass: &mut Pass,
    walk: ViewWalk,
    steps: u32,
) -> Result<ViewWalk, Refusal>
    requires own { IsPassOf map.now pass.old }
    requires fits { (b : Record) × Fits (stripe_count map.now) b walk (recorded pass.old) }
    ensures own { IsPassOf map.now pass.new }
    ensures fits { (b : Record)
        → Fits (stripe_count map.now) b walk (recorded pass.old)
        → IfOk result (λ next. Fits (stripe_count map.now) b next (recorded pass.new)) }
{
    let mut walk = walk;
    for _step in 0..steps {
        match map.view_step(pass, walk)? {
            Viewed::More(next) => walk = next,
            Viewed::Done(_) => return Err(Refusal::TooEarly),
        }
    }
    Ok(walk)
}

/// The view that ends with this step.
fn ended(
    map: &DurableMap<MemDisk>,
    pass: &mut Pass,
    alloc: Global,
    walk: ViewWalk,
) -> Result<View, Refusal>
    requires own { IsPassOf map.now pass.old }
    requires fits { (b : Record) × Fits (stripe_count map.now) b walk (recorded pass.old) }
{
    match map.view_step(pass, walk)? {
        Viewed::Done(captured) => View::new(alloc, captured),
        Viewed::More(_) => Err(Refusal::TooEarly),
    }
}

/// Of two stripes, `b` belongs to the first and `a` to the second. Each is looked at behind two puts.
fn between_puts<R: Wait>(
    rt: &R,
    map: &DurableMap<MemDisk>,
    alloc: Global,
) -> Result<View, Refusal> {
    let mut writer = map.pass()?;
    let mut pass = map.pass()?;
    put(map, &mut writer, alloc, "a", Value::Int(1))?;
    put(map, &mut writer, alloc, "b", Value::Int(2))?;
    let walk = advanced(map, &mut pass, ViewWalk::new(alloc), 3)?;
    commit(rt, map);
    put(map, &mut writer, alloc, "b", Value::Int(3))?;
    put(map, &mut writer, alloc, "a", Value::Int(4))?;
    // (the second stripe, and then twice a SEE of 2 and an ALIVE)
    let walk = advanced(map, &mut pass, walk, 7)?;
    commit(rt, map);
    ended(map, &mut pass, alloc, walk)
}

/// Whether the view has {a: 4, b: 2}, at the marks 2 and 4.
fn is_as_worked<R: Threads + Sync>(rt: &R, view: &View) -> bool {
    view.mark(0) == Some(2)
        && view.mark(1) == Some(4)
        && view.mark(2).is_none()
        && view.count() == 2
        && gives(rt, view, Func::Sum, 0, 6)
        && finds(rt, view, 2, 0, "b")
        && finds(rt, view, 4, 0, "a")
}

#[test]
fn each_stripe_of_a_view_has_a_mark_of_its_own(rt: HostRuntime) -> Result<(), Refusal> {
    let alloc = rt.alloc();
    let map = open(alloc, 2)?;
    let view = between_puts(&rt, &map, alloc)?;
    assert!(rt;
        is_as_worked(&rt, &view),
        "the view is not of b: 2 at mark 2 and a: 4 at mark 4"
    );
    Ok(())
}
