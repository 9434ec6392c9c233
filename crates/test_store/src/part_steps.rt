//! A walk over the parts step by step, whose caller finds no memory for one.
ghost use Rattle.std.specs.Prelude.{List, IfOk};
ghost use Rattle.ticket_order.specs.declared.record.Record.{Record};
ghost use Rattle.ticket_order.specs.declared.record.Section.{Section};
ghost use Rattle.view_walk.specs.Walking.{Fits};
ghost use Rattle.stripe_locks.specs.Passes.{recorded};
ghost use Rattle.durable_map.specs.Maps.{IsPassOf, stripe_count};

use crate::maps::{open, put};
use disk_model::MemDisk;
use durable_map::{DurableMap, PartsWalk, PartsWalked};
use map_types::{Refusal, Value};
use stripe_locks::Pass;

/// The walk behind one more step, which isn't its last.
fn stepped(
    map: &DurableMap<MemDisk>,
    pass: &mut Pass,
    walk: PartsWalk,
) -> Result<PartsWalk, Refusal>
    requires own { IsPassOf map.now pass.old }
    requires fits { (b : Record) × (xs : List Section)
        × Fits (stripe_count map.now) b xs walk (recorded pass.old) }
    ensures own { IsPassOf map.now pass.new }
    ensures fits { IfOk result (λ next. (b : Record) × (xs : List Section)
        × Fits (stripe_count map.now) b xs next (recorded pass.new)) }
{
    match map.parts_step(pass, walk)? {
        PartsWalked::More(next) => Ok(next),
        PartsWalked::Done => Err(Refusal::TooEarly),
    }
}

/// How many entries the part that is lent has, and its mark.
fn lent_count(walk: &PartsWalk) -> Option<(u64, usize)> {
    match walk.lent() {
        Some((mark, part)) => Some((mark, part.len())),
        None => None,
    }
}

/// Of two stripes `a` belongs to the second one. Behind TAKE, LOOK and GIVE of the first, and TAKE and
/// LOOK of the second, its part is lent.
#[test]
fn a_part_is_lent_and_given_back(rt: HostRuntime) -> Result<(), Refusal> {
    let alloc = rt.alloc();
    let map = open(alloc, 2)?;
    let mut writer = map.pass()?;
    let mut pass = map.pass()?;
    put(&map, &mut writer, alloc, "a", Value::Int(1))?;
    let walk = stepped(&map, &mut pass, PartsWalk::new())?;
    let walk = stepped(&map, &mut pass, walk)?;
    assert_eq!(rt; lent_count(&walk), Some((1, 0)));
    let walk = stepped(&map, &mut pass, walk)?;
    assert!(rt;
        lent_count(&walk).is_none(),
        "a part is lent behind its GIVE"
    );
    let walk = stepped(&map, &mut pass, walk)?;
    let walk = stepped(&map, &mut pass, walk)?;
    assert_eq!(rt; lent_count(&walk), Some((1, 1)));
    assert!(rt;
        put(&map, &mut writer, alloc, "a", Value::Int(2)).is_err(),
        "a put was made on a stripe that is held"
    );
    let walk = walk.give_back();
    assert!(rt;
        lent_count(&walk).is_none(),
        "a part that was given back is lent"
    );
    let ended = map.parts_step(&mut pass, walk);
    assert!(rt;
        matches!(ended, Err(Refusal::NoMemory)),
        "the walk that gave its part back was not refused for want of memory"
    );
    put(&map, &mut writer, alloc, "a", Value::Int(2))
}
