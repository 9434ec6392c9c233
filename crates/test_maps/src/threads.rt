//! Several threads on the same stripes.
ghost use Rattle.std.specs.Prelude.{◌≡◌, None, IfOk, false, true};
ghost use Rattle.std.specs.List.{All};
ghost use Rattle.stripe_locks.specs.Holding.{IsHeldOf};
ghost use Rattle.stripe_locks.specs.Passes.{recorded, IsPassOf};

use crate::callers::{Caller, Tried};
use crate::checks::assert_same;
use crate::stripes::sixteen_stripes;
use map_types::{Change, Command, Func, Key, Read, Refusal, Reply, Value};
use std::alloc::Global;
use std::sync::Wait;
use std::thread::{join, map_indices};
use stripe_locks::{Held, Pass, Released, Stripes};
use ticket_order::Steps;

const CALLS: u64 = 1000;

const ADDITIONS: u64 = 200;

/// The position of a change of this key.
fn put_once(caller: &mut Caller<'_>, key: &str) -> Result<u64, Refusal> {
    for _try in 0..u64::MAX {
        if let Some(position) = caller.put_if_free(key)? {
            return Ok(position);
        }
    }
    Err(Refusal::SeatsSpent)
}

fn put_numbered(
    caller: &mut Caller<'_>,
    alloc: Global,
    side: usize,
    number: u64,
) -> Result<u64, Refusal> {
    let key = format!(in alloc; "{side} {number}")?;
    let position = put_once(caller, key.as_str());
    drop(key);
    position
}

fn put_each(caller: &mut Caller<'_>, alloc: Global, side: usize) -> Result<Vec<u64>, Refusal> {
    let mut positions = Vec::new(alloc);
    for number in 0..CALLS {
        let position = put_numbered(caller, alloc, side, number)?;
        positions.push(position)?;
    }
    Ok(positions)
}

fn put_often(stripes: &Stripes, alloc: Global, side: usize) -> Result<Vec<u64>, Refusal> {
    put_each(&mut Caller::new(stripes, alloc)?, alloc, side)
}

/// Whether these are the positions from 1 on, each once and in any order.
fn are_each_once(mut all: Vec<u64>) -> Result<bool, Refusal> {
    all.sort()?;
    for i in 0..all.len() {
        if all[i] != i as u64 + 1 {
            return Ok(false);
        }
    }
    Ok(all.len() == 2000)
}

fn draw_each_once(
    one: Result<Vec<u64>, Refusal>,
    two: Result<Vec<u64>, Refusal>,
) -> Result<bool, Refusal> {
    let mut all = one?;
    let two = two?;
    all.extend_from_slice(two.as_slice())?;
    are_each_once(all)
}

#[test]
fn two_threads_draw_each_ticket_once(rt: HostRuntime) {
    let alloc = rt.alloc();
    let stripes = sixteen_stripes(&rt, alloc);
    let (one, two) = join(
        &rt,
        || put_often(&stripes, alloc, 0),
        || put_often(&stripes, alloc, 1),
    );
    let is_each_once = draw_each_once(one, two);
    drop(stripes);
    assert_same(&rt, &is_each_once, &Ok(true));
}

fn add_one(alloc: Global) -> Result<Command, Refusal> {
    Ok(Command {
        key: Key::new(alloc, "hot")?,
        change: Change::Merge(Func::Sum, Value::Int(1)),
    })
}

fn add_once<R: Wait>(
    rt: &R,
    stripes: &Stripes,
    pass: &mut Pass,
    alloc: Global,
) -> Result<Held, Refusal>
    requires own { IsPassOf stripes.now pass.old }
    requires empty_handed { (recorded pass.old).holding ≡ None }
    ensures held { IfOk result (IsHeldOf stripes.now) }
    ensures own { IsPassOf stripes.now pass.new }
    ensures empty_handed { (recorded pass.new).holding ≡ None }
{
    let command = add_one(alloc)?;
    stripes.call(rt, pass, command)
}

fn add_often<R: Wait>(rt: &R, stripes: &Stripes, alloc: Global) -> Result<Held, Refusal>
    ensures { IfOk result (IsHeldOf stripes.now) }
{
    let mut pass = stripes.pass()?;
    for _turn in 1..ADDITIONS {
        add_once(rt, stripes, &mut pass, alloc)?.give_up();
    }
    add_once(rt, stripes, &mut pass, alloc)
}

/// The reply's number, if its position is the same.
fn number_at_position(released: &Released) -> Option<u64> {
    match released {
        Released::Reply(position, Reply::Now(Some(Value::Int(number)))) => {
            let place = position.number();
            if *number >= 0 && *number as u64 == place {
                Some(place)
            } else {
                None
            }
        }
        _ => None,
    }
}

fn publish_all(stripes: &Stripes, keeper: &mut Pass) -> u64
    requires own { IsPassOf stripes.now keeper.old }
    requires by_keeper { (recorded keeper.old).keeper ≡ true }
    requires unfailed { (recorded keeper.old).failed ≡ false }
    ensures own { IsPassOf stripes.now keeper.new }
{
    let mut board = stripes.at(keeper);
    let count = board.look();
    board.durable(count);
    count
}

/// The sum that is held, if it stands at the position of the same number.
fn sum_of(stripes: &Stripes, pass: &mut Pass, held: Result<Held, Refusal>) -> Option<u64>
    requires own { IsPassOf stripes.now pass.old }
    requires held { IfOk held (IsHeldOf stripes.now) }
    ensures own { IsPassOf stripes.now pass.new }
{
    match held {
        Ok(held) => {
            let released = stripes.release(pass, held);
            let number = number_at_position(&released);
            drop(released);
            number
        }
        Err(_) => None,
    }
}

/// The greatest of the sums, each of which stands at the position of the same number.
fn greatest_of(stripes: &Stripes, pass: Pass, all: Vec<Result<Held, Refusal>>) -> Option<u64>
    requires own { IsPassOf stripes.now pass }
    requires all { All (λ answer. IfOk answer (IsHeldOf stripes.now)) all.items }
{
    let mut pass = pass;
    let mut greatest = 0;
    for held in all {
        greatest = sum_of(stripes, &mut pass, held)?.max(greatest);
    }
    Some(greatest)
}

/// How many changes the keeper publishes, and the greatest of the sums.
fn published_sum(
    stripes: &Stripes,
    keeper: Pass,
    all: Vec<Result<Held, Refusal>>,
) -> Option<(u64, u64)>
    requires own { IsPassOf stripes.now keeper }
    requires unfailed { (recorded keeper).failed ≡ false }
    requires all { All (λ answer. IfOk answer (IsHeldOf stripes.now)) all.items }
{
    let mut keeper = keeper;
    if !keeper.is_keeper() {
        drop(all);
        return None;
    }
    let count = publish_all(stripes, &mut keeper);
    let greatest = greatest_of(stripes, keeper, all)?;
    Some((count, greatest))
}

#[test]
fn eight_threads_add_to_one_key(rt: HostRuntime) {
    let alloc = rt.alloc();
    let stripes = sixteen_stripes(&rt, alloc);
    let keeper = stripes.pass().expect(&rt, "a pass");
    let lasts = map_indices(&rt, alloc, 8, &|_thread| add_often(&rt, &stripes, alloc)).expect(
        &rt,
        "eight threads",
    );
    let published = published_sum(&stripes, keeper, lasts);
    drop(stripes);
    assert_same(&rt, &published, &Some((1600, 1600)));
}

/// Takes a stripe and leaves with it.
fn leave_with(stripes: &Stripes, alloc: Global, stripe: usize) -> bool {
    match Caller::new(stripes, alloc) {
        Ok(caller) => caller.hold(stripe).is_some(),
        Err(_) => false,
    }
}

/// What comes of a change in stripe 11, and of a change and a read in another.
fn work<R: Wait>(rt: &R, stripes: &Stripes, alloc: Global) -> Result<[Tried; 3], Refusal> {
    let mut caller = Caller::new(stripes, alloc)?;
    Ok([
        caller.try_put("hello"),
        caller.put(rt, "a"),
        caller.get(rt, "a"),
    ])
}

#[test]
fn those_who_leave_let_the_others_work(rt: HostRuntime) {
    let alloc = rt.alloc();
    let stripes = sixteen_stripes(&rt, alloc);
    let (left, worked) = join(
        &rt,
        || leave_with(&stripes, alloc, 11),
        || stripes.pass().is_ok(),
    );
    let tried = work(&rt, &stripes, alloc);
    drop(stripes);
    let busy = Err(Refusal::Busy { stripe: 11 });
    assert_same(
        &rt,
        &(left, worked, tried),
        &(true, true, Ok([busy, Ok(()), Ok(())])),
    );
}
