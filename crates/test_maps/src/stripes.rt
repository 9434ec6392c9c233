//! Several passes on the same stripes.
ghost use Rattle.std.specs.Prelude.{◌≡◌};

use crate::callers::{Caller, Tried};
use crate::checks::assert_same;
use java_hash::StripeCount;
use map_types::{Key, Refusal};
use one_history::empty_parts;
use std::alloc::Global;
use std::process::Abort;
use std::sync::Wait;
use stripe_locks::Stripes;
use ticket_order::Position;

pub(crate) fn sixteen<R: Abort>(rt: &R) -> StripeCount
    ensures { result.count ≡ 16 }
{
    StripeCount::new(16).expect(rt, "16 is a count of stripes")
}

/// Stripes of an empty map.
pub(crate) fn sixteen_stripes<R: Abort>(rt: &R, alloc: Global) -> Stripes {
    Stripes::empty(alloc, sixteen(rt)).expect(rt, "16 stripes")
}

/// What comes of calls of two keys of stripe 0, and of a key of another.
fn try_four(caller: &mut Caller<'_>) -> [Tried; 4] {
    [
        caller.try_put("BB"),
        caller.try_get("Aa"),
        caller.try_put("a"),
        caller.try_get("a"),
    ]
}

/// Whether the first of two passes alone is the keeper and gets stripe 0, and what comes of the
/// other's calls meanwhile.
fn try_beside_holder(stripes: &Stripes, alloc: Global) -> Result<(bool, [Tried; 4]), Refusal> {
    let holder = Caller::new(stripes, alloc)?;
    let mut caller = Caller::new(stripes, alloc)?;
    let is_keeper_alone = holder.is_keeper() && !caller.is_keeper();
    let held = holder.hold(0);
    let tried = try_four(&mut caller);
    Ok((is_keeper_alone && held.is_some(), tried))
}

#[test]
fn a_held_stripe_is_busy_and_others_are_not(rt: HostRuntime) {
    let stripes = sixteen_stripes(&rt, rt.alloc());
    let tried = try_beside_holder(&stripes, rt.alloc());
    drop(stripes);
    let busy = Err(Refusal::Busy { stripe: 0 });
    assert_same(&rt, &tried, &Ok((true, [busy, busy, Ok(()), Ok(())])));
}

/// Whether the one pass learns of a position once the other has made its change, and not before.
fn learns(one: &mut Caller<'_>, two: &mut Caller<'_>) -> bool {
    let count = one.look();
    let before = two.learn(Position::new(1));
    let tried = one.try_put("a");
    let after = two.learn(Position::new(1));
    count == 0 && !before && tried.is_ok() && after
}

/// Whether the second of two passes learns of the first's change, and how many changes it counts.
fn learn_of_change(stripes: &Stripes, alloc: Global) -> Result<(bool, u64), Refusal> {
    let mut one = Caller::new(stripes, alloc)?;
    let mut two = Caller::new(stripes, alloc)?;
    let is_learned = learns(&mut one, &mut two);
    drop(one);
    let count = two.look();
    two.meets_next()?;
    Ok((is_learned, count))
}

#[test]
fn a_pass_learns_of_positions(rt: HostRuntime) {
    let stripes = sixteen_stripes(&rt, rt.alloc());
    let learned = learn_of_change(&stripes, rt.alloc());
    drop(stripes);
    assert_same(&rt, &learned, &Ok((true, 1)));
}

/// Stripes of an empty map after `first` changes, whose keys have at most `limit` bytes.
fn empty_after(
    alloc: Global,
    count: StripeCount,
    first: u64,
    limit: u16,
) -> Result<Stripes, Refusal> {
    let parts = empty_parts(alloc, count)?;
    Stripes::new(alloc, count, parts, first, limit)
}

/// What two changes and a read of this key come to, and how many tickets are drawn then.
fn call_with<R: Wait>(
    rt: &R,
    stripes: &Stripes,
    alloc: Global,
    key: &str,
) -> Result<([Tried; 3], u64), Refusal> {
    let mut caller = Caller::new(stripes, alloc)?;
    let tried = [
        caller.try_put(key),
        caller.put(rt, key),
        caller.try_get(key),
    ];
    Ok((tried, caller.look()))
}

/// The same for the key of this many bytes.
fn call_with_bytes<R: Wait>(
    rt: &R,
    stripes: &Stripes,
    alloc: Global,
    bytes: usize,
) -> Result<([Tried; 3], u64), Refusal> {
    let key = "x".repeat(alloc, bytes)?;
    call_with(rt, stripes, alloc, key.as_str())
}

/// A change of a longer key is refused before it takes its stripe; a read is served.
#[test]
fn keys_above_the_limit(rt: HostRuntime) {
    let alloc = rt.alloc();
    let stripes = empty_after(alloc, sixteen(&rt), 0, 255).expect(&rt, "stripes of short keys");
    let limit = stripes.key_limit();
    let longer = call_with_bytes(&rt, &stripes, alloc, 256);
    let longest = call_with_bytes(&rt, &stripes, alloc, 255);
    drop(stripes);
    let refused = Err(Refusal::KeyTooLong);
    assert_same(
        &rt,
        &(limit, longer, longest),
        &(
            255,
            Ok(([refused, refused, Ok(())], 0)),
            Ok(([Ok(()); 3], 2)),
        ),
    );
}

/// What comes of puts of `a` and `b`, and whether a read of `a` is released at this position.
fn try_without_tickets(
    stripes: &Stripes,
    alloc: Global,
    number: u64,
) -> Result<([Tried; 2], bool), Refusal> {
    let mut caller = Caller::new(stripes, alloc)?;
    let tried = [caller.try_put("a"), caller.try_put("b")];
    Ok((tried, caller.reads_at("a", number)?))
}

#[test]
fn tickets_are_spent_and_reads_are_not(rt: HostRuntime) {
    let alloc = rt.alloc();
    let limit = Key::MOST_BYTES as u16;
    let stripes = empty_after(alloc, sixteen(&rt), 1 << 62, limit).expect(&rt, "full stripes");
    let calls = try_without_tickets(&stripes, alloc, 1 << 62);
    drop(stripes);
    assert_same(&rt, &calls, &Ok(([Err(Refusal::TicketsSpent); 2], true)));
}

/// How many passes there are, and how the next is refused.
fn count_passes(stripes: &Stripes) -> (usize, Option<Refusal>) {
    for count in 0..5000 {
        if let Err(refusal) = stripes.pass() {
            return (count, Some(refusal));
        }
    }
    (5000, None)
}

#[test]
fn there_are_4096_passes(rt: HostRuntime) {
    let stripes = sixteen_stripes(&rt, rt.alloc());
    let counted = count_passes(&stripes);
    drop(stripes);
    assert_same(&rt, &counted, &(4096, Some(Refusal::SeatsSpent)));
}
