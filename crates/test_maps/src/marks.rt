//! The marks of the stripes that have entries for the next sweep.
use crate::callers::{Caller, Tried};
use crate::checks::assert_same;
use java_hash::StripeCount;
use map_types::Refusal;
use std::alloc::Global;
use stripe_locks::{Marks, Stripes};

/// More numbers than there are stripes.
const NUMBERS: usize = 300;

/// Whether these stripes are marked, and no others.
fn are_exactly(marks: &Marks, wanted: &[usize]) -> bool {
    for stripe in 0..NUMBERS {
        if marks.contains(stripe) != wanted.contains(&stripe) {
            return false;
        }
    }
    true
}

/// What comes of a change in each of the stripes 64, 255, 0 and 63, and whether the marks before
/// them, behind them and behind these are right.
fn mark_by_changes(stripes: &Stripes, alloc: Global) -> Result<([Tried; 4], [bool; 3]), Refusal> {
    let mut caller = Caller::new(stripes, alloc)?;
    let before = are_exactly(&stripes.take_marks(), &[]);
    let tried = [
        caller.try_put("@"),
        caller.try_put("\u{FF}"),
        caller.try_put("\u{100}"),
        caller.try_put("?"),
    ];
    drop(caller);
    let behind = are_exactly(&stripes.take_marks(), &[0, 63, 64, 255]);
    let then = are_exactly(&stripes.take_marks(), &[]);
    Ok((tried, [before, behind, then]))
}

/// What comes of a put of `a`, a read of `b` and a read of `a`, and whether the marks behind each
/// are right.
fn mark_by_reads(stripes: &Stripes, alloc: Global) -> Result<([Tried; 3], [bool; 3]), Refusal> {
    let mut caller = Caller::new(stripes, alloc)?;
    let put = caller.try_put("a");
    let by_put = are_exactly(&stripes.take_marks(), &[97]);
    let other = caller.try_get("b");
    let by_other = are_exactly(&stripes.take_marks(), &[]);
    let get = caller.try_get("a");
    drop(caller);
    let by_get = are_exactly(&stripes.take_marks(), &[97]);
    Ok(([put, other, get], [by_put, by_other, by_get]))
}

/// No sweep has taken the entry, so that whoever gives the stripe back marks it.
#[test]
fn stripes_with_entries_are_marked(rt: HostRuntime) {
    let alloc = rt.alloc();
    let count = StripeCount::new(256).expect(&rt, "256 is a count of stripes");
    let stripes = Stripes::empty(alloc, count).expect(&rt, "256 stripes");
    let changed = mark_by_changes(&stripes, alloc);
    let read = mark_by_reads(&stripes, alloc);
    drop(stripes);
    assert_same(
        &rt,
        &(changed, read),
        &(Ok(([Ok(()); 4], [true; 3])), Ok(([Ok(()); 3], [true; 3]))),
    );
}
