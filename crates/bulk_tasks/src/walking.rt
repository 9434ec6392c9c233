//! The walk of a view to its end.
ghost use Rattle.stripe_locks.specs.Passes.{recorded, IsSamePass};
ghost use Rattle.durable_map.specs.Maps.{IsReady, stripe_count};
ghost use Rattle.bulk_tasks.specs.Completing.{CompletesView};

use crate::contents::View;
use crossbeam_utils::Backoff;
use disk_model::Disk;
use durable_map::{DurableMap, PartsWalk, ViewWalk, Viewed};
use map_types::Refusal;
use std::alloc::Global;
use std::sync::Wait;
use stripe_locks::Pass;

/// Waits a moment if the step that was made found its stripe held, or the greatest mark not durable yet.
/// Before it the stripe that follows was this one, if any.
pub(crate) fn pause<D: Disk + Drop, R: Wait>(
    rt: &R,
    map: &DurableMap<D>,
    backoff: &Backoff,
    stripe: Option<usize>,
    walk: &PartsWalk,
) {
    let was_held = stripe.is_some() && walk.stripe_to_take() == stripe;
    if was_held || walk.position_awaited().is_some() {
        map.wait_for_parts(rt, backoff, walk);
    } else if stripe.is_some() {
        backoff.reset();
    }
}

/// A view of the map: it repeats `view_step`, and returns once the greatest mark is durable. It waits
/// for each stripe, and for that.
///
/// `NoMemory` leaves no stripe held. `Failed` if the store has failed before the greatest mark became
/// durable.
pub fn view<D: Disk + Drop, R: Wait>(
    rt: &R,
    alloc: Global,
    map: &DurableMap<D>,
    pass: &mut Pass,
) -> Result<View, Refusal>
    requires { IsReady map.now pass.old }
    ensures completes { CompletesView
        (stripe_count map.now) (recorded pass.old) result (recorded pass.new) }
    ensures ready { IsReady map.now pass.new }
    ensures same { IsSamePass pass.old pass.new }
{
    let backoff = Backoff::new();
    let mut walk = ViewWalk::new(alloc);
    for _step in rt.forever() {
        let stripe = walk.stripe_to_take();
        match map.view_step(pass, walk)? {
            Viewed::More(next) => {
                pause(rt, map, &backoff, stripe, next.parts());
                walk = next;
            }
            Viewed::Done(captured) => return View::new(alloc, captured),
        }
    }
    unreachable!()
}
