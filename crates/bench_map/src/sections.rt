//! A view step by step, of which the sections are kept.
ghost use Rattle.std.specs.Prelude.{ℕ, List, IfOk};
ghost use Rattle.map_model.specs.Maps.{Map};
ghost use Rattle.durable_map.specs.Maps.{IsReady};
ghost use Rattle.bulk_tasks.specs.Parts.{AreParts};

use crossbeam_utils::Backoff;
use disk_model::MemDisk;
use durable_map::{Captured, DurableMap, ViewWalk, Viewed};
use map_types::Refusal;
use std::alloc::Global;
use std::sync::Wait;
use stripe_locks::Pass;

/// The sections of a view of the map, once its greatest mark is durable. A stripe that is found held is
/// tried again at once.
pub(crate) fn sections<R: Wait>(
    rt: &R,
    alloc: Global,
    map: &DurableMap<MemDisk>,
    pass: &mut Pass,
) -> Result<Vec<Captured>, Refusal>
    requires { IsReady map.now pass.old }
    ensures parts { IfOk result (λ captured.
        (n : ℕ) × (maps : List Map) × AreParts n 0 captured.items maps) }
    ensures ready { IsReady map.now pass.new }
{
    let mut walk = ViewWalk::new(alloc);
    for _step in rt.forever() {
        match map.view_step(pass, walk)? {
            Viewed::More(next) => {
                if next.position_awaited().is_some() {
                    map.wait_for_view(rt, &Backoff::new(), &next);
                }
                walk = next;
            }
            Viewed::Done(captured) => return Ok(captured),
        }
    }
    unreachable!()
}
