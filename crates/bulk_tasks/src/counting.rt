//! How many entries a view has, of which nothing is copied.
ghost use Rattle.std.specs.Prelude.{◌≡◌, ◌+◌, ◌-◌, ◌^◌, ◌<◌, ℕ, List, length, min, IfOk};
ghost use Rattle.ticket_order.specs.declared.record.Section.{Section};
ghost use Rattle.stripe_locks.specs.Passes.{recorded, IsSamePass};
ghost use Rattle.durable_map.specs.Maps.{IsReady, stripe_count};
ghost use Rattle.bulk_tasks.specs.Answering.{AnswersByView, entries_kept};
ghost use Rattle.bulk_tasks.specs.Bulk.{count_of};

use crate::gathering::{Gathers, gather_all};
use atomic_methods::Part;
use disk_model::Disk;
use durable_map::DurableMap;
use map_types::Refusal;
use std::sync::Wait;
use stripe_locks::Pass;

/// The most entries that can be told. No machine has memory for more.
const MOST_ENTRIES: usize = (1 << 63) - 1;

/// How many entries there were so far; the greatest number stands for all that are greater.
#[derive(Drop)]
struct Counting {
    count: usize,
}

impl Gathers for Counting {
    ghost gathered = { λ first now xs.
        now.count ≡ min (first.count + length (entries_kept xs)) (2 ^ 64 - 1) };

    fn gather(&mut self, part: &Part) -> Result<(), Refusal> {
        self.count = self.count.saturating_add(part.len());
        Ok(())
    }
}

/// How many entries a view of the map has, once it is durable. Nothing is copied, and no memory is
/// taken. It waits as a view does.
///
/// `Failed` if the store has failed before the greatest mark became durable. `NoMemory` if there were
/// more entries than a number of 63 bits tells.
pub fn count<D: Disk + Drop, R: Wait>(
    rt: &R,
    map: &DurableMap<D>,
    pass: &mut Pass,
) -> Result<usize, Refusal>
    requires { IsReady map.now pass.old }
    ensures answers { AnswersByView (stripe_count map.now) (recorded pass.old) count_of result
        (recorded pass.new) }
    ensures fits { IfOk result (λ count. count < 2 ^ 63) }
    ensures ready { IsReady map.now pass.new }
    ensures same { IsSamePass pass.old pass.new }
{
    let mut counting = Counting { count: 0 };
    gather_all(rt, map, pass, &mut counting)?;
    if MOST_ENTRIES < counting.count {
        return Err(Refusal::NoMemory);
    }
    Ok(counting.count)
}
