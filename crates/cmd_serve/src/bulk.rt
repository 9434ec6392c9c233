//! The replies to requests of the whole map.
ghost use Rattle.stripe_locks.specs.Passes.{recorded, IsSamePass};
ghost use Rattle.durable_map.specs.Maps.{IsReady, stripe_count};
ghost use Rattle.cmd_serve.specs.WholeMap.{CompletesBulk};

use disk_model::Disk;
use durable_map::DurableMap;
use map_types::{Func, Refusal, Reply, Value};
use std::alloc::Global;
use std::sync::Wait;
use stripe_locks::Pass;
use wire_frames::Bulk;

/// The reply of a count.
fn count<D: Disk + Drop, R: Wait>(
    rt: &R,
    map: &DurableMap<D>,
    pass: &mut Pass,
) -> Result<Reply, Refusal>
    requires { IsReady map.now pass.old }
    ensures completes { CompletesBulk (stripe_count map.now) (recorded pass.old) Bulk.Count result
        (recorded pass.new) }
    ensures ready { IsReady map.now pass.new }
    ensures same { IsSamePass pass.old pass.new }
{
    let count = bulk_tasks::count(rt, map, pass)?;
    Ok(Reply::Now(Some(Value::Int(count as i64))))
}

/// The reply of a reduction. The threshold changes nothing.
fn reduce<D: Disk + Drop, R: Wait>(
    rt: &R,
    alloc: Global,
    map: &DurableMap<D>,
    pass: &mut Pass,
    func: Func,
    threshold: u64,
) -> Result<Reply, Refusal>
    requires { IsReady map.now pass.old }
    ensures completes { CompletesBulk (stripe_count map.now) (recorded pass.old)
        (Bulk.Reduce func threshold) result (recorded pass.new) }
    ensures ready { IsReady map.now pass.new }
    ensures same { IsSamePass pass.old pass.new }
{
    match bulk_tasks::reduce(rt, alloc, map, pass, func)? {
        Ok(value) => Ok(Reply::Now(value)),
        Err(fault) => Ok(Reply::Fault(fault)),
    }
}

/// The reply of a search. The threshold changes nothing.
fn search<D: Disk + Drop, R: Wait>(
    rt: &R,
    alloc: Global,
    map: &DurableMap<D>,
    pass: &mut Pass,
    threshold: u64,
    sought: &Value,
) -> Result<Reply, Refusal>
    requires { IsReady map.now pass.old }
    ensures completes { CompletesBulk (stripe_count map.now) (recorded pass.old)
        (Bulk.Search threshold sought.now) result (recorded pass.new) }
    ensures ready { IsReady map.now pass.new }
    ensures same { IsSamePass pass.old pass.new }
{
    match bulk_tasks::search(rt, alloc, map, pass, sought)? {
        Some(key) => Ok(Reply::Now(Some(Value::text(alloc, key.as_str())?))),
        None => Ok(Reply::Now(None)),
    }
}

/// The reply to a request of the whole map, by a view that the pass takes for it. `UnknownFunction`
/// for a function that reduces nothing, which no frame names. `NoMemory` leaves no stripe held.
pub(crate) fn answer_bulk<D: Disk + Drop, R: Wait>(
    rt: &R,
    alloc: Global,
    map: &DurableMap<D>,
    pass: &mut Pass,
    bulk: &Bulk,
) -> Result<Reply, Refusal>
    requires { IsReady map.now pass.old }
    ensures completes { CompletesBulk (stripe_count map.now) (recorded pass.old) bulk.now result
        (recorded pass.new) }
    ensures ready { IsReady map.now pass.new }
    ensures same { IsSamePass pass.old pass.new }
{
    match bulk {
        Bulk::Count => count(rt, map, pass),
        Bulk::Reduce(func, threshold) => reduce(rt, alloc, map, pass, *func, *threshold),
        Bulk::Search(threshold, sought) => search(rt, alloc, map, pass, *threshold, sought),
    }
}
