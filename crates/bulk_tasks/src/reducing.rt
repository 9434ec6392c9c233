//! A fold of the values of a view, of which nothing is copied.
ghost use Rattle.std.specs.Prelude.{◌≡◌, ℕ, List, fold};
ghost use Rattle.ticket_order.specs.declared.record.Section.{Section};
ghost use Rattle.stripe_locks.specs.Passes.{recorded, IsSamePass};
ghost use Rattle.durable_map.specs.Maps.{IsReady, stripe_count};
ghost use Rattle.bulk_tasks.specs.Answering.{AnswersByView, entries_kept};
ghost use Rattle.bulk_tasks.specs.Bulk.{IsReducing, reduction_of};
ghost use Rattle.bulk_tasks.specs.Tallies.{counted};

use crate::gathering::{Gathers, gather_all};
use crate::tally::{Tally, can_reduce, joined, tally_of};
use atomic_methods::Part;
use bin_table::LentEntry;
use disk_model::Disk;
use durable_map::DurableMap;
use map_types::{Func, FuncError, Refusal, Value};
use std::alloc::Global;
use std::sync::Wait;
use stripe_locks::Pass;

/// What the values came to so far.
#[derive(Drop)]
struct Reducing {
    alloc: Global,
    func: Func,
    tally: Tally,
}

/// The tally, and then that of the entries.
fn tally_on(func: Func, start: Tally, entries: &[LentEntry<'_>]) -> Tally
    ensures { result ≡ fold (counted func) start entries.now }
{
    let mut tally = start;
    for entry in entries {
        tally = joined(func, tally, tally_of(entry.value()));
    }
    tally
}

impl Gathers for Reducing {
    ghost gathered = { λ first now xs. (now.func ≡ first.func)
        × (now.tally ≡ fold (counted first.func) first.tally (entries_kept xs)) };

    fn gather(&mut self, part: &Part) -> Result<(), Refusal> {
        let entries = part.lent_sorted(self.alloc)?;
        self.tally = tally_on(self.func, self.tally, &entries);
        Ok(())
    }
}

/// The plain left fold of `Sum`, `Max` or `Min` over the values of a view in rising byte order of
/// their keys, once the view is durable. `None` if there is no entry, and a fault if a value is a text.
/// No entry is copied: each stripe is held while its values are folded. It waits as a view does.
///
/// Another function is refused with `UnknownFunction` at once. `NoMemory` leaves no stripe held.
/// `Failed` if the store has failed before the greatest mark became durable.
pub fn reduce<D: Disk + Drop, R: Wait>(
    rt: &R,
    alloc: Global,
    map: &DurableMap<D>,
    pass: &mut Pass,
    func: Func,
) -> Result<Result<Option<Value>, FuncError>, Refusal>
    requires { IsReady map.now pass.old }
    ensures answers { IsReducing func → AnswersByView (stripe_count map.now) (recorded pass.old)
        (reduction_of func) result (recorded pass.new) }
    ensures unknown { (IsReducing func → ⊥) → (result ≡ Err Refusal.UnknownFunction)
        × (recorded pass.new ≡ recorded pass.old) }
    ensures ready { IsReady map.now pass.new }
    ensures same { IsSamePass pass.old pass.new }
{
    if !can_reduce(func) {
        return Err(Refusal::UnknownFunction);
    }
    let mut reducing = Reducing {
        alloc,
        func,
        tally: Tally::Nothing,
    };
    gather_all(rt, map, pass, &mut reducing)?;
    Ok(reducing.tally.answer())
}
