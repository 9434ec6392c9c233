//! A search of a view for a value, of which nothing is copied but keys that are found.
ghost use Rattle.std.specs.Prelude.{◌≡◌, ℕ, List, fold};
ghost use Rattle.std.specs.Option.{option_copied};
ghost use Rattle.ticket_order.specs.declared.record.Section.{Section};
ghost use Rattle.stripe_locks.specs.Passes.{recorded, IsSamePass};
ghost use Rattle.durable_map.specs.Maps.{IsReady, stripe_count};
ghost use Rattle.bulk_tasks.specs.Answering.{AnswersByView, entries_kept};
ghost use Rattle.bulk_tasks.specs.Bulk.{key_of_value};
ghost use Rattle.bulk_tasks.specs.Nearest as nearest;

use crate::gathering::{Gathers, gather_all};
use crate::nearest::{copied, nearer};
use atomic_methods::Part;
use bin_table::LentEntry;
use disk_model::Disk;
use durable_map::DurableMap;
use map_types::{Key, Refusal, Value};
use std::alloc::Global;
use std::sync::Wait;
use stripe_locks::Pass;

/// The least key with the value so far.
#[derive(Drop)]
struct Searching<'a> {
    alloc: Global,
    sought: &'a Value,
    near: Option<Key>,
}

/// The key of the entry, if its value is the one sought.
fn candidate<'a>(sought: &Value, entry: &LentEntry<'a>) -> Option<&'a Key>
    ensures { option_copied result ≡ nearest.candidate sought.now entry.now }
{
    if entry.value().is_same(sought) {
        Some(entry.key())
    } else {
        None
    }
}

/// The lesser of this key and of the least key of the entries with the value.
fn nearest_on<'a>(
    sought: &Value,
    start: Option<&'a Key>,
    entries: &[LentEntry<'a>],
) -> Option<&'a Key>
    ensures { option_copied result
        ≡ fold (nearest.approached sought.now) (option_copied start.entry) entries.now }
{
    let mut near = start;
    for entry in entries {
        near = nearer(near, candidate(sought, entry));
    }
    near
}

impl<'a> Gathers for Searching<'a> {
    ghost gathered = { λ first now xs. (now.sought.now ≡ first.sought.now)
        × (now.near ≡ fold (nearest.approached first.sought.now) first.near (entries_kept xs)) };

    fn gather(&mut self, part: &Part) -> Result<(), Refusal> {
        let entries = part.lent_sorted(self.alloc)?;
        let near = nearest_on(self.sought, self.near.as_ref(), &entries);
        self.near = copied(near)?;
        Ok(())
    }
}

/// The least key by bytes of a view whose value equals the one sought, or `None`, once the view is
/// durable. No entry is copied, but a key that was found: each stripe is held while it is searched.
/// It waits as a view does.
///
/// `NoMemory` leaves no stripe held. `Failed` if the store has failed before the greatest mark became
/// durable.
pub fn search<D: Disk + Drop, R: Wait>(
    rt: &R,
    alloc: Global,
    map: &DurableMap<D>,
    pass: &mut Pass,
    sought: &Value,
) -> Result<Option<Key>, Refusal>
    requires { IsReady map.now pass.old }
    ensures answers { AnswersByView (stripe_count map.now) (recorded pass.old)
        (key_of_value sought.now) result (recorded pass.new) }
    ensures ready { IsReady map.now pass.new }
    ensures same { IsSamePass pass.old pass.new }
{
    let mut searching = Searching {
        alloc,
        sought,
        near: None,
    };
    gather_all(rt, map, pass, &mut searching)?;
    Ok(searching.near)
}
