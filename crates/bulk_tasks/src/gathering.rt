//! What is made of the parts of a view, each while its stripe is held.
ghost use Rattle.std.specs.Prelude.{◌≡◌, ◌++◌, ℕ, List, [], Some, IfErr, OnOk};
ghost use Rattle.ticket_order.specs.declared.record.Record.{Record};
ghost use Rattle.ticket_order.specs.declared.record.Section.{Section};
ghost use Rattle.view_walk.specs.Walking.{Fits, IsDone, Refuses, lent_sections, sections_of};
ghost use Rattle.stripe_locks.specs.Passes.{recorded, IsSamePass};
ghost use Rattle.durable_map.specs.Maps.{IsReady, stripe_count};

use crate::walking::pause;
use atomic_methods::Part;
use crossbeam_utils::Backoff;
use disk_model::Disk;
use durable_map::{DurableMap, PartsWalk, PartsWalked};
use map_types::Refusal;
use std::sync::Wait;
use stripe_locks::Pass;

/// What is made of the parts of a view, one after another.
pub(crate) trait Gathers {
    // what the first was has become the second by the parts of these sections
    ghost gathered: { Self → Self → List Section → Type 0 };

    /// Adds what is made of a part. Refused with `NoMemory`, and then nothing is added.
    fn gather(&mut self, part: &Part) -> Result<(), Refusal>
        ensures ok { OnOk result ((first : Self) (xs : List Section) (stripe : ℕ) (mark : ℕ)
            → gathered first self.old xs
            → gathered first self.new (xs ++ sections_of stripe (Some (mark, part.now)))) }
        ensures err { IfErr result (λ refusal. (refusal ≡ Refusal.NoMemory)
            × ((first : Self) (xs : List Section)
            → gathered first self.old xs → gathered first self.new xs)) };
}

/// The walk, once what is made of the part that it lends is added. If no memory is found for that, the
/// stripe is to go back as it was taken.
fn gather_lent<G: Gathers>(gathering: &mut G, walk: PartsWalk) -> PartsWalk
    ensures gathers { (first : G) (xs : List Section) → G.gathered first gathering.old xs
        → G.gathered first gathering.new (xs ++ lent_sections result) }
    ensures fits { (n : ℕ) (b : Record) (xs : List Section) (p : Record)
        → Fits n b xs walk p → Fits n b xs result p }
{
    let added = match walk.lent() {
        Some((_mark, part)) => gathering.gather(part),
        None => return walk,
    };
    match added {
        Ok(()) => walk,
        Err(_) => walk.give_back(),
    }
}

/// Gathers the parts of a view, and returns once its greatest mark is durable. It waits for each
/// stripe, and for that.
///
/// `NoMemory` leaves no stripe held. `Failed` if the store has failed before the greatest mark became
/// durable.
pub(crate) fn gather_all<D: Disk + Drop, R: Wait, G: Gathers>(
    rt: &R,
    map: &DurableMap<D>,
    pass: &mut Pass,
    gathering: &mut G,
) -> Result<(), Refusal>
    requires ready { IsReady map.now pass.old }
    requires begins { G.gathered gathering.old gathering.old [] }

    // All parts were gathered, or none was left held.
    ensures done { OnOk result ((xs : List Section)
        × IsDone (stripe_count map.now) (recorded pass.old) xs (recorded pass.new)
        × G.gathered gathering.old gathering.new xs) }
    ensures refused { IfErr result (λ refusal. (xs : List Section)
        × Refuses (stripe_count map.now) (recorded pass.old) xs refusal (recorded pass.new)) }
    ensures ready { IsReady map.now pass.new }
    ensures same { IsSamePass pass.old pass.new }
{
    let backoff = Backoff::new();
    let mut walk = PartsWalk::new();
    for _step in rt.forever() {
        let stripe = walk.stripe_to_take();
        match map.parts_step(pass, walk)? {
            PartsWalked::More(next) => {
                pause(rt, map, &backoff, stripe, &next);
                walk = gather_lent(gathering, next);
            }
            PartsWalked::Done => return Ok(()),
        }
    }
    unreachable!()
}
