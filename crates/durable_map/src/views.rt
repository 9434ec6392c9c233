//! The steps of a view of the whole map, and the wait between two of them.
ghost use Rattle.std.specs.Prelude.{◌++◌, List};
ghost use Rattle.ticket_order.specs.declared.record.Record.{Record};
ghost use Rattle.ticket_order.specs.declared.record.Section.{Section};
ghost use Rattle.view_walk.specs.Walking as walking;
ghost use Rattle.view_walk.specs.Walking.{lent_sections};
ghost use Rattle.view_walk.specs.Viewing.{Fits, Next, next_kind};
ghost use Rattle.stripe_locks.specs.Passes.{recorded, IsSamePass};
ghost use Rattle.durable_map.specs.Durable.{MakesStep};
ghost use Rattle.durable_map.specs.Maps.{IsPassOf, LeavesReady, PartsLeaveReady, stripe_count};

use crate::map::DurableMap;
use crossbeam_utils::Backoff;
use disk_model::Disk;
use map_types::Refusal;
use std::sync::Wait;
use stripe_locks::Pass;
use view_walk::{PartsWalk, PartsWalked, ViewWalk, Viewed};

impl<D: Disk + Drop> DurableMap<D> {
    /// Makes exactly one step of a view, by the pass that made its steps so far. A view begins as
    /// `ViewWalk::new`, with a pass that holds no stripe. It waits for nothing: if a stripe is held, or
    /// the greatest mark isn't durable yet, the view goes on where it was.
    ///
    /// `NoMemory` once the stripe that can't be copied is given back. `Failed` if the store has failed
    /// before the greatest mark became durable.
    pub fn view_step(&self, pass: &mut Pass, walk: ViewWalk) -> Result<Viewed, Refusal>
        // The pass is of this map, and the view stands as its record says.
        requires own { IsPassOf self.now pass.old }
        requires fits { (b : Record) × Fits (stripe_count self.now) b walk (recorded pass.old) }

        // One step is made, of the kind that is next, and the view stands as it says.
        ensures one { MakesStep (next_kind walk) (recorded pass.old) (recorded pass.new) }
        ensures next { (b : Record)
            → Fits (stripe_count self.now) b walk (recorded pass.old)
            → Next (stripe_count self.now) b result (recorded pass.new) }

        // Once the view has ended the pass holds no stripe, and between two stripes it holds none.
        ensures ready { LeavesReady self.now result pass.new }
        ensures same { IsSamePass pass.old pass.new }
    {
        let mut board = self.stripes.at(pass);
        walk.step(&mut board)
    }

    /// Makes exactly one step of a walk over the parts of all stripes, by the pass that made its steps
    /// so far. It begins as `PartsWalk::new`, with a pass that holds no stripe, and waits for nothing,
    /// as a view.
    ///
    /// `NoMemory` once a stripe that was to go back as it was taken is given back. `Failed` if the
    /// store has failed before the greatest mark became durable.
    pub fn parts_step(&self, pass: &mut Pass, walk: PartsWalk) -> Result<PartsWalked, Refusal>
        // The pass is of this map, and the walk stands as its record says.
        requires own { IsPassOf self.now pass.old }
        requires fits { (b : Record) × (xs : List Section)
            × walking.Fits (stripe_count self.now) b xs walk (recorded pass.old) }

        // One step is made, of the kind that is next, and the walk stands as it says. The stripe
        // whose part is lent is given back by it.
        ensures one { MakesStep (walking.next_kind walk) (recorded pass.old) (recorded pass.new) }
        ensures next { (b : Record) (xs : List Section)
            → walking.Fits (stripe_count self.now) b xs walk (recorded pass.old)
            → walking.Next (stripe_count self.now) b (xs ++ lent_sections walk) result
            (recorded pass.new) }

        // Once the walk has ended the pass holds no stripe, and between two stripes it holds none.
        ensures ready { PartsLeaveReady self.now result pass.new }
        ensures same { IsSamePass pass.old pass.new }
    {
        let mut steps = self.stripes.at(pass);
        walk.step(&mut steps)
    }

    /// Returns after a moment, when the stripe that the walk takes next may have become free, or the
    /// mark that it awaits durable. A thread that waits for a mark, or long, sleeps. It makes no step.
    pub fn wait_for_parts<R: Wait>(&self, rt: &R, backoff: &Backoff, walk: &PartsWalk) {
        match walk.position_awaited() {
            Some(position) => {
                self.wake_log();
                self.stripes.sleep_until_durable(rt, position);
            }
            None => self.wait_a_moment(rt, backoff),
        }
    }

    /// The same for a view.
    pub fn wait_for_view<R: Wait>(&self, rt: &R, backoff: &Backoff, walk: &ViewWalk) {
        self.wait_for_parts(rt, backoff, walk.parts());
    }
}
