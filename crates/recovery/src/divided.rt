//! The map while it is restored, divided into the parts of its stripes.
ghost use Rattle.std.specs.Prelude.{◌≡◌, [], false, length, IfOk, IfErr, OnOk};
ghost use Rattle.std.specs.List.{AllByRecursion};
ghost use Rattle.bin_table.specs.Tables.{spread_of_key};
ghost use Rattle.map_model.specs.Maps.{Map};
ghost use Rattle.map_model.specs.Steps.{step};
ghost use Rattle.recovery.specs.Dividing.{AreGroups, ArePartsOf, IsDivided, lists_of};
ghost use Rattle.recovery.specs.Lanes.{AreLanesOf, Runs};

use crate::grouping::Groups;
use crate::lanes::{Lane, is_any_refused, parts_of};
use atomic_methods::Part;
use java_hash::{StripeCount, stripe_of_spread};
use map_model::laws;
use map_types::{Command, Refusal};
use std::alloc::Global;

/// So many changes are due at most before they are made. To share them among threads is worth
/// while for some thousand.
const MOST_DUE: usize = 4_096;

/// The parts of a map, one for each stripe in order, with the changes that are due in them.
#[derive(Drop)]
pub(crate) struct Divided {
    pub stripes: StripeCount,
    pub lanes: Vec<Lane>,
    // How many changes are due. Nothing but the time of opening rests on it.
    due: usize,
    ghost one_each: { length lanes.items ≡ stripes.count },
}

impl Divided {
    /// The parts of the map with these entries.
    pub(crate) fn with_entries(alloc: Global, groups: Groups) -> Result<Divided, Refusal>
        requires { (m : Map) × AreGroups groups.stripes.count m (lists_of groups.lists) }
        ensures ok { IfOk result (λ divided. (m : Map)
            → AreGroups groups.stripes.count m (lists_of groups.lists)
            → AreLanesOf groups.stripes.count m divided.lanes.items) }
        ensures stripes { IfOk result (λ divided. divided.stripes ≡ groups.stripes) }
        ensures err { IfErr result (λ refusal. refusal ≡ Refusal.NoMemory) }
    {
        let Groups { stripes, lists } = groups;
        let mut lanes = Vec::new(alloc);
        for list in lists {
            lanes.push(Lane::new(alloc, stripes, list))?;
        }
        Ok(Divided {
            stripes,
            lanes,
            due: 0,
        })
    }

    /// The change is due in the part of its key, whose hash has this spread.
    pub(crate) fn queue(&mut self, command: Command, spread: u32) -> Result<(), Refusal>
        requires { spread ≡ spread_of_key command.key }
        ensures stripes { self.new.stripes ≡ self.old.stripes }
        ensures ok { OnOk result
            ((m : Map) → AreLanesOf self.old.stripes.count m self.old.lanes.items
            → AreLanesOf self.old.stripes.count (step m command).map self.new.lanes.items) }
        ensures err { IfErr result (λ refusal. refusal ≡ Refusal.NoMemory) }
    {
        let stripe = stripe_of_spread(spread, self.stripes);
        self.lanes[stripe].queue(command, spread)?;
        self.due = self.due.saturating_add(1);
        Ok(())
    }

    /// Makes what is due, each part's changes in their order.
    fn run<F: Fn(&mut [Lane])>(&mut self, run_each: &F) -> Result<(), Refusal>
        requires { Runs F.Fn run_each.now }
        ensures stripes { self.new.stripes ≡ self.old.stripes }
        ensures ok { OnOk result
            ((m : Map) → AreLanesOf self.old.stripes.count m self.old.lanes.items
            → AreLanesOf self.old.stripes.count m self.new.lanes.items) }
        ensures none { OnOk result
            (AllByRecursion (λ lane. lane.due.items ≡ []) self.new.lanes.items) }
        ensures err { IfErr result (λ refusal. refusal ≡ Refusal.NoMemory) }
    {
        run_each(&mut self.lanes);
        self.due = 0;
        if is_any_refused(&self.lanes) {
            return Err(Refusal::NoMemory);
        }
        Ok(())
    }

    /// Makes what is due, if that is worth while.
    pub(crate) fn run_if_many<F: Fn(&mut [Lane])>(&mut self, run_each: &F) -> Result<(), Refusal>
        requires { Runs F.Fn run_each.now }
        ensures stripes { self.new.stripes ≡ self.old.stripes }
        ensures ok { OnOk result
            ((m : Map) → AreLanesOf self.old.stripes.count m self.old.lanes.items
            → AreLanesOf self.old.stripes.count m self.new.lanes.items) }
        ensures err { IfErr result (λ refusal. refusal ≡ Refusal.NoMemory) }
    {
        if self.due < MOST_DUE {
            return Ok(());
        }
        self.run(run_each)
    }

    /// The parts, once what is due is made.
    pub(crate) fn into_parts<F: Fn(&mut [Lane])>(
        mut self,
        run_each: &F,
        alloc: Global,
    ) -> Result<Vec<Part>, Refusal>
        requires { Runs F.Fn run_each.now }
        ensures ok { IfOk result (λ parts. (m : Map)
            → AreLanesOf self.stripes.count m self.lanes.items
            → IsDivided self.stripes.count m parts.items) }
        ensures own { IfOk result (λ parts. (m : Map)
            → AreLanesOf self.stripes.count m self.lanes.items
            → ArePartsOf self.stripes.count parts.items) }
        ensures err { IfErr result (λ refusal. refusal ≡ Refusal.NoMemory) }
    {
        laws::laws_of_parts();
        self.run(run_each)?;
        parts_of(alloc, self.lanes)
    }
}
