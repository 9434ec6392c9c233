//! What is due in all lanes is made, by one thread or by many.
ghost use Rattle.std.specs.Prelude.{◌≡◌, false};
ghost use Rattle.recovery.specs.Lanes.{HasRun, RunsAll};

use crate::lanes::Lane;
use rayon::prelude::*;
use std::alloc::Global;
use std::thread::Threads;

/// Makes what is due in each lane.
pub(crate) fn run_all(alloc: Global, lanes: &mut [Lane])
    ensures { RunsAll lanes.old lanes.new }
{
    for place in 0..lanes.len() {
        lanes[place].run(alloc);
    }
}

/// The same, by a thread for each processor, where one can be started.
pub(crate) fn share_all<R: Threads + Sync>(rt: &R, alloc: Global, lanes: &mut [Lane])
    ensures { RunsAll lanes.old lanes.new }
{
    par_for_each_mut(
        rt,
        lanes,
        |_place: usize, lane: &mut Lane|
            ensures { lane.new.is_refused ≡ false → HasRun lane.old lane.new }
        { lane.run(alloc) },
    );
}
