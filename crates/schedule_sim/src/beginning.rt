//! The store that a schedule begins with.
ghost use Rattle.std.specs.Prelude.{IfOk};
ghost use Rattle.sim_rules.specs.World.{old_start, start};
ghost use Rattle.schedule_sim.specs.Storing.{IsStore};

use crate::store::Store;
use crate::traced::Traced;
use java_hash::StripeCount;
use log_records::Version;
use recovery::{format, format_as};
use std::alloc::{AllocError, Global};

/// A closed store with an empty map, formatted for 16 stripes.
pub(crate) fn formatted(alloc: Global) -> Result<Store, AllocError>
    ensures { IfOk result (IsStore start 0) }
{
    let mut disk = Traced::new(alloc);
    match format(alloc, &mut disk, StripeCount { count: 16 }) {
        Ok(()) => Ok(Store::Closed(disk)),
        Err(_) => Err(AllocError),
    }
}

/// The same, formatted in version 01.
pub(crate) fn old_directory(alloc: Global) -> Result<Store, AllocError>
    ensures { IfOk result (IsStore old_start 0) }
{
    let mut disk = Traced::new(alloc);
    match format_as(alloc, &mut disk, StripeCount { count: 16 }, Version::First) {
        Ok(()) => Ok(Store::Closed(disk)),
        Err(_) => Err(AllocError),
    }
}
