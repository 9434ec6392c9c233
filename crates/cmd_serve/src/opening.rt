//! A directory is opened, and then its map, in the newest version of the files.
ghost use Rattle.std.specs.Prelude.{◌≡◌, ◌≢◌, ◌⊎◌, true, IfOk, IfErr};
ghost use Rattle.std.specs.IoError.{error_kind};
ghost use Rattle.durable_map.specs.Maps.{opening_of, stripe_count};
ghost use Rattle.recovery.specs.LogReading.{contents_of};
ghost use Rattle.recovery.specs.Opening.{IsNotOpened, OpensWith};
ghost use Rattle.cmd_serve.specs.Opening.{HasFound, IsNotOpenedNewest, IsOpenedNewest};

use atomic_methods::Part;
use cmd_directory::{Directories, create_directory};
use disk_model::Disk;
use durable_map::DurableMap;
use flusher::Keeper;
use java_hash::StripeCount;
use log::{Log, info};
use map_model::laws;
use map_types::Refusal;
use recovery::{open_parts_with, upgrade};
use std::alloc::Global;
use std::io::ErrorKind;
use std::sync::Wait;
use std::thread::Threads;
use std::time::{Clock, Duration};
use std::{io, thread};
use store_layout::NEW_VERSION;

/// How long a server that stands by waits before it tries the locks of its directory again, in
/// milliseconds.
const LOCK_PAUSE: u64 = 250;

/// Opens the directory, whose absent files are made. If another process has one of its locks, that is tried
/// again for a second. A server that stands by tries for ever, and one record says that it waits. Until it
/// has the lock of the directory it opens none of the four files.
pub(crate) fn open_directory<M: Directories, R: Clock + Log + Wait>(
    rt: &R,
    machine: &M,
    alloc: Global,
    directory: &str,
    stands_by: bool,
) -> io::Result<M::Opened>
    ensures opened { IfOk result (λ disk. M.is_created directory.now disk) }
    ensures refused { IfErr result (λ cause. M.is_refused directory.now cause) }
    ensures waits { stands_by ≡ true
        → IfErr result (λ cause. error_kind cause ≢ ErrorKind.WouldBlock) }
{
    if !stands_by {
        return create_directory(rt, machine, alloc, directory);
    }
    let mut has_said = false;
    for _turn in rt.forever() {
        let cause = match machine.create_files(alloc, directory) {
            Ok(disk) => return Ok(disk),
            Err(cause) => cause,
        };
        if cause.kind() != ErrorKind::WouldBlock {
            return Err(cause);
        }
        if !has_said {
            info!(rt; "waiting for the lock of {directory}");
            has_said = true;
        }
        thread::sleep(rt, Duration::from_millis(LOCK_PAUSE));
    }
    unreachable!()
}

/// What was found in a directory, as `open_parts_with` returns it.
#[derive(Drop)]
pub(crate) struct Found<D: Disk> {
    keeper: Keeper<D>,
    parts: Vec<Part>,
    /// How many commands were made.
    pub(crate) first: u64,
    limit: u16,
}

/// Opens the disk, which writes nothing. Refused as `open_parts_with` is; the disk is handed back.
pub(crate) fn find<D: Disk, L: Threads + Sync>(
    rt: &L,
    alloc: Global,
    disk: D,
    stripes: StripeCount,
) -> Result<Found<D>, (D, Refusal)>
    ensures ok { IfOk result (HasFound D.states D.failures D.honest stripes disk) }
    ensures err { IfErr result (λ x. IsNotOpened D.states D.failures D.honest disk x.0 x.1) }
{
    let (keeper, parts, first, limit) = open_parts_with(rt, alloc, disk, stripes)?;
    Ok(Found {
        keeper,
        parts,
        first,
        limit,
    })
}

/// The map of what was found, and how many commands it begins with. If the newest log is of an earlier
/// version, the directory is upgraded, the log has a record of it, and the directory is opened again.
/// Else nothing is written.
/// Refused as `open_parts_with` and `upgrade` are; or with `NoMemory`, or with `SeatsSpent` if the keeper's
/// pass can't be had. The disk is handed back with a refusal.
pub(crate) fn open_map<D: Disk + Drop, L: Log + Threads + Sync>(
    rt: &L,
    alloc: Global,
    found: Found<D>,
    stripes: StripeCount,
) -> Result<(DurableMap<D>, u64), (D, Refusal)>
    requires found { (old : D) × HasFound D.states D.failures D.honest stripes old found }

    // On an honest disk the map is that of the files that were opened last.
    ensures ok { (old : D) → HasFound D.states D.failures D.honest stripes old found
        → IfOk result (λ x. (new : D)
        × (opened : IsOpenedNewest D.states D.failures D.honest old new)
        × (D.honest new → OpensWith (contents_of D.states opened.ready) (opening_of x.0))) }
    ensures stripes { IfOk result (λ x. stripe_count x.0 ≡ stripes.count) }
    ensures first { IfOk result (λ x. x.1 ≡ (opening_of x.0).first) }

    // The disk was opened and there is no map over it, or an opening or the upgrade was refused.
    ensures err { (old : D) → HasFound D.states D.failures D.honest stripes old found
        → IfErr result (λ x.
        (IsOpenedNewest D.states D.failures D.honest old x.0
        × ((x.1 ≡ Refusal.NoMemory) ⊎ (x.1 ≡ Refusal.SeatsSpent)))
        ⊎ IsNotOpenedNewest D.states D.failures D.honest stripes.count old x.0 x.1) }
{
    laws::laws_of_parts();
    let Found {
        keeper,
        parts,
        first,
        limit,
    } = found;
    if keeper.log.version() == NEW_VERSION {
        let map = DurableMap::new(alloc, keeper, parts, first, limit)?;
        return Ok((map, first));
    }
    drop(parts);
    let upgraded = upgrade(alloc, keeper.into_disk(), stripes)?;
    let version = NEW_VERSION.byte();
    info!(rt; "upgraded to version {version}");
    let (keeper, parts, first, limit) = open_parts_with(rt, alloc, upgraded, stripes)?;
    let map = DurableMap::new(alloc, keeper, parts, first, limit)?;
    Ok((map, first))
}
