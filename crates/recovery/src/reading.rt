//! The map of the files, as it is read.
ghost use Rattle.std.specs.Prelude.{◌≡◌, ◌+◌, List, Option, IfOk, IfErr, OnOk, OnErr};
ghost use Rattle.disk_model.specs.Calls.{Looks};
ghost use Rattle.disk_model.specs.Files.{now};
ghost use Rattle.file_pieces.specs.Counting.{Made, MadeAtMost};
ghost use Rattle.log_records.specs.Layout.{layout_of};
ghost use Rattle.store_layout.specs.Calls.{logs_calls, opening_calls, reading_calls};
ghost use Rattle.store_layout.specs.Failures.{AreFilesRefused};
ghost use Rattle.store_layout.specs.Logs.{Batch};
ghost use Rattle.store_layout.specs.Checkpoints.{checkpoint_file, is_to_close};
ghost use Rattle.store_layout.specs.Opening.{AreBadLogs, AreLogs, Holds, Opened, Refuses};
ghost use Rattle.checkpoint_file.specs.Loads.{checkpoint_of, AreLoaded, AreRising};
ghost use Rattle.gate_log.specs.Scan.{failed_in};
ghost use Rattle.recovery.specs.Dividing.{ArePartsOf};
ghost use Rattle.recovery.specs.Lanes.{Runs};
ghost use Rattle.recovery.specs.LogReading.{contents_of, IsResumed, RefusesFor};
ghost use Rattle.recovery.specs.Opening.{IsOpened, IsRestored, files_calls};
ghost use Rattle.recovery.specs.Syncing.{Stopped, SyncsAndLooks};

use crate::heads::newest_file;
use crate::lanes::Lane;
use crate::logs::{damaged, read_logs};
use crate::restoring::{Restoring, greatest_of};
use crate::syncing::sync_files;
use atomic_methods::Part;
use checkpoint_file::{LoadedCheckpoint, load, must_close};
use disk_model::Disk;
use gate_log::GateLog;
use java_hash::StripeCount;
use map_types::Refusal;
use std::alloc::Global;
use store_layout::checkpoint_file;

/// What a directory stands for.
#[derive(Drop)]
pub(crate) struct Restored {
    /// The parts of the map, one for each stripe in order.
    pub parts: Vec<Part>,
    /// The generation of the checkpoint that was used.
    pub sealed: u64,
    /// The newest log, which goes on behind its last batch.
    pub log: GateLog,
}

/// The map of this checkpoint and its logs.
fn restore_from<D: Disk, F: Fn(&mut [Lane])>(
    run_each: &F,
    alloc: Global,
    disk: &mut D,
    stripes: StripeCount,
    loaded: LoadedCheckpoint,
) -> Result<Restored, Refusal>
    requires runs { Runs F.Fn run_each.now }

    // The sections of the checkpoint were read, in order.
    requires loaded { AreLoaded (layout_of loaded.version) loaded.stripes.count
        loaded.sections.items }

    // The disk is only looked at: for each log its length, then its pieces.
    ensures looks { Looks D.states D.failures D.honest (failed_in result) disk.old disk.new }
    ensures called { D.honest disk.new → (first : List Batch) (second : Option (List Batch))
        → AreLogs (contents_of D.states disk.old) (checkpoint_of loaded) first second
        → OnOk result
        (Made D.states
        (logs_calls (contents_of D.states disk.old) (checkpoint_of loaded) first second) disk.old
        disk.new) }
    ensures tried { D.honest disk.new → (first : List Batch) (second : Option (List Batch))
        → AreLogs (contents_of D.states disk.old) (checkpoint_of loaded) first second
        → OnErr result
        (MadeAtMost D.states
        (logs_calls (contents_of D.states disk.old) (checkpoint_of loaded) first second) disk.old
        disk.new) }

    // On an honest disk the parts are of the map, and the newest log goes on.
    ensures resumed { IfOk result (λ found. IsResumed found.log) }
    ensures parts { IfOk result (λ found. ArePartsOf stripes.count found.parts.items) }
    ensures ok { D.honest disk.new → AreRising loaded.sections.items
        → IfOk result
        (IsRestored (contents_of D.states disk.old) (checkpoint_of loaded) stripes.count) }

    // Refused by a call, for memory, or for a fault; on an honest disk the logs are damaged.
    ensures listed { IfErr result AreFilesRefused }
    ensures err { D.honest disk.new → IfErr result (λ refusal. RefusesFor
        (AreBadLogs (contents_of D.states disk.old) (checkpoint_of loaded) refusal) refusal) }
{
    let generation = loaded.generation;
    let low = loaded.low;
    let mut restoring = Restoring::new(alloc, stripes, loaded)?;
    let log = read_logs(run_each, alloc, disk, generation, low, &mut restoring)?;
    if log.committed() < greatest_of(&restoring.marks) {
        return Err(damaged(&log));
    }
    let parts = restoring.divided.into_parts(run_each, alloc)?;
    Ok(Restored {
        parts,
        sealed: generation,
        log,
    })
}

/// Restores the map that the files stand for, divided for `stripes` stripes, and looks at the files
/// alone.
fn restore<D: Disk, F: Fn(&mut [Lane])>(
    run_each: &F,
    alloc: Global,
    disk: &mut D,
    stripes: StripeCount,
) -> Result<Restored, Refusal>
    requires { Runs F.Fn run_each.now }

    // The disk is only looked at: `files_calls` times, at most if refused.
    ensures looks { Looks D.states D.failures D.honest (failed_in result) disk.old disk.new }
    ensures called { D.honest disk.new → (found : Opened)
        → Holds (contents_of D.states disk.old) found
        → OnOk result
        (Made D.states (files_calls (contents_of D.states disk.old) found) disk.old disk.new) }
    ensures tried { D.honest disk.new → (found : Opened)
        → Holds (contents_of D.states disk.old) found
        → OnErr result
        (MadeAtMost D.states (files_calls (contents_of D.states disk.old) found) disk.old
        disk.new) }

    // On an honest disk the parts are of its files' map; the log goes on.
    ensures resumed { IfOk result (λ found. IsResumed found.log) }
    ensures parts { IfOk result (λ found. ArePartsOf stripes.count found.parts.items) }
    ensures ok { D.honest disk.new
        → IfOk result (IsOpened (contents_of D.states disk.old) stripes.count) }

    // Refused by a call, memory, or a fault; on an honest disk what its files hold.
    ensures listed { IfErr result AreFilesRefused }
    ensures err { D.honest disk.new → IfErr result (λ refusal. RefusesFor
        (Refuses (contents_of D.states disk.old) refusal) refusal) }
{
    let file = newest_file(disk)?;
    let Some(loaded) = load(alloc, disk, file)? else {
        return Err(Refusal::NotFormatted);
    };
    restore_from(run_each, alloc, disk, stripes, loaded)
}

/// Restores the map that the files stand for, and says whether the gate of the file that the next
/// checkpoint goes to is to be closed. It looks at the files alone.
fn read_files<D: Disk, F: Fn(&mut [Lane])>(
    run_each: &F,
    alloc: Global,
    disk: &mut D,
    stripes: StripeCount,
) -> Result<(Restored, bool), Refusal>
    requires { Runs F.Fn run_each.now }

    // The disk is only looked at: `reading_calls` times, at most if refused.
    ensures looks { Looks D.states D.failures D.honest (failed_in result) disk.old disk.new }
    ensures called { D.honest disk.new → (found : Opened)
        → Holds (contents_of D.states disk.old) found
        → OnOk result
        (Made D.states (reading_calls (contents_of D.states disk.old) found) disk.old disk.new) }
    ensures tried { D.honest disk.new → (found : Opened)
        → Holds (contents_of D.states disk.old) found
        → OnErr result
        (MadeAtMost D.states (reading_calls (contents_of D.states disk.old) found) disk.old
        disk.new) }

    // On an honest disk: the parts of its map, and if a gate is to be closed.
    ensures resumed { IfOk result (λ x. IsResumed x.0.log) }
    ensures parts { IfOk result (λ x. ArePartsOf stripes.count x.0.parts.items) }
    ensures ok { D.honest disk.new → IfOk result (λ x. IsOpened (contents_of D.states disk.old)
        stripes.count x.0) }
    ensures gate { D.honest disk.new → IfOk result (λ x. x.1 ≡ is_to_close
        (contents_of D.states disk.old (checkpoint_file (x.0.sealed + 1)))) }

    // Refused by a call, memory, or a fault; on an honest disk what its files hold.
    ensures listed { IfErr result AreFilesRefused }
    ensures err { D.honest disk.new → IfErr result (λ refusal. RefusesFor
        (Refuses (contents_of D.states disk.old) refusal) refusal) }
{
    let restored = restore(run_each, alloc, disk, stripes)?;
    let must_close = must_close(disk, 1 - checkpoint_file(restored.sealed))?;
    Ok((restored, must_close))
}

/// Syncs the files, and reads them.
pub(crate) fn open_files<D: Disk, F: Fn(&mut [Lane])>(
    run_each: &F,
    alloc: Global,
    disk: &mut D,
    stripes: StripeCount,
) -> Result<(Restored, bool), Refusal>
    requires { Runs F.Fn run_each.now }

    // Four syncs, then looks: `opening_calls` in all, at most that if refused.
    ensures calls { OnOk result (SyncsAndLooks D.states D.failures D.honest 4 0 disk.old disk.new) }
    ensures stopped { IfErr result (Stopped D.states D.failures D.honest 4 disk.old disk.new) }
    ensures made { D.honest disk.new → (found : Opened)
        → Holds (contents_of D.states disk.old) found
        → OnOk result
        (Made D.states (opening_calls (contents_of D.states disk.old) found) disk.old disk.new) }
    ensures tried { D.honest disk.new → (found : Opened)
        → Holds (contents_of D.states disk.old) found
        → OnErr result
        (MadeAtMost D.states (opening_calls (contents_of D.states disk.old) found) disk.old
        disk.new) }

    // An honest disk was so before.
    ensures was_honest { D.honest disk.new → D.honest disk.old }

    // On an honest disk: the parts of its map, and if a gate is to be closed.
    ensures resumed { IfOk result (λ x. IsResumed x.0.log) }
    ensures parts { IfOk result (λ x. ArePartsOf stripes.count x.0.parts.items) }
    ensures ok { D.honest disk.new → IfOk result (λ x. IsOpened (contents_of D.states disk.old)
        stripes.count x.0) }
    ensures gate { D.honest disk.new → IfOk result (λ x. x.1 ≡ is_to_close
        (contents_of D.states disk.old (checkpoint_file (x.0.sealed + 1)))) }

    // Refused by a call, memory, or a fault; on an honest disk what its files hold.
    ensures listed { IfErr result AreFilesRefused }
    ensures err { D.honest disk.new → IfErr result (λ refusal. RefusesFor
        (Refuses (contents_of D.states disk.old) refusal) refusal) }
{
    sync_files(disk, 4)?;
    read_files(run_each, alloc, disk, stripes)
}
