//! The logs of a checkpoint.
ghost use Rattle.std.specs.Prelude.{◌≡◌, ℕ, List, Option, IfOk, IfErr, OnOk, OnErr};
ghost use Rattle.disk_model.specs.Calls.{Looks};
ghost use Rattle.file_pieces.specs.Counting.{Made, MadeAtMost};
ghost use Rattle.store_layout.specs.Calls.{log_calls, logs_calls};
ghost use Rattle.store_layout.specs.Checkpoints.{Section};
ghost use Rattle.store_layout.specs.Failures.{AreFilesRefused, IsFileRefused};
ghost use Rattle.store_layout.specs.Logs.{Batch, log_file};
ghost use Rattle.store_layout.specs.Opening.{AreBadLogs, AreLogs, log_layout};
ghost use Rattle.gate_log.specs.Scan.{failed_in, log_bytes};
ghost use Rattle.recovery.specs.Lanes.{Runs};
ghost use Rattle.recovery.specs.Restoring.{IsOfSome, IsSameFrame};
ghost use Rattle.recovery.specs.LogReading.{contents_of, checkpoint_with, AreReplayed, EndsAt, IsBadLog, IsLogRead, IsResumed, RefusesFor, end_gate};

use crate::lanes::Lane;
use crate::replay::{End, replay};
use crate::restoring::Restoring;
use disk_model::Disk;
use gate_log::{GateLog, Scan};
use map_types::Refusal;
use std::alloc::Global;
use store_layout::log_file;

/// The refusal of a log that is damaged at its last gate.
pub(crate) fn damaged(log: &GateLog) -> Refusal
    ensures { result ≡ Refusal.Damaged (log_file log.now.generation) log.now.gate }
{
    Refusal::Damaged {
        file: log_file(log.generation()) as u8,
        offset: log.gate() as u64,
    }
}

/// Makes the changes of one log.
fn read_log<D: Disk, F: Fn(&mut [Lane])>(
    run_each: &F,
    alloc: Global,
    disk: &mut D,
    generation: u64,
    low: u64,
    restoring: &mut Restoring,
) -> Result<(End, GateLog), Refusal>
    requires { Runs F.Fn run_each.now }

    // The disk is only looked at: the file's length, and then its pieces.
    ensures looks { Looks D.states D.failures D.honest (failed_in result) disk.old disk.new }
    ensures called { IfOk result (λ x. Made D.states (log_calls (end_gate x.0 x.1.gate)) disk.old
        disk.new) }
    ensures tried { D.honest disk.new → (last : ℕ)
        → EndsAt (log_layout (log_bytes D.states disk.old generation)) generation low
        (log_bytes D.states disk.old generation) last
        → OnErr result (MadeAtMost D.states (log_calls last) disk.old disk.new) }

    // On an honest disk its changes are made, and the log goes on behind them.
    ensures same { IsSameFrame restoring.old restoring.new }
    ensures some { OnOk result (IsOfSome restoring.old → IsOfSome restoring.new) }
    ensures resumed { IfOk result (λ x. IsResumed x.1) }
    ensures ok { D.honest disk.new → IfOk result (λ x. IsLogRead generation low
        (log_bytes D.states disk.old generation) restoring.old x.0 x.1 restoring.new) }

    // Refused by a call, for memory, or for a fault; on an honest disk the log is damaged.
    ensures listed { IfErr result (IsFileRefused (log_file generation)) }
    ensures err { D.honest disk.new → IfErr result (λ refusal. RefusesFor
        (IsBadLog generation low (log_bytes D.states disk.old generation) refusal) refusal) }
{
    let mut scan = Scan::begin(alloc, disk, generation, low)?;
    let end = replay(run_each, alloc, disk, generation, &mut scan, restoring)?;
    let version = scan.version();
    let log = GateLog::resume(
        alloc,
        version,
        generation,
        low,
        scan.gate(),
        scan.expected(),
    );
    Ok((end, log))
}

/// Makes the changes of the log of this generation and, if that has ended, those of the next.
/// Returns the newest of the two.
pub(crate) fn read_logs<D: Disk, F: Fn(&mut [Lane])>(
    run_each: &F,
    alloc: Global,
    disk: &mut D,
    generation: u64,
    low: u64,
    restoring: &mut Restoring,
) -> Result<GateLog, Refusal>
    requires { Runs F.Fn run_each.now }

    // The disk is only looked at: for each log its length, then its pieces.
    ensures looks { Looks D.states D.failures D.honest (failed_in result) disk.old disk.new }
    ensures called { D.honest disk.new → (stripes : ℕ) (sections : List Section)
        (first : List Batch) (second : Option (List Batch))
        → AreLogs (contents_of D.states disk.old) (checkpoint_with generation low stripes sections)
        first second
        → OnOk result
        (Made D.states
        (logs_calls (contents_of D.states disk.old)
        (checkpoint_with generation low stripes sections) first second)
        disk.old disk.new) }
    ensures tried { D.honest disk.new → (stripes : ℕ) (sections : List Section) (first : List Batch)
        (second : Option (List Batch))
        → AreLogs (contents_of D.states disk.old) (checkpoint_with generation low stripes sections)
        first second
        → OnErr result
        (MadeAtMost D.states
        (logs_calls (contents_of D.states disk.old)
        (checkpoint_with generation low stripes sections) first second)
        disk.old disk.new) }

    // On an honest disk the changes are made, and the newest log goes on.
    ensures same { IsSameFrame restoring.old restoring.new }
    ensures some { OnOk result (IsOfSome restoring.old → IsOfSome restoring.new) }
    ensures resumed { IfOk result IsResumed }
    ensures ok { D.honest disk.new → (stripes : ℕ) (sections : List Section)
        → IfOk result
        (AreReplayed (contents_of D.states disk.old)
        (checkpoint_with generation low stripes sections) restoring.old restoring.new) }

    // Refused by a call, for memory, or for a fault; on an honest disk the logs are damaged.
    ensures listed { IfErr result AreFilesRefused }
    ensures err { D.honest disk.new → (stripes : ℕ) (sections : List Section)
        → IfErr result (λ refusal.
        RefusesFor
        (AreBadLogs (contents_of D.states disk.old)
        (checkpoint_with generation low stripes sections) refusal) refusal) }
{
    let (end, first) = read_log(run_each, alloc, disk, generation, low, restoring)?;
    if end == End::Closed {
        return Ok(first);
    }
    let Some(next) = generation.checked_add(1) else {
        return Err(damaged(&first));
    };
    let (end, second) = read_log(run_each, alloc, disk, next, first.committed(), restoring)?;
    match end {
        End::Closed => Ok(second),
        End::Ended => Err(damaged(&second)),
    }
}
