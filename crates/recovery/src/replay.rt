//! A log is read frame by frame, and its changes are made.
ghost use Rattle.std.specs.Prelude.{◌≡◌, ℕ, ◌+◌, ◌<◌, ◌≤◌, ◌^◌, max, [], IfOk, IfErr, OnOk, OnErr};
ghost use Rattle.disk_model.specs.Calls.{Looks};
ghost use Rattle.file_pieces.specs.Counting.{ReadsPieces, ReadsAtMost};
ghost use Rattle.file_pieces.specs.Pieces.{end_of, pieces_in};
ghost use Rattle.log_records.specs.Layout.{layout_of};
ghost use Rattle.store_layout.specs.Failures.{IsFileRefused};
ghost use Rattle.store_layout.specs.Logs.{Batch, log_file};
ghost use Rattle.gate_log.specs.Scan.{HasRead, failed_in, log_bytes};
ghost use Rattle.recovery.specs.Lanes.{Runs};
ghost use Rattle.recovery.specs.Restoring.{IsOfSome, IsSameFrame};
ghost use Rattle.recovery.specs.LogReading.{EndsAt, IsBrokenFor, IsReplayed, RefusesFor, end_gate};

use crate::lanes::Lane;
use crate::restoring::Restoring;
use disk_model::Disk;
use gate_log::{Found, Scan};
use map_types::Refusal;
use std::alloc::Global;
use store_layout::log_file;

/// What stands behind the last batch of a log.
#[derive(Clone, Copy, Debug, PartialEq, Eq)]
pub(crate) enum End {
    Closed,
    Ended,
}

/// The refusal of a log that is damaged at the gate of the scan.
pub(crate) fn damaged(generation: u64, scan: &Scan) -> Refusal
    ensures value { result ≡ Refusal.Damaged (log_file generation) scan.now.gate }
    ensures fits { scan.now.gate + 1 < 2 ^ 64 }
{
    Refusal::Damaged {
        file: log_file(generation) as u8,
        offset: scan.gate() as u64,
    }
}

/// Makes the changes of the log from its first gate on, but for those that are in a section, or
/// leaves some of them due. It holds one frame at a time besides.
pub(crate) fn replay<D: Disk, F: Fn(&mut [Lane])>(
    run_each: &F,
    alloc: Global,
    disk: &mut D,
    generation: u64,
    scan: &mut Scan,
    restoring: &mut Restoring,
) -> Result<End, Refusal>
    requires runs { Runs F.Fn run_each.now }

    // The scan is of this log, and has read as far as its next gate.
    requires generation { scan.old.generation ≡ generation }
    requires reached { pieces_in (scan.old.gate + 1) ≤ pieces_in (end_of scan.old.reader) }

    // The disk is only looked at, in one call for each piece that is read.
    ensures looks { Looks D.states D.failures D.honest (failed_in result) disk.old disk.new }
    ensures called { OnOk result
        (ReadsPieces D.states disk.old disk.new scan.old.reader scan.new.reader) }
    ensures tried { D.honest disk.new → (low last : ℕ)
        → HasRead (layout_of scan.old.version) low [] scan.old
        (log_bytes D.states disk.old generation)
        → EndsAt (layout_of scan.old.version) generation low
        (log_bytes D.states disk.old generation) last
        → OnErr result
        (ReadsAtMost D.states disk.old disk.new scan.old.reader
        (max (end_of scan.old.reader) (last + 1))) }
    ensures pieces { IfOk result (λ end. pieces_in (end_of scan.new.reader)
        ≡ max (pieces_in (end_of scan.old.reader)) (pieces_in (end_gate end scan.new.gate + 1))) }

    // On an honest disk all changes that no section has are made, to the end.
    ensures same { IsSameFrame restoring.old restoring.new }
    ensures some { OnOk result (IsOfSome restoring.old → IsOfSome restoring.new) }
    ensures version { OnOk result (scan.new.version ≡ scan.old.version) }
    ensures ok { D.honest disk.new → (low : ℕ)
        → HasRead (layout_of scan.old.version) low [] scan.old
        (log_bytes D.states disk.old generation)
        → IfOk result (λ end.
        IsReplayed (layout_of scan.old.version) generation low
        (log_bytes D.states disk.old generation) restoring.old end scan.new restoring.new) }

    // Refused by a call, for memory, or for a frame that may not stand there.
    ensures listed { IfErr result (IsFileRefused (log_file generation)) }
    ensures err { IfErr result (λ refusal.
        RefusesFor
        (D.honest disk.new → (low : ℕ)
        → HasRead (layout_of scan.old.version) low [] scan.old
        (log_bytes D.states disk.old generation)
        → IsBrokenFor (layout_of scan.old.version) generation low
        (log_bytes D.states disk.old generation) refusal) refusal) }
{
    for _ in 0..u64::MAX {
        match scan.next_frame(alloc, disk)? {
            Found::Batch(entries) => restoring.apply(run_each, entries)?,
            Found::Ended => return Ok(End::Ended),
            Found::Closed => return Ok(End::Closed),
        }
    }
    Err(damaged(generation, scan))
}
