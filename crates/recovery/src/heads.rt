//! Which of the two checkpoints is used.
ghost use Rattle.std.specs.Prelude.{◌≡◌, ◌⊎◌, ◌<◌, Some, IfOk, IfErr, OnOk, OnErr};
ghost use Rattle.disk_model.specs.Calls.{Looks};
ghost use Rattle.file_pieces.specs.Counting.{Made, MadeAtMost};
ghost use Rattle.store_layout.specs.Failures.{AreFilesRefused};
ghost use Rattle.store_layout.specs.Opening.{heads_fault};
ghost use Rattle.checkpoint_file.specs.Heads.{failed_in};
ghost use Rattle.recovery.specs.Heads.{IsUsed};
ghost use Rattle.recovery.specs.LogReading.{contents_of};

use checkpoint_file::read_head;
use disk_model::Disk;
use map_types::Refusal;

/// The number of the file whose checkpoint is used: of those that are sealed the one with the greater
/// generation. It reads both heads, and no more.
pub(crate) fn newest_file<D: Disk>(disk: &mut D) -> Result<usize, Refusal>
    // The disk is only looked at, in two calls, or at most two on an error.
    ensures looks { Looks D.states D.failures D.honest (failed_in result) disk.old disk.new }
    ensures called { OnOk result (Made D.states 2 disk.old disk.new) }
    ensures tried { OnErr result (MadeAtMost D.states 2 disk.old disk.new) }

    // The file is 0 or 1; on an honest disk its checkpoint is the one used.
    ensures file { IfOk result (λ file. file < 2) }
    ensures ok { D.honest disk.new → IfOk result (IsUsed (contents_of D.states disk.old)) }

    // Refused by a failed call, or for what is wrong with the heads.
    ensures listed { IfErr result AreFilesRefused }
    ensures err { IfErr result (λ refusal. (refusal ≡ Refusal.Failed)
        ⊎ (D.honest disk.new → heads_fault (contents_of D.states disk.old) ≡ Some refusal)) }
{
    let first = read_head(disk, 0)?;
    let second = read_head(disk, 1)?;
    match (first, second) {
        (None, None) => Err(Refusal::NotFormatted),
        (Some(_), None) => Ok(0),
        (None, Some(_)) => Ok(1),
        (Some(first), Some(second)) if second.generation < first.generation => Ok(0),
        (Some(_), Some(_)) => Ok(1),
    }
}
