//! A whole commit.
ghost use Rattle.std.specs.Prelude.{◌≡◌, ◌++◌, false, true, List, [], IfErr, OnOk};
ghost use Rattle.disk_model.specs.Files.{now};
ghost use Rattle.disk_model.specs.Moments.{AtEachMoment};
ghost use Rattle.store_layout.specs.Logs.{Batch, log_file};
ghost use Rattle.gate_log.specs.States.{log_after};
ghost use Rattle.gate_log.specs.LogStates.{Stands, IsKept};

use crate::log::GateLog;
use disk_model::Disk;
use map_types::Refusal;
use store_layout::Phase;

/// Commits what is staged, by four device calls. The frame is written behind the closed gate, and
/// synced. Then the gate is opened, and that is synced.
pub fn commit_staged<D: Disk>(log: &mut GateLog, disk: &mut D) -> Result<(), Refusal>
    // Something is staged, no call has failed, and the file is as the log knows it.
    requires phase { log.old.phase ≡ Phase.Staged }
    requires works { log.old.is_broken ≡ false }
    requires stands { D.honest disk.old → (batches : List Batch) × (staged : List Batch)
        × Stands log.old batches staged (now (D.states disk.old) (log_file log.old.generation)) }

    // A stop at any moment leaves what was committed, or what is staged too.
    ensures any_moment { (batches : List Batch) (staged : List Batch)
        → Stands log.old batches staged (now (D.states disk.old) (log_file log.old.generation))
        → AtEachMoment D.states disk.old disk.new
        (IsKept log.old batches staged (now (D.states disk.old))) }

    // If all calls succeed what was staged is committed, and nothing is staged.
    ensures ok { OnOk result (log.new ≡ log_after Phase.Opened log.old) }
    ensures stands { OnOk result
        ((batches : List Batch) (staged : List Batch)
        → Stands log.old batches staged (now (D.states disk.old) (log_file log.old.generation))
        → Stands log.new (batches ++ staged) []
        (now (D.states disk.new) (log_file log.old.generation))) }

    // If a call fails the log has failed for good, and counts no more commands.
    ensures err { IfErr result (λ refusal. (refusal ≡ Refusal.Failed) × (log.new.is_broken ≡ true)
        × (log.new.committed ≡ log.old.committed)) }
{
    let _written = log.advance(disk)?;
    let _synced = log.advance(disk)?;
    let _opened = log.advance(disk)?;
    let _idle = log.advance(disk)?;
    Ok(())
}
