//! Files are synced before they are read.
ghost use Rattle.std.specs.Prelude.{◌≡◌, ◌≤◌, ◌+◌, OnOk, OnErr, IfErr};
ghost use Rattle.disk_model.specs.Files.{now};
ghost use Rattle.recovery.specs.Syncing.{AfterSyncs, StoppedSyncing};

use disk_model::Disk;
use map_types::Refusal;

/// Syncs the first `count` files in their order.
pub(crate) fn sync_files<D: Disk>(disk: &mut D, count: usize) -> Result<(), Refusal>
    requires { count ≤ 4 }
    ensures ok { OnOk result (AfterSyncs D.states D.failures count disk.old disk.new) }
    ensures err { OnErr result (StoppedSyncing D.states D.failures count disk.old disk.new) }
    ensures was_honest { D.honest disk.new → D.honest disk.old }
    ensures failed { IfErr result (λ refusal. refusal ≡ Refusal.Failed) }
{
    for file in 0..count {
        if disk.sync(file).is_err() {
            return Err(Refusal::Failed);
        }
    }
    Ok(())
}
