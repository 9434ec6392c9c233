//! The gate of a checkpoint's file.
ghost use Rattle.std.specs.Prelude.{◌≡◌, ◌<◌, IfOk, IfErr, OnOk, OnErr};
ghost use Rattle.disk_model.specs.Calls.{Looks};
ghost use Rattle.disk_model.specs.Files.{now};
ghost use Rattle.file_pieces.specs.Counting.{Made};
ghost use Rattle.store_layout.specs.Checkpoints.{is_to_close};

use disk_model::Disk;
use map_types::Refusal;
use store_layout::OPEN_GATE;

/// Whether the gate of the file is to be closed before a checkpoint is written there: it reads open,
/// or the file is empty. Refuses with `Failed` alone.
pub fn must_close<D: Disk>(disk: &mut D, file: usize) -> Result<bool, Refusal>
    // One of the four files.
    requires { file < 4 }

    // If the disk is honest: whether the gate reads open, or there is none.
    ensures value { D.honest disk.new → IfOk result (λ must. must ≡ is_to_close
        (now (D.states disk.old) file).seen) }

    // One device call, which only looks. Refused if that call failed.
    ensures looks { OnOk result (Looks D.states D.failures D.honest 0 disk.old disk.new) }
    ensures failed { OnErr result (Looks D.states D.failures D.honest 1 disk.old disk.new) }
    ensures called { Made D.states 1 disk.old disk.new }
    ensures err { IfErr result (λ refusal. refusal ≡ Refusal.Failed) }
{
    let mut gate = [0; 1];
    match disk.read(file, 0, &mut gate) {
        Ok(0) => Ok(true),
        Ok(_) => Ok(gate[0] == OPEN_GATE),
        Err(_) => Err(Refusal::Failed),
    }
}
