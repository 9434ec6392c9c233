//! The device calls that make a new store.
ghost use Rattle.std.specs.Prelude.{◌≡◌, ◌≢◌, ◌<◌, ◌≤◌, ◌+◌, ◌∷◌, ◌++◌, [], ℕ, false, List, length, IfOk, IfErr, OnOk, OnErr};
ghost use Rattle.disk_model.specs.Calls.{Fails, Looks, Makes};
ghost use Rattle.disk_model.specs.Files.{MayLeave, at_rest, now};
ghost use Rattle.disk_model.specs.Gates.{Call, IsShut, open_gate};
ghost use Rattle.disk_model.specs.Moments.{AtEachMoment};
ghost use Rattle.store_layout.specs.Checkpoints.{is_sealed};
ghost use Rattle.log_records.specs.Layout.{layout_of};
ghost use Rattle.store_layout.specs.Logs.{IsClosed};
ghost use Rattle.gate_log.specs.Scan.{failed_in};
ghost use Rattle.recovery.specs.Formatting.{Becomes, IsSealedWith, OneFile};
ghost use Rattle.store_layout.specs.FirstFiles.{first_log_in};

use crate::first_bytes::first_log;
use checkpoint_file::must_close;
use disk_model::Disk;
use log_records::Version;
use map_types::Refusal;
use store_layout::{BODY_OFFSET, CLOSED_GATE, OPEN_GATE};

/// Whether a checkpoint is sealed in the file, by its gate and its length alone.
pub(crate) fn has_seal<D: Disk>(disk: &mut D, file: usize) -> Result<bool, Refusal>
    requires { file < 4 }
    ensures looks { Looks D.states D.failures D.honest (failed_in result) disk.old disk.new }
    ensures value { D.honest disk.new → IfOk result (λ is. is ≡ is_sealed
        (now (D.states disk.old) file).seen) }
    ensures err { IfErr result (λ refusal. refusal ≡ Refusal.Failed) }
{
    let mut bytes = [0; BODY_OFFSET];
    match disk.read(file, 0, &mut bytes) {
        Ok(count) => Ok(count == BODY_OFFSET && bytes[0] == OPEN_GATE),
        Err(_) => Err(Refusal::Failed),
    }
}

/// Writes to the file.
fn write<D: Disk>(disk: &mut D, file: usize, at: usize, bytes: &[u8]) -> Result<(), Refusal>
    requires low { file < 4 }
    requires place { D.honest disk.old → at ≤ length (now (D.states disk.old) file).seen }
    ensures was_honest { D.honest disk.new → D.honest disk.old }
    ensures ok { OnOk result
        (Makes D.states D.failures file (Call.writes at bytes.now) disk.old disk.new) }
    ensures err { OnErr result
        (Fails D.states D.failures file (Call.writes at bytes.now) disk.old disk.new) }
    ensures failed { IfErr result (λ refusal. refusal ≡ Refusal.Failed) }
{
    match disk.write_at(file, at, bytes) {
        Ok(()) => Ok(()),
        Err(_) => Err(Refusal::Failed),
    }
}

/// Syncs the file.
fn sync<D: Disk>(disk: &mut D, file: usize) -> Result<(), Refusal>
    requires { file < 4 }
    ensures was_honest { D.honest disk.new → D.honest disk.old }
    ensures ok { OnOk result (Makes D.states D.failures file Call.syncs disk.old disk.new) }
    ensures err { OnErr result (Fails D.states D.failures file Call.syncs disk.old disk.new) }
    ensures failed { IfErr result (λ refusal. refusal ≡ Refusal.Failed) }
{
    match disk.sync(file) {
        Ok(()) => Ok(()),
        Err(_) => Err(Refusal::Failed),
    }
}

/// Closes the gate of file 0, if it reads open or there is none, and syncs the file.
pub(crate) fn close_gate<D: Disk>(disk: &mut D) -> Result<(), Refusal>
    // An honest disk was so before. The only error is one failed call.
    ensures was_honest { D.honest disk.new → D.honest disk.old }
    ensures failed { IfErr result (λ refusal. refusal ≡ Refusal.Failed) }
    ensures failures { D.failures disk.new ≡ D.failures disk.old + failed_in result }

    // On an honest disk no stop leaves a seal where none was; other files stay.
    ensures moments { D.honest disk.new → (content : List ℕ)
        → now (D.states disk.old) 0 ≡ at_rest content → is_sealed content ≡ false
        → AtEachMoment D.states disk.old disk.new
        (OneFile 0 (λ left. is_sealed left ≡ false) (now (D.states disk.old))) }

    // On an honest disk the gate is closed, the only byte of an empty file.
    ensures ok { OnOk result (D.honest disk.new → IsShut [] [] (now (D.states disk.new) 0)) }
    ensures left { OnOk result
        (D.honest disk.new → now (D.states disk.old) 0 ≡ at_rest []
        → Becomes 0 (at_rest (0 ∷ [])) (now (D.states disk.old)) (now (D.states disk.new))) }
{
    if !must_close(disk, 0)? {
        return sync(disk, 0);
    }
    write(disk, 0, 0, &[CLOSED_GATE])?;
    sync(disk, 0)
}

/// Writes the header of the first log, in this version, and a closed gate, and syncs them.
pub(crate) fn begin_log<D: Disk>(disk: &mut D, version: Version) -> Result<(), Refusal>
    // An honest disk was so before. The only error is one failed call.
    ensures was_honest { D.honest disk.new → D.honest disk.old }
    ensures failed { IfErr result (λ refusal. refusal ≡ Refusal.Failed) }
    ensures failures { D.failures disk.new ≡ D.failures disk.old + failed_in result }

    // At every moment the other files are as they were.
    ensures others { AtEachMoment D.states disk.old disk.new (λ files. (n : ℕ) → n ≢ 2
        → files n ≡ now (D.states disk.old) n) }

    // A stop leaves a log without batches; an empty file becomes just that.
    ensures ok { OnOk result
        ((content : List ℕ) → MayLeave (now (D.states disk.new) 2) content
        → IsClosed (layout_of version) 0 0 [] content) }
    ensures left { OnOk result
        (now (D.states disk.old) 2 ≡ at_rest []
        → Becomes 2 (at_rest (first_log_in (layout_of version))) (now (D.states disk.old))
        (now (D.states disk.new))) }
{
    write(disk, 2, 0, &first_log(version))?;
    sync(disk, 2)
}

/// Writes the bytes behind the closed gate of file 0, syncs them, opens the gate and syncs that.
pub(crate) fn seal<D: Disk>(disk: &mut D, bytes: &[u8]) -> Result<(), Refusal>
    // On an honest disk the file has a gate.
    requires { D.honest disk.old → 1 ≤ length (now (D.states disk.old) 0).seen }

    // An honest disk was so before. The only error is one failed call.
    ensures was_honest { D.honest disk.new → D.honest disk.old }
    ensures failed { IfErr result (λ refusal. refusal ≡ Refusal.Failed) }
    ensures failures { D.failures disk.new ≡ D.failures disk.old + failed_in result }

    // From a closed gate a stop leaves it unsealed, or sealed with the bytes.
    ensures moments { IsShut [] [] (now (D.states disk.old) 0)
        → AtEachMoment D.states disk.old disk.new
        (OneFile 0 (IsSealedWith bytes.now) (now (D.states disk.old))) }

    // Then a stop leaves it sealed, with these bytes behind the open gate.
    ensures ok { OnOk result
        (IsShut [] [] (now (D.states disk.old) 0) → (content : List ℕ)
        → MayLeave (now (D.states disk.new) 0) content
        → (rest : List ℕ) × (content ≡ open_gate ∷ (bytes.now ++ rest))) }
    ensures left { OnOk result
        (now (D.states disk.old) 0 ≡ at_rest (0 ∷ [])
        → Becomes 0 (at_rest (open_gate ∷ bytes.now)) (now (D.states disk.old))
        (now (D.states disk.new))) }
{
    write(disk, 0, 1, bytes)?;
    sync(disk, 0)?;
    write(disk, 0, 0, &[OPEN_GATE])?;
    sync(disk, 0)
}
