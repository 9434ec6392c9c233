//! The device calls of a checkpoint.
ghost use Rattle.std.specs.Prelude.{◌≡◌, ℕ, List, Some, None, true, false, OnOk, OnErr};
ghost use Rattle.disk_model.specs.Files.{now};
ghost use Rattle.disk_model.specs.Gates.{Call};
ghost use Rattle.disk_model.specs.Moments.{AtEachMoment};
ghost use Rattle.map_types.specs.declared.commands.Command.{Command};
ghost use Rattle.ticket_order.specs.declared.record.Record.{Record};
ghost use Rattle.ticket_order.specs.Legality.{history_of};
ghost use Rattle.store_layout.specs.Checkpoints.{Section};
ghost use Rattle.checkpoint_file.specs.CheckpointSteps.{Advances, MayAdvance};
ghost use Rattle.checkpoint_file.specs.States.{CheckpointState, call_in};
ghost use Rattle.checkpoint_file.specs.CheckpointStates.{checkpoint_of};
ghost use Rattle.flusher.specs.Fitting.{Fits, IsFitting, StillFits, StopsFit};
ghost use Rattle.checkpoint_walk.specs.Checkpointing.{HasGiven, KeepsAfter, StepsCheckpoint, call_due, checkpoints_of, phase_of};
ghost use Rattle.store_layout.specs.UsedCheckpoint.{UsesCheckpoint};

use checkpoint_file::{CheckpointPhase, CheckpointWriter};
use disk_model::Disk;
use flusher::Keeper;
use map_types::Refusal;
use store_invariant::laws as store_laws;
use store_layout::laws as layout_laws;

/// Makes the device call that is due in the file of the checkpoint, and no other, and returns the
/// phase after it. If none is due, it makes none. While the log of the checkpoint is begun, none is
/// due. After the last sync of a seal the checkpoint is the sealed one, and none runs. After a
/// device failure no call is made. It takes no memory.
pub fn advance<D: Disk>(keeper: &mut Keeper<D>) -> Result<CheckpointPhase, Refusal>
    // The keeper's invariant holds.
    requires { IsFitting D.states D.honest keeper.old }

    // Refused after a failure; no call if none is due. Then nothing changes.
    ensures failed { keeper.old.is_broken ≡ true
        → (result ≡ Err Refusal.Failed) × (keeper.new ≡ keeper.old) }
    ensures rests { keeper.old.is_broken ≡ false
        → call_due keeper.old.next keeper.old.checkpoint ≡ None
        → (result ≡ Ok (phase_of keeper.old.checkpoint)) × (keeper.new ≡ keeper.old) }

    // Else the due call is made in the checkpoint's file; a failure is noted.
    ensures steps { keeper.old.is_broken ≡ false → (call : Call) (w : CheckpointState)
        → call_due keeper.old.next keeper.old.checkpoint ≡ Some call
        → keeper.old.checkpoint ≡ Some w
        → StepsCheckpoint D.states D.failures D.honest call w keeper.old keeper.new result }
    ensures works { OnOk result (keeper.new.is_broken ≡ false) }
    ensures breaks { OnErr result (keeper.new.is_broken ≡ true) }

    // On an honest disk no stop, at any moment, loses what was committed.
    ensures any_moment { (n : ℕ) (done : List Command) (p : Record)
        → Fits D.states D.honest n done keeper.old p → D.honest keeper.old.disk
        → AtEachMoment D.states keeper.old.disk keeper.new.disk
        (StopsFit (history_of p) keeper.old) }

    // After `Ok` the sections are still given, or sealed. The invariant goes on.
    ensures given { (sections : List Section) (w : CheckpointState)
        → HasGiven keeper.old.checkpoint sections (now (D.states keeper.old.disk))
        → keeper.new.checkpoint ≡ Some w
        → OnOk result (HasGiven (Some w) sections (now (D.states keeper.new.disk))) }
    ensures sealed { (n : ℕ) (done : List Command) (p : Record) (w : CheckpointState)
        (sections : List Section) → Fits D.states D.honest n done keeper.old p
        → D.honest keeper.new.disk → keeper.old.next ≡ None → keeper.old.checkpoint ≡ Some w
        → w.phase ≡ CheckpointPhase.Opened
        → HasGiven keeper.old.checkpoint sections (now (D.states keeper.old.disk))
        → OnOk result (UsesCheckpoint (checkpoint_of w sections) (now (D.states keeper.new.disk))) }
    ensures fits { StillFits D.states D.honest keeper.old keeper.new }
    ensures same { keeper.new ≡ record keeper.old {
      disk = keeper.new.disk;
      sealed = keeper.new.sealed;
      checkpoint = keeper.new.checkpoint;
      must_close = keeper.new.must_close;
      is_broken = keeper.new.is_broken;
    } }
{
    store_laws::steps_of_checkpoints();
    store_laws::stops_of_a_store();
    layout_laws::laws_of_checkpoints();
    if keeper.is_broken {
        return Err(Refusal::Failed);
    }
    let Some(writer) = keeper.checkpoint.take() else {
        return Ok(CheckpointPhase::Idle);
    };
    if keeper.next.is_some() {
        let phase = writer.phase();
        keeper.checkpoint = Some(writer);
        return Ok(phase);
    }
    step(keeper, writer)
}

/// Makes the device call that is due in the file of this checkpoint, which the keeper writes.
fn step<D: Disk>(
    keeper: &mut Keeper<D>,
    mut writer: CheckpointWriter,
) -> Result<CheckpointPhase, Refusal>
    // Nothing has failed, and an honest disk holds what the writer says.
    requires stands { MayAdvance D.states D.honest writer keeper.old.disk }
    requires works { (keeper.old.is_broken ≡ false) × (writer.is_broken ≡ false) }

    // If no call is due none is made, and the keeper has the writer again.
    ensures rests { call_in writer.phase writer ≡ None
        → (result ≡ Ok writer.phase)
        × (keeper.new ≡ record keeper.old { checkpoint = Some writer }) }

    // Else that call is made; after the last one the checkpoint is sealed.
    ensures advances { (call : Call) → call_in writer.phase writer ≡ Some call
        → (after : CheckpointState)
        × Advances D.states D.failures D.honest call writer after keeper.old.disk keeper.new.disk
        result
        × KeepsAfter result writer.phase after
        (record (checkpoints_of keeper.old) { writer = Some writer }) (checkpoints_of keeper.new) }

    // A failed call is noted, and no other field changes.
    ensures ok { OnOk result (keeper.new.is_broken ≡ false) }
    ensures err { OnErr result (keeper.new.is_broken ≡ true) }
    ensures same { keeper.new ≡ record keeper.old {
      disk = keeper.new.disk;
      sealed = keeper.new.sealed;
      checkpoint = keeper.new.checkpoint;
      must_close = keeper.new.must_close;
      is_broken = keeper.new.is_broken;
    } }
{
    let phase = writer.phase();
    match writer.advance(&mut keeper.disk) {
        Ok(next) => {
            if phase == CheckpointPhase::Opened {
                keeper.sealed = writer.generation();
                keeper.checkpoint = None;
                keeper.must_close = true;
                return Ok(next);
            }
            keeper.checkpoint = Some(writer);
            Ok(next)
        }
        Err(refusal) => {
            keeper.checkpoint = Some(writer);
            keeper.is_broken = true;
            Err(refusal)
        }
    }
}
