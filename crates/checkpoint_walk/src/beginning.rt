//! A checkpoint is begun.
ghost use Rattle.std.specs.Prelude.{◌≡◌, ◌⊎◌, ◌↔◌, ◌+◌, ◌<◌, ◌^◌, ℕ, List, [], Some, true, false, IfErr, OnOk, OnErr};
ghost use Rattle.disk_model.specs.Files.{now, at_rest};
ghost use Rattle.map_types.specs.declared.commands.Command.{Command};
ghost use Rattle.ticket_order.specs.declared.record.Record.{Record};
ghost use Rattle.checkpoint_file.specs.States.{begun};
ghost use Rattle.checkpoint_file.specs.CheckpointStates.{Stands};
ghost use Rattle.store_layout.specs.Checkpoints.{is_to_close};
ghost use Rattle.flusher.specs.Fitting.{Fits, IsFitting, StillFits};
ghost use Rattle.checkpoint_walk.specs.Checkpointing.{Begins, HasGiven, MayBegin};

use checkpoint_file::CheckpointWriter;
use disk_model::Disk;
use flusher::Keeper;
use gate_log::GateLog;
use map_types::Refusal;
use store_invariant::laws;

/// Begins the checkpoint that follows the sealed one. If the newest log is still that of the sealed
/// one, the log of the checkpoint is begun with it. The keeper's next six calls of `advance` then
/// write its header and end the newest one. It makes no device call and takes no memory.
pub fn begin<D: Disk>(keeper: &mut Keeper<D>) -> Result<(), Refusal>
    // The keeper's invariant holds.
    requires { IsFitting D.states D.honest keeper.old }

    // Refused: after a device failure, or if no checkpoint may begin now.
    ensures failed { (result ≡ Err Refusal.Failed) ↔ (keeper.old.is_broken ≡ true) }
    ensures wrong_phase { (result ≡ Err Refusal.WrongPhase)
        ↔ ((keeper.old.is_broken ≡ false) × (MayBegin keeper.old → ⊥)) }
    ensures no_other { IfErr result (λ refusal. (refusal ≡ Refusal.Failed)
        ⊎ (refusal ≡ Refusal.WrongPhase)) }

    // It begins with no section, beside the newest log or one begun with it.
    ensures ok { OnOk result (Begins keeper.old keeper.new) }
    ensures given { OnOk result
        ((n : ℕ) (done : List Command) (p : Record) → Fits D.states D.honest n done keeper.old p
        → D.honest keeper.old.disk
        → HasGiven keeper.new.checkpoint [] (now (D.states keeper.new.disk))) }

    // A refusal changes nothing.
    ensures err { OnErr result (keeper.new ≡ keeper.old) }

    // The invariant goes on, and no other field changes.
    ensures fits { StillFits D.states D.honest keeper.old keeper.new }
    ensures same { keeper.new ≡ record keeper.old {
      next = keeper.new.next;
      checkpoint = keeper.new.checkpoint;
    } }
{
    laws::steps_of_checkpoints();
    if keeper.is_broken {
        return Err(Refusal::Failed);
    }
    if keeper.checkpoint.is_some() || keeper.next.is_some() || keeper.sealed == u64::MAX {
        return Err(Refusal::WrongPhase);
    }
    if keeper.log.generation() != keeper.sealed {
        let writer = writer_from(keeper, keeper.log.low());
        keeper.checkpoint = Some(writer);
        return Ok(());
    }
    if !keeper.log.is_resting() {
        return Err(Refusal::WrongPhase);
    }
    let committed = keeper.log.committed();
    let writer = writer_from(keeper, committed);
    keeper.next = Some(GateLog::new(keeper.alloc, keeper.sealed + 1, committed));
    keeper.checkpoint = Some(writer);
    Ok(())
}

/// The writer of the checkpoint that follows the sealed one, whose log has this low ticket.
fn writer_from<D: Disk>(keeper: &Keeper<D>, low: u64) -> CheckpointWriter
    requires { keeper.now.sealed + 1 < 2 ^ 64 }
    ensures state { result ≡ begun (keeper.now.sealed + 1) low keeper.now.stripes.count
        keeper.now.must_close }
    ensures stands { (old : List ℕ) → keeper.now.must_close ≡ is_to_close old
        → Stands result old [] (at_rest old) }
{
    let mut writer = CheckpointWriter::new(keeper.alloc);
    match writer.begin(keeper.sealed + 1, low, keeper.stripes, keeper.must_close) {
        Ok(()) => writer,
        Err(_) => unreachable!(),
    }
}
