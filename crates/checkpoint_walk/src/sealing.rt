//! A checkpoint is to be sealed.
ghost use Rattle.std.specs.Prelude.{◌≡◌, ◌⊎◌, ◌↔◌, ◌<◌, ◌≤◌, ℕ, List, Some, true, false, IfErr, OnOk, OnErr};
ghost use Rattle.disk_model.specs.Files.{now};
ghost use Rattle.store_layout.specs.Checkpoints.{Section};
ghost use Rattle.checkpoint_file.specs.States.{TakesSeal};
ghost use Rattle.checkpoint_file.specs.CheckpointStates as checkpoint;
ghost use Rattle.disk_model.specs.Files.{File};
ghost use Rattle.flusher.specs.Fitting.{IsFitting, StillFits};
ghost use Rattle.checkpoint_walk.specs.Checkpointing.{HasAllSections, HasGiven, IsMarkedAbove, sealing};

use checkpoint_file::{CheckpointPhase, CheckpointWriter};
use disk_model::Disk;
use flusher::Keeper;
use map_types::Refusal;
use store_invariant::laws;

/// Goes on to the header of the checkpoint, once the sections of all stripes are written and the count
/// that was last published has reached the greatest of their marks. Until then it may be tried again.
/// It makes no device call.
pub fn seal<D: Disk>(keeper: &mut Keeper<D>) -> Result<(), Refusal>
    // The keeper's invariant holds.
    requires { IsFitting D.states D.honest keeper.old }

    // Refused: after a failure, if no seal is due, with a mark unpublished.
    ensures failed { (result ≡ Err Refusal.Failed) ↔ (keeper.old.is_broken ≡ true) }
    ensures wrong_phase { (result ≡ Err Refusal.WrongPhase)
        ↔ ((keeper.old.is_broken ≡ false) × (HasAllSections keeper.old.checkpoint → ⊥)) }
    ensures early { (result ≡ Err Refusal.TooEarly)
        ↔ ((keeper.old.is_broken ≡ false) × HasAllSections keeper.old.checkpoint
        × IsMarkedAbove keeper.old.published keeper.old.checkpoint) }
    ensures no_other { IfErr result (λ refusal. (refusal ≡ Refusal.Failed)
        ⊎ (refusal ≡ Refusal.WrongPhase) ⊎ (refusal ≡ Refusal.TooEarly)) }

    // It goes on to its header, and keeps the sections that it was given.
    ensures ok { OnOk result
        (keeper.new ≡ record keeper.old { checkpoint = sealing keeper.old.checkpoint }) }
    ensures given { (sections : List Section)
        → HasGiven keeper.old.checkpoint sections (now (D.states keeper.old.disk))
        → HasGiven keeper.new.checkpoint sections (now (D.states keeper.new.disk)) }

    // A refusal changes nothing, and the invariant goes on.
    ensures err { OnErr result (keeper.new ≡ keeper.old) }
    ensures fits { StillFits D.states D.honest keeper.old keeper.new }
{
    laws::steps_of_checkpoints();
    if keeper.is_broken {
        return Err(Refusal::Failed);
    }
    match &mut keeper.checkpoint {
        Some(writer) => seal_by(writer, keeper.published),
        None => Err(Refusal::WrongPhase),
    }
}

/// The same, when `published` commands are published.
fn seal_by(writer: &mut CheckpointWriter, published: u64) -> Result<(), Refusal>
    // Refused: if no seal is due, or with a mark unpublished.
    ensures wrong_phase { (result ≡ Err Refusal.WrongPhase) ↔ (TakesSeal writer.old → ⊥) }
    ensures early { (result ≡ Err Refusal.TooEarly)
        ↔ (TakesSeal writer.old × (published < writer.old.greatest)) }
    ensures no_other { IfErr result (λ refusal. (refusal ≡ Refusal.WrongPhase)
        ⊎ (refusal ≡ Refusal.TooEarly)) }

    // It goes on to the header, for which the file need not change.
    ensures ok { OnOk result (writer.new ≡ record writer.old { phase = CheckpointPhase.Header }) }
    ensures reached { OnOk result (writer.old.greatest ≤ published) }
    ensures stands { OnOk result
        ((old : List ℕ) (sections : List Section) (file : File)
        → checkpoint.Stands writer.old old sections file
        → checkpoint.Stands writer.new old sections file) }

    // A refusal changes nothing.
    ensures err { OnErr result (writer.new ≡ writer.old) }
{
    if writer.phase() != CheckpointPhase::Ready
        || writer.count() as usize != writer.stripes().get()
    {
        return Err(Refusal::WrongPhase);
    }
    if published < writer.greatest_mark() {
        return Err(Refusal::TooEarly);
    }
    writer.seal()
}
