//! What holds of every checkpoint.
ghost use Rattle.std.specs.Prelude.{ℕ, List};
ghost use Rattle.disk_model.specs.Files.{File, MayLeave};
ghost use Rattle.store_layout.specs.Checkpoints.{Section};
ghost use Rattle.checkpoint_file.specs.States.{CheckpointState};
ghost use Rattle.checkpoint_file.specs.CheckpointStates.{Stands, MayRead};

/// Each content that a stop may leave is as the phase allows. Once the checkpoint is sealed, it is
/// sealed with exactly the sections that were given.
pub fn stops_of_a_checkpoint()
    ensures { (w : CheckpointState) (old : List ℕ) (sections : List Section) (file : File)
        (content : List ℕ) → Stands w old sections file → MayLeave file content
        → MayRead w.phase w old sections content }
{}
