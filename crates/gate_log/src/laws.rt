//! What holds of every log.
ghost use Rattle.std.specs.Prelude.{ℕ, List};
ghost use Rattle.disk_model.specs.Files.{File, MayLeave};
ghost use Rattle.store_layout.specs.Logs.{Batch};
ghost use Rattle.gate_log.specs.States.{LogState};
ghost use Rattle.gate_log.specs.LogStates.{Stands, IsReady, MayRead};

/// Once the header is on the disk, each content that a stop may leave has the committed batches, or
/// what is staged too.
pub fn stops_of_a_log()
    ensures { (log : LogState) (batches : List Batch) (staged : List Batch) (file : File)
        (content : List ℕ) → Stands log batches staged file → IsReady log.phase
        → MayLeave file content → MayRead log.phase log.ending log batches staged content }
{}
