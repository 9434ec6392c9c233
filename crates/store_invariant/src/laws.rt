//! Laws of stores, each as the contract of a function.
ghost use Rattle.store_invariant.specs.Laws.{BatchIsStaged, CheckpointBegins, CheckpointIsSealed, CommittedAreFound, EndStepsOn, LogEnds, LogStays, LogStepsOn, LogStepsStop, NextIsReady, NextStepsOn, NextStepsStop, OpenedStands, RotationBegins, SealBegins, SectionIsGiven, StandingStays, StopsUseCheckpoint, StoresStop, WriterStepsOn, WriterStepsStop};

use checkpoint_file::laws as checkpoint_laws;
use gate_log::laws as log_laws;
use store_layout::laws as layout_laws;

/// Whatever a stop leaves of a store, now and at each moment of a step, stands for a front of its
/// history. That front has the committed commands, and no more than the staged ones besides.
pub fn stops_of_a_store()
    // A stop at rest, or at any moment of a step, loses nothing committed.
    ensures rests { StoresStop }
    ensures log { LogStepsStop }
    ensures next { NextStepsStop }
    ensures writer { WriterStepsStop }

    // While no seal is under way, a stop uses the sealed checkpoint.
    ensures checkpoint { StopsUseCheckpoint }

    // The committed count is that of what the files hold.
    ensures committed { CommittedAreFound }
{
    log_laws::stops_of_a_log();
    checkpoint_laws::stops_of_a_checkpoint();
    layout_laws::laws_of_checkpoints();
    layout_laws::laws_of_restoring();
    layout_laws::laws_of_found();
}

/// A store that was opened, and whose history grows.
pub fn beginnings_of_stores()
    ensures opened { OpenedStands }
    ensures stays { StandingStays }
{
    layout_laws::laws_of_restoring();
    layout_laws::laws_of_logs();
    layout_laws::laws_of_sections();
    layout_laws::laws_of_found();
}

/// A store after a step of its logs.
pub fn steps_of_logs()
    // A batch is staged.
    ensures staged { BatchIsStaged }

    // The newest log makes a step, or its file changes and still fits it.
    ensures log { LogStepsOn }
    ensures stays { LogStays }

    // A rotation: the header of the log that follows is written and synced.
    ensures next { NextStepsOn }
    ensures ready { NextIsReady }

    // Then the newest log ends, and the one that follows takes its place.
    ensures end { EndStepsOn }
    ensures ends { LogEnds }
{
    log_laws::stops_of_a_log();
    layout_laws::laws_of_restoring();
    layout_laws::laws_of_logs();
}

/// A store after a step of its checkpoint.
pub fn steps_of_checkpoints()
    // A checkpoint begins, with the newest log or with a new one.
    ensures begins { CheckpointBegins }
    ensures rotates { RotationBegins }

    // It is given one more section.
    ensures section { SectionIsGiven }

    // It goes on to its seal, makes a step, and is sealed by the last one.
    ensures seals { SealBegins }
    ensures steps { WriterStepsOn }
    ensures sealed { CheckpointIsSealed }
{
    layout_laws::laws_of_checkpoints();
    layout_laws::laws_of_restoring();
    layout_laws::laws_of_logs();
    layout_laws::laws_of_sections();
}
