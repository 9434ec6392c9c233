//! Laws of a keeper against its world, each as the contract of a function.
ghost use Rattle.sim_keeper.specs.Laws.{AnswersAreMet, BeginAnswers, BrokenAnswers, CallsAreTold, CaptureAnswers, CaptureRefuses, CaptureStepAnswers, CaptureTakesNone, CheckpointAnswers, CheckpointCallIsTold, CheckpointFails, CountsAreTold, FailAnswers, FilesAreTold, FrontIsSeen, LogAnswers, LogCallIsTold, LogFails, OpeningStands, PublishAnswers, SealAnswers, StageAnswers, StagedIsTold, StripeIsTold, SweepAnswers, SweepStepAnswers, SweepTakesNone, SweepTakesOutbox, TooManyAreTooLarge, WalkIsTold, WorkersLeaveKeeper};

use disk_model::Disk;
use sim_rules::laws;

/// A DURABLE gives the committed count, and a FAIL is remembered.
pub fn laws_of_counts<D: Disk>()
    ensures publish { PublishAnswers D.states D.honest }
    ensures fail { FailAnswers D.states }
{}

/// A checkpoint is begun, and goes on to its seal; or it is refused.
pub fn laws_of_seals<D: Disk>()
    ensures begin { BeginAnswers D.states D.honest }
    ensures seal { SealAnswers D.states D.honest }
{}

/// A device call of the log is made, and fails or doesn't; after a call has failed none is made.
pub fn laws_of_log_calls<D: Disk>()
    ensures done { LogAnswers D.states D.failures D.honest }
    ensures fails { LogFails D.states D.failures D.honest }
    ensures broken { BrokenAnswers D.states }
{}

/// A device call of the checkpoint is made, and fails or doesn't. After the last of a seal the files use
/// the checkpoint that was begun.
pub fn laws_of_checkpoint_calls<D: Disk>()
    ensures done { CheckpointAnswers D.states D.failures D.honest }
    ensures fails { CheckpointFails D.states D.failures D.honest }
{}

/// The longest run of tickets in hand is staged, or is refused.
pub fn laws_of_batches<D: Disk>()
    ensures stage { StageAnswers D.states D.honest }
{}

/// A sweep begins, goes on, waits, and ends.
pub fn laws_of_sweeps<D: Disk>()
    ensures begins { SweepAnswers D.states D.honest }
    ensures steps { SweepStepAnswers D.states D.honest }
{}

/// A capture begins with its TAKE, or is refused; then come its LOOK and its GIVE.
pub fn laws_of_captures<D: Disk>()
    ensures begins { CaptureAnswers D.states D.honest }
    ensures refuses { CaptureRefuses D.states D.honest }
    ensures steps { CaptureStepAnswers D.states D.honest }
    ensures too_large { TooManyAreTooLarge D.states D.honest }
{}

/// What the world says of the keeper's walk, of its pass, of the device calls that are due, and of how
/// much is staged.
pub fn laws_of_telling<D: Disk>()
    // The world says if the keeper walks, and which stripe it holds.
    ensures walk { WalkIsTold D.states }
    ensures stripe { StripeIsTold D.states D.honest }

    // It says what is durable, and whether a FAIL was made.
    ensures counts { CountsAreTold D.states D.honest }

    // It says for which side a device call is due, and how much is staged.
    ensures log { LogCallIsTold D.states D.honest }
    ensures checkpoint { CheckpointCallIsTold D.states }
    ensures staged { StagedIsTold D.states D.honest }

    // It says which file that call is of, and which call it is.
    ensures files { FilesAreTold D.states D.honest }
    ensures calls { CallsAreTold D.states D.honest }
{}

/// Which entries a step of the keeper took: none, or the outbox of the stripe that it held.
pub fn laws_of_taking<D: Disk>()
    ensures none { SweepTakesNone D.states D.honest }
    ensures outbox { SweepTakesOutbox D.states D.honest }
    ensures captures { CaptureTakesNone D.states D.honest }
{}

/// How a keeper stands when its life begins, and that the workers leave it so.
pub fn laws_of_lives<D: Disk>()
    ensures opening { OpeningStands D.states }
    ensures workers { WorkersLeaveKeeper D.states }
    ensures sees { FrontIsSeen }
{}

/// What was told of an event is what came of it.
pub fn laws_of_answers<D: Disk>()
    ensures met { AnswersAreMet D.states }
{
    laws::laws_of_runs();
}
