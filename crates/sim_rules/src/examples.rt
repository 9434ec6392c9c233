//! One change on a new store, row by row, each as the contract of a function.
ghost use Rattle.sim_rules.specs.Examples.{BatchIsCommitted, ChangeIsReleased, ChangeIsStaged, CheckpointGoesOn, FailsAmongThem, FailsAsDue, LongKeyIsRefused, NewStoreOpens, NotYetInHand, OldBeginsRun, OldKeyIsRefused, OldStoreOpens, OpeningIsRun, OtherIsRefused, RotationGoesOn, RotationTakesNewVersion, ScheduleIsRun, SecondOldIsSkipped, StoppedBefore, StoppedOpen, StoppedShut, UnwrittenIsNoRun};

use store_layout::laws;

/// The store is opened, a change is made, swept and staged.
pub fn one_change()
    // The opening takes 12 calls, fails only within them, and alone is a run.
    ensures opened { NewStoreOpens }
    ensures fails { FailsAmongThem }
    ensures run { OpeningIsRun }

    // While the stripe is held, another worker's change is refused.
    ensures refused { OtherIsRefused }

    // A key above the limit of a new log is refused.
    ensures too_long { LongKeyIsRefused }

    // The entry is staged once it is swept, and not before.
    ensures not_yet { NotYetInHand }
    ensures staged { ChangeIsStaged }
{
    laws::laws_of_new_stores();
    laws::laws_of_opening();
}

/// Its frame is written and its reply released; or the machine stops before that; or nothing is written,
/// or a call fails, and it isn't committed.
pub fn one_commit()
    // Its frame is written, its reply is released, and all of it is a run.
    ensures released { ChangeIsReleased }
    ensures run { ScheduleIsRun }

    // If the first call fails, it is the write of the frame.
    ensures fails { FailsAsDue }

    // Syncs of another file in place of the writes make no run.
    ensures unwritten { UnwrittenIsNoRun }

    // After a stop the change stands if the gate is open, else it is gone.
    ensures before { StoppedBefore }
    ensures within_open { StoppedOpen }
    ensures within_shut { StoppedShut }
{
    laws::laws_of_new_stores();
    laws::laws_of_opening();
}

/// A directory of version 01.
pub fn old_directory()
    // It is opened as a new store is, and its log has the limit of its own version for keys.
    ensures opened { OldStoreOpens }
    ensures too_long { OldKeyIsRefused }

    // A run begins with it if an Old is its first event. Behind another event an Old is skipped.
    ensures first { OldBeginsRun }
    ensures second { SecondOldIsSkipped }
{
    laws::laws_of_new_stores();
    laws::laws_of_opening();
}

/// The phases of a commit, a rotation and a checkpoint.
pub fn phases()
    ensures batch { BatchIsCommitted }
    ensures rotation { RotationGoesOn }
    ensures version { RotationTakesNewVersion }
    ensures checkpoint { CheckpointGoesOn }
{}
