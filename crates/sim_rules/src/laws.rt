//! Laws of whole schedules, each as the contract of a function.
ghost use Rattle.sim_rules.specs.Laws.{BeginsEmpty, DrawsInside, EndsInside, EnteredAsFailed, FrontIsFound, KnownFolds, KnownIsLegal, KnownStands, LifeGoesOn, LongestRunInHand, NewIsRun, NextLifeBegins, OpensOutside, OutcomesAreMoves, OldIsRun, OldIsSkipped, QuietInside, QuietOutside, ReleasedStayLegal, ReleasesInside, RowsGoOn, RunsAnswerAsOneThread, RunsBegin, SkippedWhereUnfit, SoundAt, SoundBetweenIsRun, SoundIsRun, StandingFilesOpen, StopsOutside};
ghost use Rattle.sim_rules.specs.World.{old_start, start};

use store_layout::laws as layout_laws;

/// In any run of the machine of one list each reply that was released is that of one thread at its
/// position, however many lives came after it.
pub fn laws_of_the_machine()
    ensures released { ReleasedStayLegal }
{}

/// A history whose first commands are known by their map alone is a front of the whole list.
pub fn laws_of_known_histories()
    ensures folds { KnownFolds }
    ensures legal { KnownIsLegal }
    ensures stands { KnownStands }
{}

/// The outcomes of a run are moves of the machine. An event is skipped exactly if it doesn't fit.
pub fn laws_of_runs()
    ensures begins { RunsBegin }
    ensures moves { OutcomesAreMoves }
    ensures answers { RunsAnswerAsOneThread }
    ensures skipped { SkippedWhereUnfit }
    ensures old { OldIsSkipped }
    ensures rows { RowsGoOn }
{}

/// A keeper that holds what is in hand stages the longest run.
pub fn laws_of_batches()
    ensures { LongestRunInHand }
{}

/// What a schedule begins with, and what a call leaves within which a stop falls.
pub fn laws_of_files()
    ensures begins { BeginsEmpty start }
    ensures old { BeginsEmpty old_start }
    ensures entered { EnteredAsFailed }
{
    layout_laws::laws_of_new_stores();
}

/// What the loop of a run keeps in a life, event by event.
pub fn steps_of_a_life()
    ensures quiet { QuietInside }
    ensures draws { DrawsInside }
    ensures releases { ReleasesInside }
    ensures ends { EndsInside }
    ensures goes_on { LifeGoesOn }
{}

/// What it keeps at the beginning and between lives, up to the opening of the next; and what that finds.
pub fn steps_between_lives()
    // What the loop keeps holds at the beginning, with a new store or a directory of version 01.
    ensures start { SoundAt start }
    ensures old { SoundAt old_start }

    // Between lives each event keeps it, up to the next opening.
    ensures stops { StopsOutside }
    ensures quiet { QuietOutside }
    ensures opens { OpensOutside }
    ensures goes_on { NextLifeBegins }

    // An opening finds a front of the history, unless memory or a call fails.
    ensures front { FrontIsFound }
    ensures well { StandingFilesOpen }
{
    layout_laws::laws_of_opening();
}

/// What was kept to the end makes a run.
pub fn ends_of_runs()
    ensures inside { SoundIsRun }
    ensures outside { SoundBetweenIsRun }

    // An Old as the first event, or none, says what the run began with.
    ensures new { NewIsRun }
    ensures old { OldIsRun }
{}
