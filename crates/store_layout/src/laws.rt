//! Laws of the definitions, each as the contract of a function.
ghost use Rattle.store_layout.specs.Laws.{PartsAndLogRestore, RestoringGoesOn, RestoringStays, OpeningRestores, LogsBegin, LogsAreOpened, LogsGoOn, LogsStay, NextStays, PartsStay, PartsGoOn, MarksGoOn, MarksWiden};
ghost use Rattle.store_layout.specs.OpeningLaws.{OneCheckpoint, OneFault, NoFault, SealedHead, FieldsMakeCheckpoint, OlderCheckpoint, ShutIsUnsealed, EmptyIsUnsealed, HeldIsUsed, UsedIsHeld, OpensOneWay, OpensSomehow, OneStanding, NeverBoth, FoundRestores, RestoredStands, FrontStays, FirstIsWhole, FirstStands};

/// Sections at marks and the commands behind them give the map after the last command, and go on to.
pub fn laws_of_restoring()
    ensures begins { PartsAndLogRestore }
    ensures goes_on { RestoringGoesOn }
    ensures stays { RestoringStays }
    ensures opened { OpeningRestores }
{}

/// A log that is begun, opened or continued is a log of its history.
pub fn laws_of_logs()
    ensures begins { LogsBegin }
    ensures opened { LogsAreOpened }
    ensures goes_on { LogsGoOn }
    ensures stays { LogsStay }
    ensures next { NextStays }
{}

/// Parts that are captured one by one are parts of the history, also when it has grown.
pub fn laws_of_sections()
    ensures stay { PartsStay }
    ensures go_on { PartsGoOn }
    ensures marks { MarksGoOn }
    ensures widen { MarksWiden }
{}

/// A sealed checkpoint file has one meaning or one first fault, and its head says which it is.
pub fn laws_of_checkpoints()
    // A content holds at most one checkpoint or one fault, and not both.
    ensures one { OneCheckpoint }
    ensures one_fault { OneFault }
    ensures no_fault { NoFault }

    // The fields name the checkpoint, and say which of two is older.
    ensures head { SealedHead }
    ensures fields { FieldsMakeCheckpoint }
    ensures older { OlderCheckpoint }

    // Behind a closed gate nothing is sealed, nor in an empty file.
    ensures shut { ShutIsUnsealed }
    ensures empty { EmptyIsUnsealed }
{}

/// Four files stand for one map after one number of commands, or meet one refusal first; one of the
/// two, and never both.
pub fn laws_of_opening()
    // Opening has one outcome, whatever the bytes are.
    ensures one_way { OpensOneWay }
    ensures somehow { OpensSomehow }

    // Files don't stand for two maps, nor for a map and a refusal.
    ensures one { OneStanding }
    ensures never_both { NeverBoth }

    // What is held is the newest checkpoint, with its logs.
    ensures used { HeldIsUsed }
    ensures held { UsedIsHeld }
{}

/// What is found and its history, also when it has grown.
pub fn laws_of_found()
    ensures restores { FoundRestores }
    ensures stands { RestoredStands }
    ensures stays { FrontStays }
{}

/// A store that was just made is empty.
pub fn laws_of_new_stores()
    ensures whole { FirstIsWhole }
    ensures stands { FirstStands }
{}
