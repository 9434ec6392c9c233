//! Files byte by byte and what they mean, each as the contract of a function.
ghost use Rattle.store_layout.specs.Examples.{NewStore, FirstChange, SecondVersion, UncommittedChange, SealedWhileChanging, NotYetSealed, HalfWritten, NoStore, TooFewBytes, OtherVersion, OtherFile, ThreeStripes, LongBody, MissingEntry, ByteLeftOver, OtherGreatestMark, NoLog, OtherLog, NoFrame, BelowMark};

/// A new store, and its first change before and after it is committed, in a log of either version.
pub fn first_files()
    ensures made { NewStore }
    ensures changed { FirstChange }
    ensures second { SecondVersion }
    ensures uncommitted { UncommittedChange }
{}

/// A checkpoint of two stripes, before and after it is sealed, and while the next is written.
pub fn checkpointed_files()
    ensures sealed { SealedWhileChanging }
    ensures not_yet { NotYetSealed }
    ensures half { HalfWritten }
{}

/// Files that are refused.
pub fn refused_files()
    // No checkpoint is sealed.
    ensures no_store { NoStore }
    ensures too_few { TooFewBytes }

    // The header of the sealed checkpoint has a fault.
    ensures version { OtherVersion }
    ensures file { OtherFile }
    ensures stripes { ThreeStripes }
    ensures body { LongBody }

    // The sections have a fault, or don't fit the header.
    ensures entry { MissingEntry }
    ensures left_over { ByteLeftOver }
    ensures marks { OtherGreatestMark }

    // The checkpoint has no fault, but its log has one.
    ensures no_log { NoLog }
    ensures other_log { OtherLog }
    ensures no_frame { NoFrame }
    ensures below { BelowMark }
{}
