//! Laws about the program's runs. Each is a function with an empty body.
ghost use Rattle.relview.specs.Alone.{AloneIsSolo, AloneIsOneRun, AloneIsOneAnswer, EnoughRoom, EnoughRoomAtOnce};
ghost use Rattle.relview.specs.Blocks.{BlocksAreAtomic};
ghost use Rattle.relview.specs.Complete.{CompleteRuns, RunsBegin};
ghost use Rattle.relview.specs.Readings.{EveryReadingHasTheRun, EveryInputHasTheRun};
ghost use Rattle.relview.specs.Readings.{SameWordsAskAlike, SameFilesReadAlike};

/// If a script runs alone, and neither nodes nor memory run out, the input alone decides its outcomes and its history,
/// apart from the roots of its relations.
pub fn alone_is_solo()
    ensures { AloneIsSolo }
{}

/// Two runs of one script have the same outcomes, the same history apart from roots, the same page and the same files,
/// whichever way each of them reads the text, if they read the same text, with the same files and options, and neither
/// nodes nor memory run out. If nothing went wrong in either, and the shelves report the same files, then both wrote
/// the same page in full, put the same files and ended with the same status, whatever their workers and tables.
pub fn alone_is_one_run()
    ensures run { AloneIsOneRun }
    ensures answer { AloneIsOneAnswer }
{}

/// The run of a report is a run of every reading of its texts, and, if the shelf reports its files, of every input that
/// the words and the files give.
pub fn every_reading_has_the_run()
    ensures readings { EveryReadingHasTheRun }
    ensures inputs { EveryInputHasTheRun }
{}

/// The same words ask for the same run. Two runs that ask for the same, on shelves that report the same files, read the
/// same texts, with the same files and options.
pub fn same_files_read_alike()
    ensures words { SameWordsAskAlike }
    ensures files { SameFilesReadAlike }
{}

/// A batch never finds its table full if the uses of nodes that lived on into it and the costs of its commands add up
/// to less than the places that its table has for nodes. Neither does a run of one batch whose commands cost less than
/// that.
pub fn enough_room()
    ensures batches { EnoughRoom }
    ensures at_once { EnoughRoomAtOnce }
{}

/// A run in which nothing went wrong is complete. That is, if no command ran out of memory, the words of each batch
/// have a vacant place, and no write and no put failed, then each outcome is the one that is due, or says that a name
/// was changed before an atomic block could commit; and the page was written in full and its files were put.
pub fn complete_runs()
    ensures { CompleteRuns }
{}

/// If nothing stands in the way, the scripts run, or memory runs out. Nothing stands in the way if the words are
/// accepted, no pick, read or write fails, and each file is within its limit.
pub fn runs_begin()
    ensures { RunsBegin }
{}

/// An atomic block of a run reads and assigns as if in one moment, or it is refused.
///
/// If it is done, it assigns what is due of it on the state just before its first assignment, all at once. If it
/// reports a changed name, this is the first one that it reads whose versions at its read and at its commit differ. If
/// it was due to be done, and neither nodes nor memory ran out, these versions alone decide. If it is refused, it
/// assigns nothing.
pub fn blocks_are_atomic()
    ensures { BlocksAreAtomic }
{}
