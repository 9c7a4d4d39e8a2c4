//! What holds of the journal of a host over all its starts.

ghost use Rattle.journal_law.specs.Kept.{FilesHaveNoGap, JournalsAreKept};
ghost use Rattle.journal_law.specs.Turns.{JournalsWriteInTurn};
ghost use Rattle.journal_law.specs.Worked.{ForgetsItsJournal, HasRoomForThree, WritesBehindSteps};

/// Whatever a host with a journal is told, and wherever it loses its power: each of its starts finds in its journal, in
/// order, all that was listed before, and all that its file held before its first start. What was being listed may
/// stand last, and nothing else stands there. What is listed goes behind all that stands, where there is room for it.
pub fn journals_are_kept()
    ensures { JournalsAreKept }
{}

/// Whatever bytes are a journal, its numbers have no gap: so the law above holds over each file that a host can start
/// over.
pub fn files_have_no_gap()
    ensures { FilesHaveNoGap }
{}

/// Whatever it is told, the characters that its steps have written are noted behind the ends of these steps.
pub fn journals_write_in_turn()
    ensures { JournalsWriteInTurn }
{}

/// Examples: for what a journal of three slots has room; a host that starts anew over an empty journal, which breaks
/// the first law; and characters that are noted before the end of their step, which the second one excludes.
pub fn worked_journals()
    ensures room { HasRoomForThree }
    ensures forgets { ForgetsItsJournal }
    ensures turns { WritesBehindSteps }
{}
