//! What holds of all runs of the program: the outcome that is due comes, and no fault is passed over.

ghost use Rattle.gemline_app.specs.Laws.{EquipmentsAreAnswered, FaultsAreTold, HexMeansOne, HexSpellsOne};
ghost use Rattle.gemline_app.specs.Laws.{HostsAreAnswered, JournalHostsAreAnswered, OutcomesAreDue, ShowsWholeCaptures};
ghost use Rattle.gemline_app.specs.Laws.{SpelledIsHex, SpelledReadsBack};

/// The outcome that is due of the words and of what they have read comes exactly there, unless memory runs out or a
/// count of faults rises: usage, an input or a file that is too long, its first fault, the end of its work.
pub fn outcomes_are_due()
    ensures { OutcomesAreDue }
{}

/// No fault is passed over, but one of the errors: the count of the input, of the files, of the disk, of the link and
/// of the output rises where the outcome is its fault, by one, and stands otherwise. The output may fail as well where
/// the disk of the equipment, or of the host with a journal, has failed.
pub fn faults_are_told()
    ensures { FaultsAreTold }
{}

/// A host whose plan and script mean something ends by its script, by its peer, or as its polls or its numbers are
/// spent, over any link, unless memory runs out or a count of faults rises.
pub fn hosts_are_answered()
    ensures { HostsAreAnswered }
{}

/// So does an equipment, over a disk that tells bytes which stand for a spool and its setup, and any link.
pub fn equipments_are_answered()
    ensures { EquipmentsAreAnswered }
{}

/// And so does a host with a journal, over a disk that tells bytes which stand for a spool, and any link; or its
/// journal is full.
pub fn journal_hosts_are_answered()
    ensures { JournalHostsAreAnswered }
{}

/// Over objects that do not fail, `show` of a capture without a break ends with status 0 and all its
/// lines, or it runs out of memory.
pub fn shows_whole_captures()
    ensures { ShowsWholeCaptures }
{}

/// An input of hex means one list of bytes, and is the hex of one item.
pub fn hex_means_one_item()
    ensures bytes { HexMeansOne }
    ensures item { HexSpellsOne }
{}

/// What `spell` writes is hex of bytes that spell the item of the text. Where it is within the limit of `spell --hex`,
/// each run of that over it ends well with the text of this item, unless memory runs out or a count of faults rises.
pub fn spelled_reads_back()
    ensures spelled { SpelledIsHex }
    ensures again { SpelledReadsBack }
{}
