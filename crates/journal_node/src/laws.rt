//! What holds of the host with its journal, whatever it is told.

ghost use Rattle.journal_node.specs.Law.{JournalHostKeepsItsLaw, ListsNothingEarly};
ghost use Rattle.journal_node.specs.Worked.{ListsBeforeReplies, ListsThreeKinds, ListsUntilFull, LosesWholeRecords};

/// The host with its journal keeps the law of an end, over whatever file it starts: so what is proved of two ends holds
/// of it. What it has delivered and is to list is listed in the same step, and nothing is sent before that.
pub fn journal_host_keeps_its_law()
    ensures { JournalHostKeepsItsLaw }
{}

/// Where a step ends early, for want of room in the journal or of numbers, nothing is listed in it.
pub fn lists_nothing_early()
    ensures { ListsNothingEarly }
{}

/// Examples: which messages are listed; with which numbers, and that a journal of three slots takes three records; what
/// a loss of power leaves at each call of a put; and that a host which gives its reply to the line before it has listed
/// the report, or ends the step without, breaks its law.
pub fn worked_journals()
    ensures kinds { ListsThreeKinds }
    ensures full { ListsUntilFull }
    ensures losses { LosesWholeRecords }
    ensures replies { ListsBeforeReplies }
{}
