//! The law of the ledger: whatever is decided, the works that the disk owes are due.

ghost use Rattle.spool_ledger.specs.Laws.{LedgersAreLawful};
ghost use Rattle.spool_ledger.specs.Worked.{RemovesForRoom};

/// After each list of calls the works are due, the numbers of the messages that are put rise by one, and the list that
/// was noted is the one that is counted.
pub fn ledgers_are_lawful()
    ensures { LedgersAreLawful }
{}

/// Examples of removals for room in a spool of three slots, by the sizes of what stands and of what is put: one leaves
/// where one is enough, two where one is too few, and none where there is room, or where the message could never be
/// put.
pub fn worked_removals()
    ensures { RemovesForRoom }
{}
