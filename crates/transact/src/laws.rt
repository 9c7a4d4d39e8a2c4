//! What holds of transactions and of numbers after all lists of calls.

ghost use Rattle.transact.specs.Laws.{NumbersComeOnce, OpenAreBegunAndNotEnded};

/// After any list of calls the open transactions are those of the primaries that have begun and not ended, in the
/// order in which they began. T3 runs on one from its last start, unless it stopped after that.
pub fn open_are_begun_and_not_ended<K: Copy>()
    ensures { OpenAreBegunAndNotEnded K }
{}

/// The draws give the first number, then each next one, each once, as many as there are, and then none.
pub fn numbers_come_once()
    ensures { NumbersComeOnce }
{}
