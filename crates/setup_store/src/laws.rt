//! What holds of kept lists.

ghost use Rattle.setup_store.specs.Laws.{ListsAreReadAsSpelled};
ghost use Rattle.setup_store.specs.Worked.{KeptListsAreAsWorked};

/// A list is read as its entries were spelled, and breaks at the first byte that no list has there, or at its end.
pub fn lists_are_read_as_spelled()
    ensures { ListsAreReadAsSpelled }
{}

/// Lists that were worked by hand, what is kept behind them, and bytes that break.
pub fn kept_lists_are_as_worked()
    ensures { KeptListsAreAsWorked }
{}
