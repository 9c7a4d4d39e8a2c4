//! What holds of the works of a spool's disk, and works that can be followed by hand.

ghost use Rattle.spool_works.specs.DiskWorks.{WorksAreUpdates};
ghost use Rattle.spool_works.specs.WorkLosses.{LossesAreFound, PurgesAreWhole, SetupsAreWhole};
ghost use Rattle.spool_works.specs.WorkedCalls.{CallsOfLongWorks, CallsOfWorks, KeptBehindWorks, LossesOfWorks};
ghost use Rattle.spool_works.specs.WorkedKeeps.{CallsOfKeeps, KeptBehindKeeps, LossesOfKeeps};

/// Behind the last update of a work stands what the work makes of the spool.
pub fn works_are_updates()
    ensures { WorksAreUpdates }
{}

/// At whichever call of a work power is lost, and whatever becomes of the disk, what is left is what stood, less what
/// was leaving, or with what was being stored at the end. Of a purge it is all or nothing. The setup is the one that
/// was kept, or at a keep the new one.
pub fn losses_are_found()
    ensures found { LossesAreFound }
    ensures whole { PurgesAreWhole }
    ensures setups { SetupsAreWhole }
{}

/// Examples: the disk's calls of each kind of work, what is kept behind them, and what a loss leaves at each.
pub fn worked_calls()
    ensures calls { CallsOfWorks }
    ensures long { CallsOfLongWorks }
    ensures kept { KeptBehindWorks }
    ensures losses { LossesOfWorks }
{}

/// The same of keeps of the setup.
pub fn worked_keeps()
    ensures calls { CallsOfKeeps }
    ensures kept { KeptBehindKeeps }
    ensures losses { LossesOfKeeps }
{}
