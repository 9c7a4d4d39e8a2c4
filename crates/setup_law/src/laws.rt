//! What follows of the setup that an equipment keeps.

ghost use Rattle.setup_law.specs.Tables.{KeptSetupHolds};
ghost use Rattle.setup_law.specs.Worked.{SetupsAreKeptAsWorked};

use equipment_tables::kept_tells_the_same;
use gem_reports::reports_go_by_what_stands;

/// Behind each note what is kept tells the setup that holds: the constants, the reports with their links and enables,
/// which alarms are enabled, and the rule of spooling. So a start that has carried it out has the setup of the start
/// before it, with or without the primary that was being kept as power was lost.
pub fn kept_setup_holds()
    ensures { KeptSetupHolds }
{
    reports_go_by_what_stands();
    kept_tells_the_same();
}

/// Runs that were worked by hand: setups that are kept, found and carried out, also where one entry is refused, where
/// power is lost in a keep, and in a file without room for any. Runs in which nothing, or a later entry first, is
/// carried out, in which a list or an entry of it is forgotten, in which the answer or the end of a step comes before
/// the keep, in which a request counts for which there is no room, and in which what was being kept counts twice, don't
/// keep the law.
pub fn worked_setups()
    ensures { SetupsAreKeptAsWorked }
{}
