//! What holds of the reports of the equipment.

ghost use Rattle.tool_reports.specs.Laws.{ReportsAreOfTheirEvents};
ghost use Rattle.tool_reports.specs.LookedBack.{SetupIsWhatWasKept, StepsHaveWhatWasSet, TablesAreWhatWasSet};
ghost use Rattle.tool_reports.specs.WorkedReports.{LaterSettingsAreNotReported};
ghost use Rattle.tool_reports.specs.WorkedSampled.{SamplesAreWorked};
ghost use Rattle.tool_reports.specs.WorkedSettings.{AlarmsStayEnabled};

use equipment_tables::tables_are_looked_back_for;

/// Each S6F11 that is sent tells of an event before it in the same start, one that was enabled, with what the variables
/// held as it happened, also where it waited for its grant; no event is told of twice. Each S6F16 and S6F20 holds
/// what the variables hold at the answer, to a request with W. What they hold is looked back for in a history that has
/// exactly the tool's commands, and the requests that were answered. Each command for a variable, an event or an alarm
/// has its own note right behind it, that it is carried out or, by the tables before it, refused; such notes stand
/// nowhere else.
pub fn reports_are_of_their_events()
    ensures { ReportsAreOfTheirEvents }
{
    tables_are_looked_back_for();
}

/// An example of what is said of reports: where a variable is set between an event and its S6F11, the old value goes
/// out.
pub fn later_settings_are_not_reported()
    ensures { LaterSettingsAreNotReported }
{}

/// Between any two steps, over all starts, each table of the equipment has what was set last of it in this start, as it
/// is looked back for in the history of the law above, and else what the plan says; and so it has within a step, behind
/// what that is given. Nothing else changes a table: no state of communication or control, no time, no loss of the
/// line.
pub fn tables_are_what_was_set()
    ensures between { TablesAreWhatWasSet }
    ensures within { StepsHaveWhatWasSet }
{
    tables_are_looked_back_for();
}

/// Between any two steps, over all starts, the setup that the equipment keeps in memory is what its notes tell: the
/// list that its start has found, with each primary behind it that was kept since. And no answer waits by then.
pub fn setup_is_what_was_kept()
    ensures { SetupIsWhatWasKept }
{
    tables_are_looked_back_for();
}

/// An example of what is said of the tables: an alarm that the host has enabled is enabled still behind a `disable`,
/// and an equipment that forgets it doesn't keep the law.
pub fn worked_settings()
    ensures { AlarmsStayEnabled }
{}

/// An example of what is said of S6F1: one of two samples, with the variable set between them. It holds what the
/// variable held at each; none goes out before it is due, none that nobody has asked for in this start or that was
/// refused, and no second one; and none is put into the spool.
pub fn worked_samples()
    ensures { SamplesAreWorked }
{}
