//! The law of the tables as a whole, put together from those of variables, reports, alarms and the spool's rule.

ghost use Rattle.equipment_tables.specs.Laws.{TablesAreLookedBackFor};
ghost use Rattle.equipment_tables.specs.Setup.{KeptTellsTheSame};
ghost use Rattle.equipment_tables.specs.WorkedSetup.{SetupsAreAsWorked};

use gem_alarms::alarms_are_looked_back_for;
use gem_reports::reports_go_by_what_stands;
use gem_vars::vars_are_looked_back_for;
use spool_rule::the_rule_is_looked_back_for;

/// After each history the tables are those that are looked back for: each value, constant, report, link, enable and
/// alarm is what the newest entry says that was accepted, and otherwise the plan; and what is spooled is what the
/// newest accepted S2F43 names, and otherwise the plan.
pub fn tables_are_looked_back_for()
    ensures { TablesAreLookedBackFor }
{
    vars_are_looked_back_for();
    reports_go_by_what_stands();
    alarms_are_looked_back_for();
    the_rule_is_looked_back_for();
}

/// What is kept of the accepted primaries tells the same as all of them: a start that carries it out has the constants,
/// the reports with their links and enables, the alarms' enables and the rule that the start before it had in the end,
/// whatever was asked and commanded meanwhile. The plan is the same one.
pub fn kept_tells_the_same()
    ensures { KeptTellsTheSame }
{
    reports_go_by_what_stands();
}

/// Setups that were worked by hand: what is kept of them, and that a list that forgets links, or constants that the
/// newest one doesn't name, tells something else.
pub fn setups_are_as_worked()
    ensures { SetupsAreAsWorked }
{}
