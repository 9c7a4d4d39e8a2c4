//! What holds of the reports after each history, and that their order doesn't matter.

ghost use Rattle.gem_reports.specs.Laws.{ReportsAreCounted, ReportsGoByWhatStands, ReportsHaveVariables};

/// After each history there are as many reports as RPTIDs of which one stands.
pub fn reports_are_counted()
    ensures { ReportsAreCounted }
{}

/// After accepted requests every VID of a report that stands is a variable's, since variables neither come nor go.
pub fn reports_have_variables()
    ensures { ReportsHaveVariables }
{}

/// What requests are answered and leave is a function of what stands: of the events with their links, of the reports,
/// and of how many these are. No order of the reports matters.
pub fn reports_go_by_what_stands()
    ensures { ReportsGoByWhatStands }
{}
