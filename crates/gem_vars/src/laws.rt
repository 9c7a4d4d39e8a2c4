//! What holds of the variables and constants after each history.

ghost use Rattle.gem_vars.specs.Laws.{ValuesStayAsPlanned, VarsAreLookedBackFor};

/// After each history the tables have of every variable and constant what is looked back for: the value of the newest
/// accepted setting of it, and the plan's value where there is none.
pub fn vars_are_looked_back_for()
    ensures { VarsAreLookedBackFor }
{}

/// After accepted settings each variable has a value of the planned kind that has at most 4,096 bytes and 60 lists one
/// in another, and each constant has a value in its range.
pub fn values_stay_as_planned()
    ensures { ValuesStayAsPlanned }
{}
