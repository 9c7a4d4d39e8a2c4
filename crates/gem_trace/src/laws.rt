//! What holds of the traces after each history, and one that can be followed by hand.

ghost use Rattle.gem_trace.specs.Laws.{FewTracesRun, WhatRunsIsLookedBackFor};
ghost use Rattle.gem_trace.specs.Worked.{NoTraceOutlivesItsTotal, TwoSamplesAreWorked};

/// After each history of accepted S2F23 and steps, the traces that run are those looked back for: each that was set and
/// is neither set anew nor ended since, with the samples that were due of it, while these are fewer than its total. And
/// the S6F1 that are due at a step are those that the history has due there, each of the values at the samples since
/// the one before it.
pub fn what_runs_is_looked_back_for()
    ensures { WhatRunsIsLookedBackFor }
{}

/// At most 16 traces run, so a step brings at most 16 S6F1.
pub fn few_traces_run()
    ensures { FewTracesRun }
{}

/// A trace of two samples of one variable: how it and its like are answered, when its samples are due, and its S6F1.
pub fn two_samples_are_worked()
    ensures { TwoSamplesAreWorked }
{}

/// A table that keeps this trace behind its last sample doesn't stand for what has happened.
pub fn no_trace_outlives_its_total()
    ensures { NoTraceOutlivesItsTotal }
{}
