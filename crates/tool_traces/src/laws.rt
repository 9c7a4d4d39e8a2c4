//! What holds of the trace data of the equipment.

ghost use Rattle.tool_traces.specs.Laws.{TracesAreSampled};

use equipment_tables::tables_are_looked_back_for;
use gem_trace::{few_traces_run, what_runs_is_looked_back_for};

/// Each S6F1 that is sent, unless it comes out of the spool, has W and holds what its variables held at its samples,
/// of a trace that the host has asked for and that ran then; no more are sent with one text than were due with it; and
/// none is put into the spool, nor anything else but S5F1, S6F11 and S10F1. So of all that is noted over all starts,
/// also where power is lost in a step. Between two steps exactly those traces run that are looked back for, 16 at most,
/// and each S6F1 that was due has had its turn.
pub fn traces_are_sampled()
    ensures { TracesAreSampled }
{
    tables_are_looked_back_for();
    what_runs_is_looked_back_for();
    few_traces_run();
}
