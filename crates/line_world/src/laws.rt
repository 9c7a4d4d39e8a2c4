//! What the claims of a log rest on, what a safe log says at each of its entries, and made rounds that can be followed
//! by hand.

ghost use Rattle.line_world.specs.Below.{LawsHold};
ghost use Rattle.line_world.specs.FewCalls.{FewCallsFindRoom};
ghost use Rattle.line_world.specs.Safe.{HoldsAtEachEntry};
ghost use Rattle.line_world.specs.Steps.{SafeLogsHaveSteps, SafeLogsReplyInSteps};
ghost use Rattle.line_world.specs.Worked.{WorkedRounds};
ghost use Rattle.line_world.specs.WorkedSamples.{DataOutOfTurn};
ghost use Rattle.line_world.specs.WorkedSteps.{LateReplies};

use delivery::ends_deliver;
use equipment_tables::tables_are_looked_back_for;
use gem_trace::{few_traces_run, what_runs_is_looked_back_for};
use setup_law::kept_setup_holds;
use spool_delivery::spool_is_taken_in_order;
use tool_reports::reports_are_of_their_events;
use tool_spool::{messages_leave_in_step, overwrites_for_puts, setup_is_kept, spool_is_kept};
use tool_step::losses_are_counted;

/// What the crates below promise of a tool and of a line, whatever the host is: all that the claims of a log rest on.
pub fn laws_hold()
    ensures { LawsHold }
{
    ends_deliver();
    spool_is_taken_in_order();
    reports_are_of_their_events();
    spool_is_kept();
    messages_leave_in_step();
    overwrites_for_puts();
    setup_is_kept();
    kept_setup_holds();
    tables_are_looked_back_for();
    what_runs_is_looked_back_for();
    few_traces_run();
}

/// What is said of a safe log holds at each of its entries, by all entries up to that one.
pub fn holds_at_each_entry()
    ensures { HoldsAtEachEntry }
{
    kept_setup_holds();
}

/// No step of an end goes on past its moment: between two notes of an end in a safe log that are of two moments, the
/// end has noted that a step has ended, or that it has started.
pub fn steps_are_noted()
    ensures { SafeLogsHaveSteps }
{}

/// Each reply in a safe log goes in the step in which its end has received the primary, and once; so both are noted at
/// the same moment.
pub fn replies_go_in_steps()
    ensures { SafeLogsReplyInSteps }
{}

/// While the disk of the tool makes fewer than 32,768 calls behind a start, and these write less than 32 MiB, those of
/// the step that is asked for among them, a run has a turn left for all that is the disk's.
pub fn few_calls_find_room<H>()
    ensures { FewCallsFindRoom H }
{
    losses_are_counted();
}

/// Rounds and a summary that can be followed by hand.
pub fn worked_rounds()
    ensures { WorkedRounds }
{}

/// Logs with a reply behind the step of its primary, its end noted or not, which aren't safe.
pub fn worked_steps()
    ensures { LateReplies }
{}

/// Notes of a trace, with the steps that they tell of; and logs that aren't safe: an S6F1 that goes out before it is
/// due, one that nobody has asked for, and one that is put into the spool.
pub fn worked_trace_data()
    ensures { DataOutOfTurn }
{}
