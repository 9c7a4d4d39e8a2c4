//! What holds of all runs of two ends: how they end, and that their logs are those of moves that the ends' laws allow.

ghost use Rattle.std.specs.Prelude.{List, All};
ghost use Rattle.line_schedule.specs.declared.event.Event.{Event};
ghost use Rattle.message_end.specs.Core.{step_in};
ghost use Rattle.message_end.specs.Ends.{Opens};
ghost use Rattle.message_end.specs.Moves.{LinePlans};
ghost use Rattle.end_pair.specs.Kept.{MayHappen};
ghost use Rattle.end_pair.specs.Laws.{AreOnLine, HasBytes, IsOfMoves, NeverFull, RunsAreBounded, RunsEndFiveWays, StepsEndByCause};
ghost use Rattle.end_pair.specs.Noted.{EntriesAreOfCourses};
ghost use Rattle.end_pair.specs.Run.{log_of};
ghost use Rattle.end_pair.specs.TurnCauses.{TurnsEndByCause};
ghost use Rattle.end_pair.specs.Worked.{WorkedHostLosses, WorkedLosses, WorkedRuns};
ghost use Rattle.end_pair.specs.WorkedSteps.{StepsEndOnce};

use message_end::End;
use trace_log::{HostCommand, ToolCommand};

/// A run makes 4,000,000 steps at most, and has no turn left only with all of them made, or where the disk of an end
/// goes no further.
pub fn runs_are_bounded<E: End<Command = ToolCommand>, H: End<Command = HostCommand>>()
    ensures { RunsAreBounded E.State H.State }
{}

/// A run is carried out to the end of its schedule, or it ends for a slip, for want of turns, for spent numbers or for
/// a full store of an end's own, and for nothing else. Its log ends with the end exactly where it is carried out, and
/// with a slip exactly where one has ended it; all entries before are notes.
pub fn runs_end_five_ways<E: End<Command = ToolCommand>, H: End<Command = HostCommand>>()
    ensures { RunsEndFiveWays E.State H.State }
{}

/// No run is ended by a full store where neither end has a step that finds no room in its own for what it must put.
pub fn never_full<E: End<Command = ToolCommand>, H: End<Command = HostCommand>>()
    ensures { NeverFull E.State H.State }
{}

/// A step of an end ends a run exactly where a slip is found before it, where it comes to a call that its disk has no
/// room for, where it lacks room in the end's own store, or where the end was to draw a number and had none; and its
/// end, and no other, loses its power exactly where it comes to the call of its disk that is planned.
pub fn steps_end_by_cause<E: End>()
    ensures { StepsEndByCause E.State E.Command }
{}

/// A step that is asked for leaves a run no turn exactly where 4,000,000 steps were made before it, or where it comes
/// to a call that its disk has no room for and at which no cut has the power go. No more is asked for then.
pub fn turns_end_by_cause<E: End<Command = ToolCommand>, H: End<Command = HostCommand>>()
    ensures { TurnsEndByCause E.State H.State }
{}

/// Whatever a schedule does to two ends that keep their law, its log is that of moves on one line, each of which its
/// end may make, and none of which is a slip. Only a last entry, of a slip or of the end, is no move's.
pub fn runs_are_moves<E: End<Command = ToolCommand>, H: End<Command = HostCommand>>()
    ensures { (equipment : E.Plan) (equipment_store : E.Store) (host : H.Plan) (host_store : H.Store)
        (plans : LinePlans) (events : List Event)
        → E.fits equipment → H.fits host → E.holds equipment_store → H.holds host_store
        → Opens (E.start equipment equipment_store) → Opens (H.start host host_store)
        → AreOnLine plans (E.plan_of equipment) (H.plan_of host)
        → All (MayHappen E.takes H.takes E.loses H.loses) events → All HasBytes events
        → IsOfMoves
        (E.did equipment)
        (H.did host)
        plans
        (log_of E.machine H.machine
        (step_in (E.start equipment equipment_store)) (step_in (H.start host host_store)) events) }
{}

/// Whatever a schedule does, what the log has of an end is what the end notes when it meets some steps, one after the
/// other, and each of these notes has the moment of its step. So what holds of all that an end may note, and when,
/// holds of its entries in the log of every run.
pub fn entries_are_of_courses<E: End<Command = ToolCommand>, H: End<Command = HostCommand>>()
    ensures { EntriesAreOfCourses E.State H.State }
{}

/// Two runs that can be followed by hand: a block is carried, and with one character of its frame replaced it is a
/// slip.
pub fn worked_runs()
    ensures { WorkedRuns }
{}

/// Losses of power that can be followed by hand, of an equipment that stores a count.
pub fn worked_losses()
    ensures { WorkedLosses }
{}

/// Losses of the host's power beside it, and a store that is full.
pub fn worked_host_losses()
    ensures { WorkedHostLosses }
{}

/// What is one step of an end, and what isn't: one without its end, and two with one end.
pub fn worked_steps()
    ensures { StepsEndOnce }
{}
