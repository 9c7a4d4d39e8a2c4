//! A run of a tool and its host. All laws of the layers below come together here: its log is safe.

ghost use Rattle.std.specs.Prelude.{◌≢◌};
ghost use Rattle.end_pair.specs.Run.{HandsBack};
ghost use Rattle.end_pair.specs.declared.answers.RunEnd.TheVariants.{JournalFull};
ghost use Rattle.equipment_tables.specs.Plan.{PlansFit};
ghost use Rattle.gl_base.specs.Told.{sink_told};
ghost use Rattle.line_schedule.specs.Schedule.{Fits};
ghost use Rattle.line_world.specs.Run.{Runs, log_of, piece_of, seen};
ghost use Rattle.line_world.specs.Safe.{IsSafe};

use crate::disk::empty_spool;
use crate::laws::laws_hold;
use end_pair::{RunEnd, World, entries_are_of_courses, never_full, runs_are_moves};
use equipment_node::EquipmentEnd;
use equipment_tables::Plans;
use gl_base::Sink;
use host_node::Host;
use line_schedule::Schedule;
use message_end::End;
use std::alloc::Global;

/// Carries out a schedule on the line between a tool and its host, losses of the tool's power included, and writes the
/// trace of what both note. The log of that trace is safe, up to the first slip: each message delivered was sent by the
/// other end, whole, and once in a start of its receiver, and messages are delivered in order; each report that the
/// tool sends, at once or out of its spool, in that start or a later one, holds what its variables held as its event
/// happened, or as it was asked for; its trace data hold what they held at the samples; what the tool spools is there
/// at each of its starts until it leaves, in the step that has brought the cause, and is taken by the host in order;
/// and each start finds the setup of the start before it, carried on by what was kept since, and carries it out.
/// Hands the world back exactly where it answers `Whole`.
///
/// The disk of the tool's spool is in memory, and new. A run has no turn left exactly where all 4,000,000 steps are
/// made and one is left, or where a step comes to a call of that disk that would be its 65,537th since it was made or
/// power was lost, or would pass 64 MiB that are written since, and at which no cut takes the power. The calls count
/// that make the file, 34 and one a slot, or take it up again, two and two a slot and one more of each of the last
/// 257; the one or two that read the setup; the one that asks the size of each message found; and the five by which a
/// start reserves system bytes. What is written are the lines up to that call.
///
/// Neither end has a store of its own that it must put something into, so no run is ended by a full one.
///
/// The plans and the schedule must fit.
pub fn run<W: Sink>(
    alloc: Global,
    plans: &Plans,
    schedule: &Schedule,
    out: &mut W,
) -> (RunEnd, Option<World<EquipmentEnd, Host>>)
    requires plans { PlansFit plans.now }
    requires schedule { Fits schedule.now }
    ensures text { Runs (sink_told W.Sink out.old out.new) plans.now schedule.now result.0 }
    ensures world { HandsBack
        (seen ⟦<EquipmentEnd as End>⟧.means)
        (piece_of plans.now schedule.now).world
        result.0
        result.1 }
    ensures store { result.0 ≢ JournalFull }
    ensures safe { IsSafe plans.now (log_of plans.now schedule.now) }
{
    laws_hold();
    entries_are_of_courses::<EquipmentEnd, Host>();
    runs_are_moves::<EquipmentEnd, Host>();
    never_full::<EquipmentEnd, Host>();
    let Ok(spool) = empty_spool(alloc, plans.slots) else {
        return (RunEnd::NoMemory, None);
    };
    let (end, world) = end_pair::run::<EquipmentEnd, Host, W>(
        alloc,
        &plans.equipment,
        spool,
        &plans.host,
        (),
        schedule.events.as_slice(),
        out,
    );
    (end, world)
}
