//! A run of a tool and a host with a journal. All laws of the layers below come together here: its log is safe.

ghost use Rattle.std.specs.Prelude.{◌≤◌};
ghost use Rattle.end_pair.specs.Run.{HandsBack};
ghost use Rattle.equipment_tables.specs.Plan.{PlansFit};
ghost use Rattle.gl_base.specs.Told.{sink_told};
ghost use Rattle.line_schedule.specs.Schedule.{JournalFits};
ghost use Rattle.journal_world.specs.Run.{Runs, log_of, piece_of, seen};
ghost use Rattle.journal_world.specs.Safe.{IsSafe};

use crate::laws::journal_laws_hold;
use end_pair::{RunEnd, World, entries_are_of_courses, runs_are_moves};
use equipment_node::EquipmentEnd;
use equipment_tables::Plans;
use gl_base::Sink;
use journal_end::JournalEnd;
use line_schedule::JournalSchedule;
use line_world::empty_spool;
use message_end::End;
use std::alloc::Global;

/// Carries out a schedule on the line between a tool and a host with a journal of so many slots, losses of the power of
/// both included, and writes the trace of what both note. The log of that trace is safe, up to the first slip: all that
/// is said of a host without a journal holds; what the host lists is what the tool put into its spool, in order and
/// skipping none that wasn't purged or overwritten, each perhaps more than once in a row; what leaves the spool as
/// confirmed is listed; and each start of the host finds what it has listed. Hands the world back exactly where it
/// answers `Whole`.
///
/// The disks of both are in memory, and new. A run has no turn left as one of a host without a journal has, for the
/// calls of either disk. It ends with a full journal exactly where the host is to list a record that has more than
/// 1,048,576 bytes, or takes more slots than are free.
///
/// The plans and the schedule must fit.
pub fn run<W: Sink>(
    alloc: Global,
    plans: &Plans,
    slots: u32,
    schedule: &JournalSchedule,
    out: &mut W,
) -> (RunEnd, Option<World<EquipmentEnd, JournalEnd>>)
    requires plans { PlansFit plans.now }
    requires some { 1 ≤ slots }
    requires most { slots ≤ 1024 }
    requires schedule { JournalFits schedule.now }
    ensures text { Runs (sink_told W.Sink out.old out.new) plans.now slots schedule.now result.0 }
    ensures world { HandsBack
        (seen ⟦<EquipmentEnd as End>⟧.means ⟦<JournalEnd as End>⟧.means)
        (piece_of plans.now slots schedule.now).world
        result.0
        result.1 }
    ensures safe { IsSafe plans.now slots (log_of plans.now slots schedule.now) }
{
    journal_laws_hold();
    entries_are_of_courses::<EquipmentEnd, JournalEnd>();
    runs_are_moves::<EquipmentEnd, JournalEnd>();
    let Ok(spool) = empty_spool(alloc, plans.slots) else {
        return (RunEnd::NoMemory, None);
    };
    let Ok(journal) = empty_spool(alloc, slots) else {
        return (RunEnd::NoMemory, None);
    };
    let (end, world) = end_pair::run::<EquipmentEnd, JournalEnd, W>(
        alloc,
        &plans.equipment,
        spool,
        &plans.host,
        journal,
        schedule.events.as_slice(),
        out,
    );
    (end, world)
}
