//! Made rounds of a tool and its host, and the summary of their trace.

ghost use Rattle.std.specs.Prelude.{◌≡◌};
ghost use Rattle.equipment_tables.specs.Plan.{PlansFit};
ghost use Rattle.gl_base.specs.Told.{sink_told};
ghost use Rattle.line_world.specs.Making.{MakesRounds, SummaryEnds, end_made, summary_text};

use crate::counting::Counts;
use crate::disk::empty_spool;
use crate::making::count_rounds;
use crate::summary::summary_of;
use end_pair::{RunEnd, WorldStep};
use equipment_node::EquipmentEnd;
use equipment_tables::Plans;
use gl_base::{Sink, SinkAnswer, copy_out};
use host_node::Host;
use std::alloc::Global;

/// Carries out so many rounds on the line between a tool and its host, as `run` does with their schedule, and writes a
/// summary: how many lines of the trace are of a kind. The events of a round are made as it begins, and the lines of an
/// event are counted as they come: neither schedule nor trace is kept.
///
/// Nothing is written unless all of it was carried out. The plans must fit.
pub fn make<W: Sink>(alloc: Global, plans: &Plans, rounds: u32, out: &mut W) -> RunEnd
    requires { PlansFit plans.now }
    ensures { MakesRounds (sink_told W.Sink out.old out.new) plans.now rounds result }
{
    let Ok(spool) = empty_spool(alloc, plans.slots) else {
        return RunEnd::NoMemory;
    };
    match count_rounds::<EquipmentEnd, Host>(
        alloc,
        &plans.equipment,
        spool,
        &plans.host,
        (),
        rounds,
    ) {
        Ok(counts) => write_summary(rounds, &counts, out),
        Err(stop) => end_made(stop),
    }
}

fn write_summary<W: Sink>(rounds: u32, counts: &Counts, out: &mut W) -> RunEnd
    ensures { SummaryEnds (sink_told W.Sink out.old out.new) (summary_text rounds counts.now) result }
{
    match copy_out(out, &summary_of(rounds, counts)) {
        SinkAnswer::Done => RunEnd::Whole,
        SinkAnswer::Failed => RunEnd::WriteFailed,
    }
}

// How a run ends that wasn't carried out whole.
fn end_made(stop: WorldStep) -> RunEnd
    ensures { result ≡ end_made stop }
{
    match stop {
        WorldStep::Slip => RunEnd::Slip,
        WorldStep::Turns => RunEnd::Turns,
        WorldStep::NumbersSpent => RunEnd::NumbersSpent,
        WorldStep::JournalFull => RunEnd::JournalFull,
        WorldStep::Went | WorldStep::PowerLost(_) | WorldStep::NoMemory => RunEnd::NoMemory,
    }
}
