//! A whole run: the schedule is carried out event by event on a new world, and its lines are written through a page.

ghost use Rattle.std.specs.Prelude.{◌≡◌, ◌++◌, All};
ghost use Rattle.gl_base.specs.Sending.{Sends};
ghost use Rattle.end_pair.specs.declared.answers.WorldStep.TheVariants as answer;
ghost use Rattle.gl_base.specs.Told.{sink_told};
ghost use Rattle.trace_log.specs.Log.Entry.{Ended};
ghost use Rattle.trace_log.specs.Text.{entry_text};
ghost use Rattle.message_end.specs.Core.{step_in};
ghost use Rattle.message_end.specs.Ends.{Opens};
ghost use Rattle.end_pair.specs.Kept.{IsPowered, MayHappen, Puts, seen};
ghost use Rattle.end_pair.specs.Run.{Ends, HandsBack, Runs, end_of, piece_of, trace_text, went_of};

use crate::answers::{RunEnd, WorldStep};
use crate::world::World;
use gl_base::{NoMemory, Page, Row, Sink, SinkAnswer};
use line_schedule::Event;
use message_end::End;
use std::alloc::Global;
use trace_log::{HostCommand, ToolCommand, put_end};

/// Carries out the events of a schedule on the line between two ends, and writes the trace of what both note. Hands the
/// world back exactly where it answers `Whole`.
///
/// The plans must fit, the stores hold, there must be numbers to start with, and each event must be one that may
/// happen: an end loses its power only where it has a disk.
pub fn run<E: End<Command = ToolCommand>, H: End<Command = HostCommand>, W: Sink>(
    alloc: Global,
    equipment: &E::Plan,
    equipment_store: E::Store,
    host: &H::Plan,
    host_store: H::Store,
    events: &[Event],
    out: &mut W,
) -> (RunEnd, Option<World<E, H>>)
    requires equipment { E.fits equipment.now }
    requires host { H.fits host.now }
    requires equipment_store { E.holds equipment_store }
    requires host_store { H.holds host_store }
    requires equipment_opens { Opens (E.start equipment.now equipment_store) }
    requires host_opens { Opens (H.start host.now host_store) }
    requires events { All (MayHappen E.takes H.takes E.loses H.loses) events.now }
    ensures text { Runs
        (sink_told W.Sink out.old out.new)
        (trace_text E.machine H.machine
        (step_in (E.start equipment.now equipment_store)) (step_in (H.start host.now host_store))
        events.now)
        (went_of E.machine H.machine
        (step_in (E.start equipment.now equipment_store)) (step_in (H.start host.now host_store))
        events.now)
        result.0 }
    ensures world { HandsBack
        (seen E.means H.means)
        (piece_of E.machine H.machine
        (step_in (E.start equipment.now equipment_store)) (step_in (H.start host.now host_store))
        events.now).world
        result.0
        result.1 }
{
    let mut page = Page::new();
    let mut lines = Row::new(alloc);
    let mut world = match World::<E, H>::start(
        alloc,
        equipment,
        equipment_store,
        host,
        host_store,
        &mut lines,
    ) {
        Ok(world) => world,
        Err(how) => return (stop(how, lines.as_slice(), &mut page, out), None),
    };
    'events: for event in events {
        let SinkAnswer::Done = page.put(out, lines.as_slice()) else {
            return (RunEnd::WriteFailed, None);
        };
        lines.truncate(0);
        match world.step(alloc, event, &mut lines) {
            WorldStep::Went => {}
            went => return (stop(went, lines.as_slice(), &mut page, out), None),
        }
    }
    let went = close(world.moment(), &mut lines);
    match stop(went, lines.as_slice(), &mut page, out) {
        RunEnd::Whole => (RunEnd::Whole, Some(world)),
        end => (end, None),
    }
}

// Puts the line of the end.
fn close(now: u64, lines: &mut Row<u8>) -> WorldStep
    ensures puts { Puts answer.Went (entry_text (Ended now)) lines.old lines.new result }
    ensures powered { IsPowered result }
{
    match put_end(now, lines) {
        Ok(()) => WorldStep::Went,
        Err(NoMemory) => WorldStep::NoMemory,
    }
}

// Sends what the page holds and these lines, the last of a run that went on no further.
fn stop<W: Sink>(went: WorldStep, lines: &[u8], page: &mut Page, out: &mut W) -> RunEnd
    requires { IsPowered went }
    ensures { Ends (sink_told W.Sink out.old out.new) (page.old.bytes.items ++ lines.now) went result }
{
    match write_rest(lines, page, out) {
        SinkAnswer::Done => end_of(went),
        SinkAnswer::Failed => RunEnd::WriteFailed,
    }
}

fn end_of(went: WorldStep) -> RunEnd
    ensures { result ≡ end_of went }
{
    match went {
        WorldStep::Went => RunEnd::Whole,
        WorldStep::Slip => RunEnd::Slip,
        WorldStep::Turns => RunEnd::Turns,
        WorldStep::NumbersSpent => RunEnd::NumbersSpent,
        WorldStep::JournalFull => RunEnd::JournalFull,
        WorldStep::PowerLost(_) => RunEnd::NoMemory,
        WorldStep::NoMemory => RunEnd::NoMemory,
    }
}

// Sends what the page holds, and these lines.
fn write_rest<W: Sink>(lines: &[u8], page: &mut Page, out: &mut W) -> SinkAnswer
    ensures { Sends (sink_told W.Sink out.old out.new) (page.old.bytes.items ++ lines.now) result }
{
    let SinkAnswer::Done = page.put(out, lines) else {
        return SinkAnswer::Failed;
    };
    page.send(out)
}
