//! A world whose lines are counted as they come, and not kept.

ghost use Rattle.std.specs.Prelude.{◌++◌, ℕ, List, All, Err, IfErr, IfOk};
ghost use Rattle.end_pair.specs.Kept.{MayHappen, seen};
ghost use Rattle.end_pair.specs.Run.{piece_of};
ghost use Rattle.end_pair.specs.World.{Piece, after_event, after_events, begun, still};
ghost use Rattle.end_pair.specs.declared.answers.WorldStep.TheVariants as answer;
ghost use Rattle.message_end.specs.Core.{step_in};
ghost use Rattle.message_end.specs.Ends.{Opens};
ghost use Rattle.line_world.specs.Counting.{no_lines};
ghost use Rattle.line_world.specs.Make.{first_events, make_events, round_of};
ghost use Rattle.line_world.specs.Making.{CarriesOn, Closes, Counted, Leads, Makes};

use crate::counting::{Counts, count_lines, no_lines};
use crate::rounds::{first_events, next_number, round_events};
use end_pair::{World, WorldStep};
use gl_base::{NoMemory, Row};
use line_schedule::Event;
use message_end::End;
use std::alloc::Global;
use trace_log::{HostCommand, ToolCommand, put_end};

/// Carries out so many rounds over two ends, and counts the lines of what both note.
pub(crate) fn count_rounds<E: End<Command = ToolCommand>, H: End<Command = HostCommand>>(
    alloc: Global,
    equipment: &E::Plan,
    equipment_store: E::Store,
    host: &H::Plan,
    host_store: H::Store,
    rounds: u32,
) -> Result<Counts, WorldStep>
    requires equipment { E.fits equipment.now }
    requires host { H.fits host.now }
    requires equipment_store { E.holds equipment_store }
    requires host_store { H.holds host_store }
    requires equipment_opens { Opens (E.start equipment.now equipment_store) }
    requires host_opens { Opens (H.start host.now host_store) }
    requires first { All (MayHappen E.takes H.takes E.loses H.loses) first_events }
    requires each { (x : ℕ) → All (MayHappen E.takes H.takes E.loses H.loses) (round_of x) }
    ensures { Counted
        (piece_of E.machine H.machine
        (step_in (E.start equipment.now equipment_store)) (step_in (H.start host.now host_store))
        (make_events rounds))
        result }
{
    let mut making = match Making::<E, H>::start(
        alloc,
        equipment,
        equipment_store,
        host,
        host_store,
    ) {
        Ok(making) => making,
        Err(stop) => return Err(stop),
    };
    match making.carry_rounds(alloc, rounds) {
        WorldStep::Went => making.close(alloc),
        stop => Err(stop),
    }
}

/// A world, and what was counted of its lines.
#[derive(Drop)]
struct Making<E: End, H: End> {
    world: World<E, H>,
    counts: Counts,
}

impl<E: End<Command = ToolCommand>, H: End<Command = HostCommand>> Making<E, H> {
    // Both ends at their starts, each of which has made its first step, or how that has ended the run.
    fn start(
        alloc: Global,
        equipment: &E::Plan,
        equipment_store: E::Store,
        host: &H::Plan,
        host_store: H::Store,
    ) -> Result<Making<E, H>, WorldStep>
        requires equipment { E.fits equipment.now }
        requires host { H.fits host.now }
        requires equipment_store { E.holds equipment_store }
        requires host_store { H.holds host_store }
        requires equipment_opens { Opens (E.start equipment.now equipment_store) }
        requires host_opens { Opens (H.start host.now host_store) }
        ensures ok { IfOk result (λ making. Makes
            (begun E.machine H.machine
            (step_in (E.start equipment.now equipment_store)) (step_in (H.start host.now host_store)))
            (seen E.means H.means making.world)
            no_lines making.counts answer.Went) }
        ensures err { IfErr result (λ stop. Counted
            (begun E.machine H.machine
            (step_in (E.start equipment.now equipment_store)) (step_in (H.start host.now host_store)))
            (Err stop)) }
    {
        let mut lines = Row::new(alloc);
        let world = match World::<E, H>::start(
            alloc,
            equipment,
            equipment_store,
            host,
            host_store,
            &mut lines,
        ) {
            Ok(world) => world,
            Err(stop) => return Err(stop),
        };
        match count_lines(no_lines(), lines.as_slice()) {
            Ok(counts) => Ok(Making { world, counts }),
            Err(NoMemory) => Err(WorldStep::NoMemory),
        }
    }

    // What comes first, and then so many rounds, the events of each of which are made as it begins.
    fn carry_rounds(&mut self, alloc: Global, rounds: u32) -> WorldStep
        requires first { All (MayHappen E.takes H.takes E.loses H.loses) first_events }
        requires each { (x : ℕ) → All (MayHappen E.takes H.takes E.loses H.loses) (round_of x) }
        ensures { (whole : Piece E.State H.State) (before : Counts)
            → Leads
            (after_events E.machine H.machine (make_events rounds) (seen E.means H.means self.old.world))
            self.old.counts whole before
            → CarriesOn result
            (still (seen E.means H.means self.new.world))
            whole
            (seen E.means H.means self.new.world)
            before self.new.counts }
    {
        match self.carry_first(alloc) {
            WorldStep::Went => {}
            stop => return stop,
        }
        let mut x = rounds;
        let mut left = rounds;
        'rounds: while left > 0 {
            left -= 1;
            x = next_number(x);
            match self.carry_round(alloc, x) {
                WorldStep::Went => {}
                stop => return stop,
            }
        }
        WorldStep::Went
    }

    fn carry_first(&mut self, alloc: Global) -> WorldStep
        requires { All (MayHappen E.takes H.takes E.loses H.loses) first_events }
        ensures { (rest : List Event) (whole : Piece E.State H.State) (before : Counts)
            → Leads
            (after_events E.machine H.machine (first_events ++ rest) (seen E.means H.means self.old.world))
            self.old.counts whole before
            → CarriesOn result
            (after_events E.machine H.machine rest (seen E.means H.means self.new.world))
            whole
            (seen E.means H.means self.new.world)
            before self.new.counts }
    {
        match first_events(alloc) {
            Ok(events) => self.carry_all(alloc, events.as_slice()),
            Err(NoMemory) => WorldStep::NoMemory,
        }
    }

    // The round with this number.
    fn carry_round(&mut self, alloc: Global, x: u32) -> WorldStep
        requires { All (MayHappen E.takes H.takes E.loses H.loses) (round_of x) }
        ensures { (rest : List Event) (whole : Piece E.State H.State) (before : Counts)
            → Leads
            (after_events E.machine H.machine (round_of x ++ rest) (seen E.means H.means self.old.world))
            self.old.counts whole before
            → CarriesOn result
            (after_events E.machine H.machine rest (seen E.means H.means self.new.world))
            whole
            (seen E.means H.means self.new.world)
            before self.new.counts }
    {
        match round_events(alloc, x) {
            Ok(events) => self.carry_all(alloc, events.as_slice()),
            Err(NoMemory) => WorldStep::NoMemory,
        }
    }

    // These events, one after the other, as long as it goes on.
    fn carry_all(&mut self, alloc: Global, events: &[Event]) -> WorldStep
        requires { All (MayHappen E.takes H.takes E.loses H.loses) events.now }
        ensures { (rest : List Event) (whole : Piece E.State H.State) (before : Counts)
            → Leads
            (after_events E.machine H.machine (events.now ++ rest) (seen E.means H.means self.old.world))
            self.old.counts whole before
            → CarriesOn result
            (after_events E.machine H.machine rest (seen E.means H.means self.new.world))
            whole
            (seen E.means H.means self.new.world)
            before self.new.counts }
    {
        'events: for event in events {
            match self.carry(alloc, event) {
                WorldStep::Went => {}
                stop => return stop,
            }
        }
        WorldStep::Went
    }

    // An event, the lines of which are counted.
    fn carry(&mut self, alloc: Global, event: &Event) -> WorldStep
        requires { MayHappen E.takes H.takes E.loses H.loses event.now }
        ensures { Makes
            (after_event E.machine H.machine event.now (seen E.means H.means self.old.world))
            (seen E.means H.means self.new.world)
            self.old.counts self.new.counts result }
    {
        let mut lines = Row::new(alloc);
        match self.world.step(alloc, event, &mut lines) {
            WorldStep::Went => {}
            stop => return stop,
        }
        match count_lines(self.counts, lines.as_slice()) {
            Ok(counts) => {
                self.counts = counts;
                WorldStep::Went
            }
            Err(NoMemory) => WorldStep::NoMemory,
        }
    }

    // Counts the line of the end.
    fn close(self, alloc: Global) -> Result<Counts, WorldStep>
        ensures { Closes self.world.moment self.counts result }
    {
        let mut lines = Row::new(alloc);
        let Ok(()) = put_end(self.world.moment(), &mut lines) else {
            return Err(WorldStep::NoMemory);
        };
        match count_lines(self.counts, lines.as_slice()) {
            Ok(counts) => Ok(counts),
            Err(NoMemory) => Err(WorldStep::NoMemory),
        }
    }
}
