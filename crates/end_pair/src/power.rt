//! What becomes of the world in an event in which an end's power goes: the loss, the empty line, and the start anew.

ghost use Rattle.std.specs.Prelude.{◌≡◌, None, Some};
ghost use Rattle.end_pair.specs.Kept.{IsDark, Makes, MayHappen, MayLose, kept, seen};
ghost use Rattle.line_way.specs.Kept.{without_power};
ghost use Rattle.end_pair.specs.World.{World as WorldOf, again, armed, met, planned, without};

use crate::answers::WorldStep;
use crate::step::restart_end;
use crate::world::World;
use disk_base::CutChoice;
use gl_base::{Row, Side};
use line_schedule::Event;
use line_way::Ways;
use message_end::End;
use message_flow::NodeInput;
use std::alloc::Global;
use trace_log::{HostCommand, ToolCommand};

impl<E: End<Command = ToolCommand>, H: End<Command = HostCommand>> World<E, H> {
    // The next event ends the power of this end, and of no other.
    pub(crate) fn plan(&mut self, side: Side, call: u32, choice: CutChoice)
        requires { MayLose E.loses H.loses side }
        ensures { seen E.means H.means self.new ≡ planned side call choice (seen E.means H.means self.old) }
    {
        self.cut = Some((side, call));
        self.choice = choice;
    }

    // Carries out an event, at the end of which there is power again.
    pub(crate) fn meet(&mut self, alloc: Global, event: &Event, lines: &mut Row<u8>) -> WorldStep
        requires { MayHappen E.takes H.takes E.loses H.loses event.now }
        ensures { Makes
            (kept E.means E.anew E.machine)
            (kept H.means H.anew H.machine)
            (met E.machine H.machine event.now self.old.cut (seen E.means H.means self.old))
            self.new
            lines.old lines.new result }
    {
        match self.cut {
            Some((side, call)) => self.cut_short(alloc, side, call, event, lines),
            None => self.carry_whole(alloc, event, lines),
        }
    }

    // An end's power goes in this event.
    fn cut_short(
        &mut self,
        alloc: Global,
        side: Side,
        call: u32,
        event: &Event,
        lines: &mut Row<u8>,
    ) -> WorldStep
        requires loses { MayLose E.loses H.loses side }
        requires event { MayHappen E.takes H.takes E.loses H.loses event.now }
        ensures { Makes
            (kept E.means E.anew E.machine)
            (kept H.means H.anew H.machine)
            (met E.machine H.machine event.now (Some (side, call)) (seen E.means H.means self.old))
            self.new
            lines.old lines.new result }
    {
        self.arm(side, call);
        match self.carry(alloc, event, lines) {
            WorldStep::Went => {
                self.disarm(side);
                self.start_over(alloc, side, lines)
            }
            WorldStep::PowerLost(lost) => self.start_over(alloc, lost, lines),
            stop => stop,
        }
    }

    // Its disk hasn't come to that call, and comes to none any more: it would start anew from what it is.
    fn disarm(&mut self, side: Side)
        ensures { IsDark
            (kept E.means E.anew E.machine)
            (kept H.means H.anew H.machine)
            side
            self.new
            (seen E.means H.means self.old) }
    {
        match side {
            Side::Equipment => self.equipment.arm(0),
            Side::Host => self.host.arm(0),
        }
    }

    // The power goes in it only where a call of the disk is planned still.
    fn carry_whole(&mut self, alloc: Global, event: &Event, lines: &mut Row<u8>) -> WorldStep
        requires { MayHappen E.takes H.takes E.loses H.loses event.now }
        ensures { Makes
            (kept E.means E.anew E.machine)
            (kept H.means H.anew H.machine)
            (met E.machine H.machine event.now None (seen E.means H.means self.old))
            self.new
            lines.old lines.new result }
    {
        match self.carry(alloc, event, lines) {
            WorldStep::PowerLost(lost) => self.start_over(alloc, lost, lines),
            went => went,
        }
    }

    // It is to go at this call of the end's disk.
    fn arm(&mut self, side: Side, call: u32)
        requires { MayLose E.loses H.loses side }
        ensures { seen E.means H.means self.new ≡ (armed side call (seen E.means H.means self.old)).world }
    {
        self.cut = None;
        match side {
            Side::Equipment => self.equipment.arm(call),
            Side::Host => self.host.arm(call),
        }
    }

    // The end has no power: it starts anew, and makes a step.
    fn start_over(&mut self, alloc: Global, side: Side, lines: &mut Row<u8>) -> WorldStep
        ensures { (left : WorldOf E.State H.State)
            → IsDark (kept E.means E.anew E.machine) (kept H.means H.anew H.machine) side self.old left
            → Makes
            (kept E.means E.anew E.machine)
            (kept H.means H.anew H.machine)
            (without E.machine H.machine side left)
            self.new
            lines.old lines.new result }
    {
        match self.start_anew(alloc, side, lines) {
            WorldStep::Went => {}
            stop => return stop,
        }
        match side {
            Side::Equipment => self.step_equipment(alloc, 0, NodeInput::Time, lines),
            Side::Host => self.step_host(alloc, NodeInput::Time, lines),
        }
    }

    // The line is emptied, and the end starts anew with what is left of its disk.
    fn start_anew(&mut self, alloc: Global, side: Side, lines: &mut Row<u8>) -> WorldStep
        ensures { (left : WorldOf E.State H.State)
            → IsDark (kept E.means E.anew E.machine) (kept H.means H.anew H.machine) side self.old left
            → Makes
            (kept E.means E.anew E.machine)
            (kept H.means H.anew H.machine)
            (again E.machine H.machine side left)
            self.new
            lines.old lines.new result }
    {
        empty_line(side, &mut self.ways);
        match side {
            Side::Equipment => restart_end(
                alloc,
                self.moment,
                Side::Equipment,
                self.choice,
                &mut self.equipment,
                lines,
            ),
            Side::Host => restart_end(
                alloc,
                self.moment,
                Side::Host,
                self.choice,
                &mut self.host,
                lines,
            ),
        }
    }
}

// An end has no power: nothing is on its way, and it has gathered nothing.
fn empty_line(side: Side, ways: &mut Ways)
    ensures ways { ways.new ≡ without_power side ways.old }
    ensures count { ways.new.written ≡ ways.old.written }
{
    ways.empty(side);
}
