//! The world: two ends, the line between them, the clock, and what is planned of the power. One call carries out one
//! event.

ghost use Rattle.std.specs.Prelude.{◌≡◌, ◌≢◌, ◌<◌, ◌≤◌, ◌+◌, ◌*◌, ◌^◌, ◌++◌, ◌&&◌, not, None, Some, IfErr, IfOk, OnErr, OnOk, if◌then◌else◌};
ghost use Rattle.gl_base.specs.declared.side.Side.TheVariants as sides;
ghost use Rattle.message_end.specs.Core.{step_in};
ghost use Rattle.message_end.specs.Ends.{MayTake, Opens, input_of};
ghost use Rattle.trace_log.specs.Text.{text_of};
ghost use Rattle.end_pair.specs.Kept.{IfWent, IsDark, IsPowered, Makes, MayHappen, MayLose, PutPart, Puts, begun_by, kept, seen};
ghost use Rattle.line_way.specs.Kept.{direction_to, with_direction, without_power};
ghost use Rattle.line_way.specs.Ways.{characters_of, is_under_way};
ghost use Rattle.end_pair.specs.World.{World as WorldOf, added_to, after_event, again, armed, at_start, begun, both_stepped, changed_at, equipment_stepped, given, given_times, happened, host_stepped, later, lost, lost_from, met, planned, settled, settled_times, way_to, without};
ghost use Rattle.end_pair.specs.declared.answers.WorldStep.TheVariants as answer;

use crate::answers::WorldStep;
use crate::step::{start_end, step_end};
use disk_base::CutChoice;
use gl_base::{NoMemory, Row, Side};
use line_schedule::Event;
use line_way::Ways;
use message_end::End;
use message_flow::NodeInput;
use std::alloc::Global;
use std::marker::Model;
use trace_log::{HostCommand, ToolCommand};

/// The most steps of ends that a run makes.
const MOST_STEPS: u32 = 4_000_000;

/// The most characters that one line of a schedule lets settle.
const MOST_SETTLED: u32 = 65_536;

/// Two ends and the line between them. Its ends come from their own starts and steps alone.
///
/// After a call that answers anything but `Went` nothing is said of it any more.
#[derive(Drop)]
pub struct World<E: End, H: End> {
    pub(crate) equipment: E,
    pub(crate) host: H,
    pub(crate) ways: Ways,
    pub(crate) moment: u64,
    steps: u32,
    // which end's power goes in the next event, and at which call of its disk; and what that leaves of the disk
    pub(crate) cut: Option<(Side, u32)>,
    pub(crate) choice: CutChoice,
}

impl<E: End, H: End> Model for World<E, H> {
    ghost use Rattle.std.specs.Prelude.{◌≡◌, ◌≤◌, ◌*◌, IfSome};
    ghost use Rattle.end_pair.specs.Kept.{MayLose};
    ghost use Rattle.end_pair.specs.World.{World};

    ghost Value = { World E H };

    ghost view = { λ w. record {
      equipment = w.equipment;
      host = w.host;
      ways = w.ways;
      moment = w.moment;
      steps = w.steps;
      cut = w.cut;
      reach = E.reach w.equipment;
      host_reach = H.reach w.host;
      choice = w.choice;
    } };

    ghost invariant = { λ w. (E.sound w.equipment)
        × (H.sound w.host)
        × IfSome w.cut (λ planned. MayLose E.loses H.loses planned.0)
        × (w.steps ≤ 4000000)
        × (w.moment ≤ 1000000 * w.steps)
        × (w.ways.written ≤ w.steps) };
}

impl<E: End<Command = ToolCommand>, H: End<Command = HostCommand>> World<E, H> {
    /// Both ends at their starts, each of which has made its first step; the lines of that are put at the end. Where
    /// that goes on no further, it answers how.
    pub fn start(
        alloc: Global,
        equipment: &E::Plan,
        equipment_store: E::Store,
        host: &H::Plan,
        host_store: H::Store,
        lines: &mut Row<u8>,
    ) -> Result<World<E, H>, WorldStep>
        requires equipment { E.fits equipment.now }
        requires host { H.fits host.now }
        requires equipment_store { E.holds equipment_store }
        requires host_store { H.holds host_store }
        requires equipment_opens { Opens (E.start equipment.now equipment_store) }
        requires host_opens { Opens (H.start host.now host_store) }
        ensures world { IfOk result (λ world. seen E.means H.means world
            ≡ (begun E.machine H.machine
            (step_in (E.start equipment.now equipment_store))
            (step_in (H.start host.now host_store))).world) }
        ensures lines { let piece = begun E.machine H.machine
            (step_in (E.start equipment.now equipment_store)) (step_in (H.start host.now host_store)) in
            Puts piece.went (text_of piece.entries) lines.old lines.new (begun_by result) }
        ensures stops { IfErr result (λ stop. stop ≢ answer.Went) }
        ensures powered { IfErr result IsPowered }
    {
        let mut world = match World::at_start(
            alloc,
            equipment,
            equipment_store,
            host,
            host_store,
            lines,
        ) {
            Ok(world) => world,
            Err(NoMemory) => return Err(WorldStep::NoMemory),
        };
        match world.step_both(alloc, 0, lines) {
            WorldStep::Went => Ok(world),
            stop => Err(stop),
        }
    }

    // Both ends at their starts, the lines of which are put.
    fn at_start(
        alloc: Global,
        equipment: &E::Plan,
        equipment_store: E::Store,
        host: &H::Plan,
        host_store: H::Store,
        lines: &mut Row<u8>,
    ) -> Result<World<E, H>, NoMemory>
        requires equipment { E.fits equipment.now }
        requires host { H.fits host.now }
        requires equipment_store { E.holds equipment_store }
        requires host_store { H.holds host_store }
        requires equipment_opens { Opens (E.start equipment.now equipment_store) }
        requires host_opens { Opens (H.start host.now host_store) }
        ensures world { IfOk result (λ world. seen E.means H.means world
            ≡ (at_start E.machine H.machine
            (step_in (E.start equipment.now equipment_store))
            (step_in (H.start host.now host_store))).world) }
        ensures lines { OnOk result (lines.new
            ≡ lines.old ++ text_of (at_start E.machine H.machine
            (step_in (E.start equipment.now equipment_store))
            (step_in (H.start host.now host_store))).entries) }
        ensures part { OnErr result (PutPart
            (text_of (at_start E.machine H.machine
            (step_in (E.start equipment.now equipment_store))
            (step_in (H.start host.now host_store))).entries)
            lines.old
            lines.new) }
    {
        let tool = match start_end::<E>(alloc, Side::Equipment, equipment, equipment_store, lines) {
            Ok(tool) => tool,
            Err(NoMemory) => return Err(NoMemory),
        };
        let user = match start_end::<H>(alloc, Side::Host, host, host_store, lines) {
            Ok(user) => user,
            Err(NoMemory) => return Err(NoMemory),
        };
        Ok(World {
            equipment: tool,
            host: user,
            ways: Ways::new(alloc),
            moment: 0,
            steps: 0,
            cut: None,
            choice: CutChoice::Old,
        })
    }

    /// The equipment as it is after the events so far.
    pub fn equipment(&self) -> &E
        ensures { result.now ≡ self.now.equipment }
    {
        &self.equipment
    }

    /// The host, likewise.
    pub fn host(&self) -> &H
        ensures { result.now ≡ self.now.host }
    {
        &self.host
    }

    /// The moment, in milliseconds.
    pub fn moment(&self) -> u64
        ensures { result ≡ self.now.moment }
    {
        self.moment
    }

    /// Carries out an event, and puts its lines at the end. Every earlier call must have answered `Went`.
    ///
    /// A cut ends the equipment's power, and one of the host's the host's, in the next event that isn't a cut itself:
    /// at the call of that end's disk that the cut names, or at the event's end where fewer are made. The end starts
    /// anew at once, and the rest of that event isn't carried out. A later cut takes the place of one before it.
    pub fn step(&mut self, alloc: Global, event: &Event, lines: &mut Row<u8>) -> WorldStep
        requires { MayHappen E.takes H.takes E.loses H.loses event.now }
        ensures lines { let piece = after_event E.machine H.machine event.now (seen E.means H.means self.old) in
            Puts piece.went (text_of piece.entries) lines.old lines.new result }
        ensures world { IfWent result (seen E.means H.means self.new
            ≡ (after_event E.machine H.machine event.now (seen E.means H.means self.old)).world) }
        ensures powered { IsPowered result }
    {
        match event {
            Event::Cut(call, choice) => {
                self.plan(Side::Equipment, *call, *choice);
                WorldStep::Went
            }
            Event::HostCut(call, choice) => {
                self.plan(Side::Host, *call, *choice);
                WorldStep::Went
            }
            _ => self.meet(alloc, event, lines),
        }
    }

    // What a line of a schedule has happen, as long as there is power.
    pub(crate) fn carry(&mut self, alloc: Global, event: &Event, lines: &mut Row<u8>) -> WorldStep
        requires { MayHappen E.takes H.takes E.loses H.loses event.now }
        ensures { Makes
            (kept E.means E.anew E.machine)
            (kept H.means H.anew H.machine)
            (happened E.machine H.machine event.now (seen E.means H.means self.old))
            self.new
            lines.old lines.new result }
    {
        match event {
            Event::To(side, n) => self.give(alloc, *side, *n, lines),
            Event::Settle => self.settle(alloc, MOST_SETTLED, lines),
            Event::Wait(milliseconds) => self.step_both(alloc, *milliseconds, lines),
            Event::Tool(command) => {
                self.step_equipment(alloc, 0, NodeInput::Command(command), lines)
            }
            Event::Host(command) => self.step_host(alloc, NodeInput::Command(command), lines),
            Event::Lose(side, n) => {
                self.lose(*side, *n);
                WorldStep::Went
            }
            Event::Change(side, place, byte) => {
                self.change(*side, *place, *byte);
                WorldStep::Went
            }
            Event::Add(side, byte) => match self.add(*side, *byte) {
                Ok(()) => WorldStep::Went,
                Err(NoMemory) => WorldStep::NoMemory,
            },
            Event::Cut(call, choice) => {
                self.plan(Side::Equipment, *call, *choice);
                WorldStep::Went
            }
            Event::HostCut(call, choice) => {
                self.plan(Side::Host, *call, *choice);
                WorldStep::Went
            }
        }
    }

    // Hands characters to one end: n of them, or as many as are on their way to it.
    fn give(&mut self, alloc: Global, side: Side, n: u32, lines: &mut Row<u8>) -> WorldStep
        ensures { Makes
            (kept E.means E.anew E.machine)
            (kept H.means H.anew H.machine)
            (given_times E.machine H.machine n side (seen E.means H.means self.old))
            self.new
            lines.old lines.new result }
    {
        let mut left = n;
        'characters: while left > 0 {
            if !self.is_under_way(side) {
                return WorldStep::Went;
            }
            match self.hand(alloc, side, lines) {
                WorldStep::Went => {}
                stop => return stop,
            }
            left -= 1;
        }
        WorldStep::Went
    }

    // Hands characters to both ends: n in all, or as many as are on their way.
    fn settle(&mut self, alloc: Global, n: u32, lines: &mut Row<u8>) -> WorldStep
        ensures { Makes
            (kept E.means E.anew E.machine)
            (kept H.means H.anew H.machine)
            (settled_times E.machine H.machine n (seen E.means H.means self.old))
            self.new
            lines.old lines.new result }
    {
        let mut left = n;
        'characters: while left > 0 {
            if self.is_quiet() {
                return WorldStep::Went;
            }
            match self.settle_one(alloc, lines) {
                WorldStep::Went => {}
                stop => return stop,
            }
            left -= 1;
        }
        WorldStep::Went
    }

    // Hands one character to the equipment where one is on its way there, otherwise one to the host.
    fn settle_one(&mut self, alloc: Global, lines: &mut Row<u8>) -> WorldStep
        ensures { Makes
            (kept E.means E.anew E.machine)
            (kept H.means H.anew H.machine)
            (settled E.machine H.machine (seen E.means H.means self.old))
            self.new
            lines.old lines.new result }
    {
        if self.is_under_way(Side::Equipment) {
            self.hand(alloc, Side::Equipment, lines)
        } else {
            self.hand(alloc, Side::Host, lines)
        }
    }

    // Whether no character is on its way.
    fn is_quiet(&self) -> bool
        ensures { result
            ≡ (not (is_under_way (characters_of (way_to sides.Equipment self.now).under_way))
            && not (is_under_way (characters_of (way_to sides.Host self.now).under_way))) }
    {
        !self.is_under_way(Side::Equipment) && !self.is_under_way(Side::Host)
    }

    fn is_under_way(&self, side: Side) -> bool
        ensures { result ≡ is_under_way (characters_of (way_to side self.now).under_way) }
    {
        self.ways.is_under_way(side)
    }

    // Hands the next character to an end, where one is on its way to it.
    fn hand(&mut self, alloc: Global, side: Side, lines: &mut Row<u8>) -> WorldStep
        ensures { Makes
            (kept E.means E.anew E.machine)
            (kept H.means H.anew H.machine)
            (given E.machine H.machine side (seen E.means H.means self.old))
            self.new
            lines.old lines.new result }
    {
        let Some(byte) = self.ways.next(side) else {
            return WorldStep::Went;
        };
        match side {
            Side::Equipment => self.step_equipment(alloc, 0, NodeInput::Char(byte), lines),
            Side::Host => self.step_host(alloc, NodeInput::Char(byte), lines),
        }
    }

    // The clock goes on, and each end looks at it.
    fn step_both(&mut self, alloc: Global, milliseconds: u32, lines: &mut Row<u8>) -> WorldStep
        requires { milliseconds ≤ 1000000 }
        ensures { Makes
            (kept E.means E.anew E.machine)
            (kept H.means H.anew H.machine)
            (both_stepped E.machine H.machine (later milliseconds (seen E.means H.means self.old)))
            self.new
            lines.old lines.new result }
    {
        match self.step_equipment(alloc, milliseconds, NodeInput::Time, lines) {
            WorldStep::Went => self.step_host(alloc, NodeInput::Time, lines),
            stop => stop,
        }
    }

    // The clock goes on, and the equipment makes a step, where one is left.
    pub(crate) fn step_equipment(
        &mut self,
        alloc: Global,
        milliseconds: u32,
        input: NodeInput<'_, ToolCommand>,
        lines: &mut Row<u8>,
    ) -> WorldStep
        requires milliseconds { milliseconds ≤ 1000000 }
        requires input { MayTake E.takes (input_of input) }
        ensures { Makes
            (kept E.means E.anew E.machine)
            (kept H.means H.anew H.machine)
            (equipment_stepped E.machine H.machine (input_of input.entry)
            (later milliseconds (seen E.means H.means self.old)))
            self.new
            lines.old lines.new result }
    {
        if self.steps == MOST_STEPS {
            return WorldStep::Turns;
        }
        self.steps += 1;
        self.moment += u64::from(milliseconds);
        step_end(
            alloc,
            self.moment,
            Side::Equipment,
            input,
            &mut self.equipment,
            &mut self.ways,
            lines,
        )
    }

    // The host makes a step, where one is left.
    pub(crate) fn step_host(
        &mut self,
        alloc: Global,
        input: NodeInput<'_, HostCommand>,
        lines: &mut Row<u8>,
    ) -> WorldStep
        requires { MayTake H.takes (input_of input) }
        ensures { Makes
            (kept E.means E.anew E.machine)
            (kept H.means H.anew H.machine)
            (host_stepped E.machine H.machine (input_of input.entry) (seen E.means H.means self.old))
            self.new
            lines.old lines.new result }
    {
        if self.steps == MOST_STEPS {
            return WorldStep::Turns;
        }
        self.steps += 1;
        step_end(
            alloc,
            self.moment,
            Side::Host,
            input,
            &mut self.host,
            &mut self.ways,
            lines,
        )
    }

    // So many of the next characters are lost, or all.
    fn lose(&mut self, side: Side, n: u32)
        ensures { self.new ≡ lost_from n side self.old }
    {
        lose_from(&mut self.ways, side, n);
    }

    fn change(&mut self, side: Side, place: u32, byte: u8)
        ensures { self.new ≡ changed_at side place byte self.old }
    {
        self.ways.change(side, place, byte);
    }

    fn add(&mut self, side: Side, byte: u8) -> Result<(), NoMemory>
        ensures { OnOk result (self.new ≡ added_to side byte self.old) }
    {
        self.ways.add(side, byte)
    }
}

// So many of the next characters on their way to an end are lost, or all.
fn lose_from(ways: &mut Ways, side: Side, n: u32)
    ensures ways { ways.new ≡ with_direction side (lost n (direction_to side ways.old)) ways.old }
    ensures count { ways.new.written ≡ ways.old.written }
{
    let mut left = n;
    'characters: while left > 0 && ways.is_under_way(side) {
        ways.lose(side);
        left -= 1;
    }
}
