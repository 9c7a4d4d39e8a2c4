//! The equipment's end of a line over its spool file, run by a script.

ghost use Rattle.std.specs.Prelude.{◌≡◌, ◌<◌, ◌^◌, None, Option, Some, false};
ghost use Rattle.disk_base.specs.Disk.{TellsAsBefore, TellsBytes};
ghost use Rattle.disk_base.specs.SameDisk.{IsSameDisk};
ghost use Rattle.gl_base.specs.declared.side.Side.TheVariants as side;
ghost use Rattle.gl_base.specs.Told.{files_told, sink_told, source_told};
ghost use Rattle.spool_show.specs.Told.{disk_told};
ghost use Rattle.trace_log.specs.Commands.{ToolCommandFits};
ghost use Rattle.trace_log.specs.Log.{Happening};
ghost use Rattle.message_end.specs.Core.{Step};
ghost use Rattle.message_end.specs.Ends.{IsEmpty, Leaves, MayTake, Uses, input_of, none_asked, printed};
ghost use Rattle.equipment_tables.specs.Plan.{EquipmentPlanFits};
ghost use Rattle.tool_step.specs.Equipment.{EquipmentView};
ghost use Rattle.equipment_node.specs.Held.{of_disk};
ghost use Rattle.equipment_node.specs.Stepping.{stop_by};
ghost use Rattle.end_run.specs.Counts.{Counts, StepCounts, counted};
ghost use Rattle.end_run.specs.Scenes.{Stays};
ghost use Rattle.end_run.specs.Script.{AreTold};
ghost use Rattle.end_run.specs.Sides.{told_equipment};
ghost use Rattle.gemline_app.specs.Equipment.{EquipmentComes, FileRuns, RunsFrom, SpoolRuns, linked_machine};
ghost use Rattle.gemline_app.specs.Filed.{bytes_told};
ghost use Rattle.gemline_app.specs.LinkTold.{ConnectsOnce, link_told};
ghost use Rattle.gemline_app.specs.LinkedEquipment.{HoldsOne, IsGoing, IsKnown, IsTool, LeavesDevice, device_by, device_of};
ghost use Rattle.gemline_app.specs.LinkedEquipment.{disk_in, linked_view, outcome_of_start, spent_by, tool_view};
ghost use Rattle.gemline_app.specs.LinkedEquipment.{unstarted_disk};

use crate::host::outcome_of_ending;
use crate::inputs::plans_and_script;
use crate::outcome::Outcome;
use arrayvec::ArrayVec;
use disk_base::{Disk, DiskAnswer};
use end_run::{Ending, LinkedEnd, run_started};
use equipment_node::{Ended, Equipment, EquipmentPlan, Starting, ToolCommand};
use gem_recipes::NoRecipes;
use gl_base::{Files, Link, Row, Side, Sink, Source};
use line_schedule::{Script, ScriptStep};
use message_end::Stop;
use message_flow::{NodeInput, Note, StepOut};
use spool_slots::{Raw, Spent};
use std::alloc::Global;

/// The equipment as it is run over a link: it goes on, or a step has stopped it and its device is left.
#[derive(Drop)]
pub struct LinkedEquipment<D: Disk> {
    going: Option<Equipment<D, NoRecipes>>,
    spent: Option<Spent<D>>,
}

impl<D: Disk + Drop> LinkedEnd for LinkedEquipment<D> {
    type Command = ToolCommand;

    ghost use Rattle.message_end.specs.Ends.{none_asked};
    ghost use Rattle.trace_log.specs.Commands.{ToolCommandFits};
    ghost use Rattle.tool_step.specs.Equipment.{EquipmentView};
    ghost use Rattle.end_run.specs.Sides.{told_equipment};
    ghost use Rattle.gemline_app.specs.Equipment.{equipment_due, linked_machine};
    ghost use Rattle.gemline_app.specs.LinkedEquipment.{Fixed, HoldsOne, IsKnown, LeavesDevice, device_by, disk_in};
    ghost use Rattle.gemline_app.specs.LinkedEquipment.{linked_view};

    ghost State = { EquipmentView };

    ghost means = { λ linked. linked_view D.Disk linked.going };

    ghost known = { IsKnown D.Disk };

    ghost sound = { λ linked. HoldsOne linked.going linked.spent };

    ghost takes = { ToolCommandFits };

    ghost machine = { linked_machine };

    ghost left = { LeavesDevice D.Disk };

    ghost due = { equipment_due };

    ghost room = { λ linked. none_asked };

    ghost Fixed = { Fixed };

    ghost device = { λ linked. device_by D.Disk (disk_in linked.going linked.spent) };

    ghost told = { told_equipment };

    fn step(
        &mut self,
        alloc: Global,
        input: NodeInput<'_, ToolCommand>,
        now: u64,
        out: &mut StepOut,
    ) -> Result<(), Stop>
        requires now { now < 2 ^ 62 }
        requires sound { HoldsOne self.old.going self.old.spent }
        requires input { MayTake ToolCommandFits (input_of input) }
        requires out { IsEmpty out.old }
        ensures step { IsGoing D.Disk self.old.going → Leaves
            (linked_machine.stops (linked_view D.Disk self.old.going) (input_of input.entry) now)
            false
            (linked_machine.act (linked_view D.Disk self.old.going) (input_of input.entry) now)
            (linked_view D.Disk self.new.going)
            out.new
            result }
        ensures end { IsGoing D.Disk self.old.going → Stays
            (IsKnown D.Disk)
            (LeavesDevice D.Disk)
            (linked_view D.Disk self.old.going)
            (input_of input.entry)
            now
            out.new
            self.new
            result }
        ensures room { IsGoing D.Disk self.old.going → Uses
            none_asked
            (linked_machine.asks (linked_view D.Disk self.old.going) (input_of input.entry) now)
            none_asked
            result }
        ensures device { StepCounts
            (device_by D.Disk (disk_in self.old.going self.old.spent))
            (device_by D.Disk (disk_in self.new.going self.new.spent))
            result }
        ensures sound { HoldsOne self.new.going self.new.spent }
    {
        match self.going.take() {
            Some(equipment) => self.step_with(alloc, equipment, input, now, out),
            // (a run makes no step behind one that has stopped it)
            None => Err(Stop::NoMemory),
        }
    }

    fn deadline(&self) -> Option<u64> {
        match &self.going {
            Some(equipment) => equipment.deadline(),
            None => None,
        }
    }

    fn told(step: &ScriptStep) -> Option<&ToolCommand> {
        match step {
            ScriptStep::Tool(command) => Some(command),
            ScriptStep::Host(_) | ScriptStep::Stop => None,
        }
    }
}

impl<D: Disk + Drop> LinkedEquipment<D> {
    /// One that has started, and goes on.
    pub fn new(equipment: Equipment<D, NoRecipes>) -> LinkedEquipment<D>
        ensures { result ≡ record { going = Some equipment; spent = None } }
    {
        LinkedEquipment {
            going: Some(equipment),
            spent: None,
        }
    }

    // One step, with the equipment that it had in hand.
    fn step_with(
        &mut self,
        alloc: Global,
        equipment: Equipment<D, NoRecipes>,
        input: NodeInput<'_, ToolCommand>,
        now: u64,
        out: &mut StepOut,
    ) -> Result<(), Stop>
        requires now { now < 2 ^ 62 }
        requires gone { self.old.going ≡ None }
        requires none_left { self.old.spent ≡ None }
        requires input { MayTake ToolCommandFits (input_of input) }
        requires out { IsEmpty out.old }
        ensures step { IsTool D.Disk equipment → Leaves
            (linked_machine.stops (tool_view D.Disk equipment) (input_of input.entry) now)
            false
            (linked_machine.act (tool_view D.Disk equipment) (input_of input.entry) now)
            (linked_view D.Disk self.new.going)
            out.new
            result }
        ensures end { IsTool D.Disk equipment → Stays
            (IsKnown D.Disk)
            (LeavesDevice D.Disk)
            (tool_view D.Disk equipment)
            (input_of input.entry)
            now
            out.new
            self.new
            result }
        ensures room { IsTool D.Disk equipment → Uses
            none_asked
            (linked_machine.asks (tool_view D.Disk equipment) (input_of input.entry) now)
            none_asked
            result }
        ensures device { StepCounts
            (device_of D.Disk equipment.spool.spool.disk)
            (device_by D.Disk (disk_in self.new.going self.new.spent))
            result }
        ensures sound { HoldsOne self.new.going self.new.spent }
    {
        match equipment.step(alloc, input, now, out) {
            Ok(equipment) => {
                self.going = Some(equipment);
                Ok(())
            }
            Err(ended) => Err(self.stop(ended)),
        }
    }

    // A step has stopped it, and left its device.
    fn stop(&mut self, ended: Ended<D, NoRecipes>) -> Stop
        ensures why { result ≡ stop_by (of_disk ended) }
        ensures spent { self.new.spent ≡ Some (spent_by (of_disk ended)) }
        ensures going { self.new.going ≡ self.old.going }
    {
        match ended {
            Ended::NoMemory(spent, _) => {
                self.spent = Some(spent);
                Stop::NoMemory
            }
            Ended::DiskFailed(spent, _) => {
                self.spent = Some(spent);
                Stop::DiskFailed
            }
            Ended::NumbersSpent(spent, _) => {
                self.spent = Some(spent);
                Stop::NumbersSpent
            }
        }
    }

    /// Gives its disk back.
    pub fn into_disk(self) -> D
        requires { HoldsOne self.going self.spent }
        ensures { disk_in self.going self.spent ≡ Some result }
    {
        let LinkedEquipment { going, spent } = self;
        match going {
            Some(equipment) => equipment.power_off().0.into_disk(),
            None => left_disk(spent),
        }
    }
}

// The device that was left.
fn left_disk<D: Disk>(spent: Option<Spent<D>>) -> D
    requires { HoldsOne None spent }
    ensures { disk_in None spent ≡ Some result }
{
    match spent {
        Some(spent) => spent.into_disk(),
        None => unreachable!(),
    }
}

/// Runs the equipment by a plan and by the script on the input, over a spool file, up to so many polls, with the peer
/// that calls at an address. The spool is recovered before the line is connected.
pub(crate) fn equipment<F: Files, R: Source, D: Disk, L: Link, W: Sink>(
    alloc: Global,
    plan: &str,
    address: &str,
    spool: &str,
    polls: u32,
    files: &mut F,
    input: &mut R,
    disk: &mut D,
    link: &mut L,
    out: &mut W,
) -> Outcome
    ensures came { EquipmentComes plan.now spool.now polls
        (source_told R.Source input.old input.new)
        (files_told F.Files files.old files.new)
        (disk_told D.Disk disk.old disk.new)
        (link_told L.Link link.old link.new)
        (sink_told W.Sink out.old out.new)
        result }
    ensures connects { ConnectsOnce side.Equipment address.now (link_told L.Link link.old link.new) }
    ensures tells { TellsAsBefore (D.told disk.old) (D.told disk.new) }
{
    match plans_and_script(alloc, Side::Equipment, plan, files, input) {
        Ok(inputs) => run_file(
            alloc,
            &inputs.plans.equipment,
            &inputs.script,
            address,
            spool,
            polls,
            disk,
            link,
            out,
        ),
        Err(refusal) => refusal,
    }
}

// Runs the equipment by a script, over the spool file of this name.
fn run_file<D: Disk, L: Link, W: Sink>(
    alloc: Global,
    plan: &EquipmentPlan,
    script: &Script,
    address: &str,
    spool: &str,
    polls: u32,
    disk: &mut D,
    link: &mut L,
    out: &mut W,
) -> Outcome
    requires plan { EquipmentPlanFits plan.now }
    requires script { AreTold told_equipment ToolCommandFits script.now.lines }
    ensures came { FileRuns plan.now spool.now script.now.lines polls
        (disk_told D.Disk disk.old disk.new)
        (link_told L.Link link.old link.new)
        (sink_told W.Sink out.old out.new)
        result }
    ensures connects { ConnectsOnce side.Equipment address.now (link_told L.Link link.old link.new) }
    ensures tells { TellsAsBefore (D.told disk.old) (D.told disk.new) }
{
    match disk.attach(spool, 0) {
        DiskAnswer::Done => run_attached(alloc, plan, script, address, polls, disk, link, out),
        DiskAnswer::Failed => Outcome::DiskFailed,
    }
}

// The same of a disk that has taken its file. It is lent to a run that is generic in its disk, and what that gives back
// is the disk as it is then.
fn run_attached<D: Disk, L: Link, W: Sink>(
    alloc: Global,
    plan: &EquipmentPlan,
    script: &Script,
    address: &str,
    polls: u32,
    disk: &mut D,
    link: &mut L,
    out: &mut W,
) -> Outcome
    requires plan { EquipmentPlanFits plan.now }
    requires script { AreTold told_equipment ToolCommandFits script.now.lines }
    requires bytes { TellsBytes (D.told disk.old) }
    ensures runs { SpoolRuns plan.now script.now.lines polls
        (bytes_told (disk_told D.Disk disk.old disk.new))
        (link_told L.Link link.old link.new)
        (sink_told W.Sink out.old out.new)
        result }
    ensures file { D.file_is disk.new ≡ D.file_is disk.old }
    ensures connects { ConnectsOnce side.Equipment address.now (link_told L.Link link.old link.new) }
    ensures tells { TellsAsBefore (D.told disk.old) (D.told disk.new) }
{
    let (outcome, _disk) = run_over(
        alloc,
        plan,
        script,
        address,
        polls,
        Raw::new(disk),
        link,
        out,
    );
    outcome
}

// Starts the equipment over a device, and runs it by a script. The device is given back.
fn run_over<D: Disk + Drop, L: Link, W: Sink>(
    alloc: Global,
    plan: &EquipmentPlan,
    script: &Script,
    address: &str,
    polls: u32,
    raw: Raw<D>,
    link: &mut L,
    out: &mut W,
) -> (Outcome, D)
    requires plan { EquipmentPlanFits plan.now }
    requires script { AreTold told_equipment ToolCommandFits script.now.lines }
    requires bytes { TellsBytes (D.told raw.disk) }
    ensures runs { SpoolRuns plan.now script.now.lines polls
        (bytes_told (disk_told D.Disk raw.disk result.1))
        (link_told L.Link link.old link.new)
        (sink_told W.Sink out.old out.new)
        result.0 }
    ensures same_disk { IsSameDisk D.Disk raw.disk result.1 }
    ensures connects { ConnectsOnce side.Equipment address.now (link_told L.Link link.old link.new) }
{
    let mut step = StepOut {
        line: ArrayVec::new(),
        notes: Row::new(alloc),
    };
    match Equipment::start(alloc, plan, raw, NoRecipes, 0, &mut step) {
        Ok(equipment) => {
            let (ended, disk) = run_linked(
                alloc,
                equipment,
                step.notes.as_slice(),
                script,
                address,
                polls,
                link,
                out,
            );
            (outcome_of_ending(ended), disk)
        }
        Err(why) => not_started(why),
    }
}

// Runs the equipment, of whose start these are the notes.
fn run_linked<D: Disk + Drop, L: Link, W: Sink>(
    alloc: Global,
    equipment: Equipment<D, NoRecipes>,
    notes: &[Note],
    script: &Script,
    address: &str,
    polls: u32,
    link: &mut L,
    out: &mut W,
) -> (Ending, D)
    requires script { AreTold told_equipment ToolCommandFits script.now.lines }
    ensures runs { IsTool D.Disk equipment → (start : Step EquipmentView Happening)
        → start.next ≡ tool_view D.Disk equipment → printed start.notes ≡ notes.now → RunsFrom
        start
        script.now.lines
        polls
        (D.told result.1)
        (link_told L.Link link.old link.new)
        (sink_told W.Sink out.old out.new)
        result.0 }
    ensures counts { Counts
        (counted L.Link W.Sink link.old out.old (device_of D.Disk equipment.spool.spool.disk))
        (counted L.Link W.Sink link.new out.new (device_of D.Disk result.1))
        (Some result.0) }
    ensures connects { ConnectsOnce side.Equipment address.now (link_told L.Link link.old link.new) }
{
    let mut linked = LinkedEquipment {
        going: Some(equipment),
        spent: None,
    };
    let ended = run_started::<LinkedEquipment<D>, L, W>(
        alloc,
        &mut linked,
        notes,
        script,
        Side::Equipment,
        address,
        polls,
        link,
        out,
    );
    (ended, linked.into_disk())
}

/// What a start that was refused comes to, and its device.
pub fn not_started<D: Disk>(why: Starting<D, NoRecipes>) -> (Outcome, D)
    ensures outcome { result.0 ≡ outcome_of_start why }
    ensures disk { result.1 ≡ unstarted_disk why }
{
    match why {
        Starting::NoMemory(spent, _) => (Outcome::NoMemory, spent.into_disk()),
        Starting::NotSpool(raw, place, _) => (Outcome::NotSpool { at: place.at }, raw.into_disk()),
        Starting::DiskFailed(spent, _) => (Outcome::DiskFailed, spent.into_disk()),
        Starting::NumbersSpent(spent, _) => (Outcome::NumbersSpent, spent.into_disk()),
    }
}
