//! The equipment as an end of a world, where it may lose its power.

ghost use Rattle.std.specs.Option.{option_map};
ghost use Rattle.std.specs.Prelude.{◌≡◌, ◌<◌, ◌^◌, IfSome, None, false, is_some};
ghost use Rattle.disk_base.specs.Cut.{image_of};
ghost use Rattle.disk_base.specs.Images.{IsImage};
ghost use Rattle.disk_base.specs.MemDisk.{after_cut};
ghost use Rattle.disk_base.specs.declared.cut.CutChoice.{CutChoice};
ghost use Rattle.trace_log.specs.Commands.{ToolCommandFits};
ghost use Rattle.message_end.specs.Ends.{EndsBy, IsEmpty, Leaves, MayTake, input_of};
ghost use Rattle.tool_step.specs.Disk.{stops};
ghost use Rattle.tool_step.specs.End.{machine as equipment_machine};
ghost use Rattle.tool_step.specs.Equipment.{act};
ghost use Rattle.tool_step.specs.Losses.{losses};
ghost use Rattle.equipment_node.specs.Held.{of_disk, view_in};
ghost use Rattle.equipment_node.specs.InMemory.{FitsLeft, HasPower, IsStartable, IsLost, IsStopOf, IsWhole, StartsAnew};
ghost use Rattle.equipment_node.specs.InMemory.{StopsBy, anew_over, disk_of, disk_reach, lost_by, reach_in};
ghost use Rattle.equipment_node.specs.InMemory.{starts_over};
ghost use Rattle.equipment_node.specs.InMemory.{state_in, stop_at_start};

use crate::ended::Ended;
use crate::equipment::{Equipment, Starting, start_over};
use disk_base::{CutChoice, Disk, DiskAnswer, MemDisk};
use equipment_tables::EquipmentPlan;
use gem_recipes::{NoRecipes, RecipeKeeper};
use line_end::Phase;
use message_end::{End, Stop};
use message_flow::{NodeInput, StepOut};
use spool_slots::{Raw, Spool};
use std::alloc::Global;
use tool_core::Planned;
use trace_log::ToolCommand;

/// For how many calls there is room in the list of a disk in memory since its file was made, or power was lost.
pub const LISTED_CALLS: u32 = 65_536;

/// And for how many bytes that they write.
pub const LISTED_BYTES: u64 = 64 << 20;

/// How many calls and bytes more find room where the disk is to stop, so that power can be lost at the first call for
/// which there is no room.
pub const LISTED_SPARE: (u32, u32) = (1, 16 << 10);

/// The equipment over a disk in memory, which offers no recipes, as long as it has power, and what a start anew begins
/// with. One that has stopped makes no step any more; where a planned call has stopped its disk it may start anew.
#[derive(Drop)]
pub struct EquipmentEnd {
    plan: Planned,
    going: Option<Equipment<MemDisk, NoRecipes>>,
    // the disk that a planned call has stopped
    lost: Option<MemDisk>,
    // the call that is planned while it has no power, of which nothing comes
    unmet: u32,
}

impl End for EquipmentEnd {
    type Plan = EquipmentPlan;

    type Command = ToolCommand;

    type Store = Spool<MemDisk>;

    ghost use Rattle.tool_step.specs.End.{machine};
    ghost use Rattle.tool_step.specs.Equipment.{EquipmentView, starts};
    ghost use Rattle.equipment_node.specs.LeftAnew.{settled_over};
    ghost use Rattle.equipment_node.specs.InMemory.{Holds, IsWhole, anew_over, reach_in, state_in};
    ghost use Rattle.tool_law.specs.Laws.{DidOf};
    ghost use Rattle.tool_law.proofs.LawfulLosses.{equipment_lawful};
    ghost use Rattle.std.specs.Prelude.{is_some};
    ghost use Rattle.tool_step.specs.Step.{deadline_of, end_plan};
    ghost use Rattle.equipment_tables.specs.Plan.{EquipmentPlanFits};
    ghost use Rattle.gem_spool.specs.Standing.{standing_of};
    ghost use Rattle.trace_log.specs.Commands.{ToolCommandFits};

    ghost State = { EquipmentView };

    ghost means = { λ end. state_in ⟦<MemDisk as Disk>⟧ end.plan end.going };

    ghost sound = { λ end. IsWhole ⟦<MemDisk as Disk>⟧ end.plan end.going end.lost };

    ghost fits = { EquipmentPlanFits };

    ghost takes = { ToolCommandFits };

    ghost holds = { Holds };

    ghost loses = { Unit {0} };

    ghost reach = { λ end. reach_in end.going end.unmet };

    ghost stopped = { λ end. is_some end.lost };

    ghost anew = { λ end choice now. anew_over ⟦<MemDisk as Disk>⟧ end.plan end.going end.lost choice now };

    ghost settled = { λ end sound going choice now. settled_over ⟦<MemDisk as Disk>⟧ end.plan end.going end.lost going
        choice now };

    ghost plan_of = { end_plan };

    ghost start = { λ plan store. starts plan (standing_of ⟦<MemDisk as Disk>⟧ store).file };

    ghost machine = { machine };

    ghost did = { DidOf };

    ghost due = { λ s. deadline_of s.node };

    ghost lawful = { λ plan store fits holds. equipment_lawful plan (standing_of ⟦<MemDisk as Disk>⟧ store).file
        fits holds.can };

    fn start(
        alloc: Global,
        plan: &EquipmentPlan,
        store: Spool<MemDisk>,
        out: &mut StepOut,
    ) -> Result<EquipmentEnd, Stop> {
        let Ok(kept) = plan.copy(alloc) else {
            return Err(Stop::NoMemory);
        };
        match start_over(alloc, plan, store, out) {
            Ok(equipment) => {
                // (asked for nothing but what the list of its disk says)
                let _ = equipment.stops_in();
                Ok(EquipmentEnd {
                    plan: Planned::of(kept),
                    going: Some(equipment),
                    lost: None,
                    unmet: 0,
                })
            }
            Err(why) => Err(stop_at_start(&why)),
        }
    }

    fn arm(&mut self, call: u32) {
        self.lost = None;
        match &mut self.going {
            Some(equipment) => equipment.arm(call),
            None => self.unmet = call,
        }
    }

    fn restart(
        &mut self,
        alloc: Global,
        choice: CutChoice,
        now: u64,
        out: &mut StepOut,
    ) -> Result<(), Stop> {
        let lost = self.lost.take();
        let going = self.going.take();
        match disk_in(lost, going) {
            Some(disk) => self.start_from(alloc, &disk, choice, now, out),
            None => Err(Stop::NoMemory),
        }
    }

    fn step(
        &mut self,
        alloc: Global,
        input: NodeInput<'_, ToolCommand>,
        now: u64,
        out: &mut StepOut,
    ) -> Result<(), Stop>
        requires now { now < 2 ^ 62 }
        requires sound { IsWhole ⟦<MemDisk as Disk>⟧ self.old.plan self.old.going self.old.lost }
        requires input { MayTake ToolCommandFits (input_of input) }
        requires out { IsEmpty out.old }
        ensures step { Leaves
            (stops (state_in ⟦<MemDisk as Disk>⟧ self.old.plan self.old.going) (input_of input.entry) now)
            false
            (act (state_in ⟦<MemDisk as Disk>⟧ self.old.plan self.old.going) (input_of input.entry) now)
            (state_in ⟦<MemDisk as Disk>⟧ self.new.plan self.new.going)
            out.new
            result }
        ensures ends { EndsBy
            equipment_machine
            (losses (state_in ⟦<MemDisk as Disk>⟧ self.old.plan self.old.going) (input_of input.entry) now)
            (reach_in self.old.going self.old.unmet)
            (reach_in self.new.going self.new.unmet)
            (is_some self.new.lost)
            (λ choice now. anew_over ⟦<MemDisk as Disk>⟧ self.new.plan self.new.going self.new.lost choice now)
            out.new
            result }
        ensures sound { IsWhole ⟦<MemDisk as Disk>⟧ self.new.plan self.new.going self.new.lost }
    {
        match self.going.take() {
            Some(equipment) => self.step_with(alloc, equipment, input, now, out),
            None => Err(Stop::NoMemory),
        }
    }

    fn has_stopped(&self) -> bool {
        self.lost.is_some()
    }

    fn deadline(&self) -> Option<u64> {
        match &self.going {
            Some(equipment) => equipment.deadline(),
            None => None,
        }
    }

    fn phase(&self) -> Phase {
        match &self.going {
            Some(equipment) => equipment.phase(),
            None => Phase::Idle,
        }
    }

    fn is_late(&self, now: u64) -> bool {
        match &self.going {
            Some(equipment) => equipment.is_late(now),
            None => false,
        }
    }
}

impl EquipmentEnd {
    /// The equipment, as long as it has power.
    pub fn equipment(&self) -> Option<&Equipment<MemDisk, NoRecipes>>
        ensures { option_map (λ equipment. equipment.now) result ≡ self.now.going }
    {
        self.going.as_ref()
    }

    // One step, of the equipment that it had in hand.
    fn step_with(
        &mut self,
        alloc: Global,
        equipment: Equipment<MemDisk, NoRecipes>,
        input: NodeInput<'_, ToolCommand>,
        now: u64,
        out: &mut StepOut,
    ) -> Result<(), Stop>
        requires now { now < 2 ^ 62 }
        requires power { HasPower ⟦<MemDisk as Disk>⟧ self.old.plan equipment }
        requires gone { self.old.going ≡ None }
        requires none { self.old.lost ≡ None }
        requires input { MayTake ToolCommandFits (input_of input) }
        requires out { IsEmpty out.old }
        ensures step { Leaves
            (stops (view_in ⟦<MemDisk as Disk>⟧ ⟦<NoRecipes as RecipeKeeper>⟧ equipment) (input_of input.entry) now)
            false
            (act (view_in ⟦<MemDisk as Disk>⟧ ⟦<NoRecipes as RecipeKeeper>⟧ equipment) (input_of input.entry) now)
            (state_in ⟦<MemDisk as Disk>⟧ self.new.plan self.new.going)
            out.new
            result }
        ensures ends { EndsBy
            equipment_machine
            (losses (view_in ⟦<MemDisk as Disk>⟧ ⟦<NoRecipes as RecipeKeeper>⟧ equipment) (input_of input.entry) now)
            (disk_reach equipment.spool.spool.disk)
            (reach_in self.new.going self.new.unmet)
            (is_some self.new.lost)
            (λ choice now. anew_over ⟦<MemDisk as Disk>⟧ self.new.plan self.new.going self.new.lost choice now)
            out.new
            result }
        ensures sound { IsWhole ⟦<MemDisk as Disk>⟧ self.new.plan self.new.going self.new.lost }
    {
        match equipment.step(alloc, input, now, out) {
            Ok(equipment) => {
                // (asked for nothing but what the list of its disk says)
                let _ = equipment.stops_in();
                self.going = Some(equipment);
                Ok(())
            }
            Err(ended) => {
                let (lost, stop) = left_by(ended);
                self.lost = lost;
                Err(stop)
            }
        }
    }

    // A start anew with what a disk is left with.
    fn start_from(
        &mut self,
        alloc: Global,
        disk: &MemDisk,
        choice: CutChoice,
        now: u64,
        out: &mut StepOut,
    ) -> Result<(), Stop>
        requires gone { self.old.going ≡ None }
        requires none { self.old.lost ≡ None }
        requires out { IsEmpty out.old }
        ensures anew { IsLost disk.now → StartsAnew
            ⟦<MemDisk as Disk>⟧
            self.new.plan
            (starts_over self.old.plan (after_cut choice disk.now))
            self.new.going
            self.new.unmet
            out.new
            result }
        ensures lost { self.new.lost ≡ None }
    {
        match disk.cut(alloc, choice) {
            Ok(disk) => self.take_up(alloc, disk, now, out),
            Err(_none) => Err(Stop::NoMemory),
        }
    }

    // A start with what the disk tells, which holds a spool file. (An empty spool begins with number 0 again.)
    fn take_up(
        &mut self,
        alloc: Global,
        disk: MemDisk,
        now: u64,
        out: &mut StepOut,
    ) -> Result<(), Stop>
        requires gone { self.old.going ≡ None }
        requires out { IsEmpty out.old }
        ensures anew { IsStartable disk → StartsAnew
            ⟦<MemDisk as Disk>⟧
            self.new.plan
            (starts_over self.old.plan disk)
            self.new.going
            self.new.unmet
            out.new
            result }
        ensures lost { self.new.lost ≡ self.old.lost }
    {
        match Equipment::start(alloc, self.plan.get(), Raw::new(disk), NoRecipes, now, out) {
            Ok(equipment) => {
                // (asked for nothing but what the list of its disk says)
                let _ = equipment.stops_in();
                self.going = Some(equipment);
                Ok(())
            }
            Err(why) => Err(stop_at_start(&why)),
        }
    }
}

// The disk that there is.
fn disk_in(lost: Option<MemDisk>, going: Option<Equipment<MemDisk, NoRecipes>>) -> Option<MemDisk>
    ensures { result ≡ disk_of lost going }
{
    match lost {
        Some(disk) => Some(disk),
        None => match going {
            Some(equipment) => {
                let (spent, _) = equipment.power_off();
                Some(spent.into_disk())
            }
            None => None,
        },
    }
}

// Its disk, where a planned call has stopped it, and why it stops. A crash leaves one of the images, whatever is
// chosen.
fn left_by(ended: Ended<MemDisk, NoRecipes>) -> (Option<MemDisk>, Stop)
    ensures lost { result.0 ≡ lost_by (of_disk ended) }
    ensures stop { IsStopOf (of_disk ended) result.1 }
    ensures fitted { FitsLeft (of_disk ended) }
    ensures images { IfSome result.0 (λ lost. (choice : CutChoice) →
        IsImage lost.story.now (image_of choice lost.story)) }
{
    match ended {
        Ended::NoMemory(_, _) => (None, Stop::NoMemory),
        Ended::NumbersSpent(spent, _) => {
            // (asked for nothing but what its list says)
            let _ = spent.into_disk().stopped();
            (None, Stop::NumbersSpent)
        }
        Ended::DiskFailed(spent, _) => {
            let disk = spent.into_disk();
            if disk.stopped() {
                (Some(disk), Stop::DiskFailed)
            } else {
                (None, stop_at(&disk))
            }
        }
    }
}

// Why it stops where no planned call has stopped its disk: that has no room for a call. It is want of memory where the
// list of its calls has none for the call that is planned. (And where a call fails alone, which none does.)
fn stop_at(disk: &MemDisk) -> Stop
    ensures { StopsBy disk.now result }
{
    let left = disk.stops_in();
    if left == 1 {
        return Stop::NoMemory;
    }
    match disk.last_answer() {
        DiskAnswer::Failed => Stop::NoMemory,
        DiskAnswer::Done => Stop::DiskFailed,
    }
}

// Why it doesn't start.
fn stop_at_start(why: &Starting<MemDisk, NoRecipes>) -> Stop
    ensures { result ≡ stop_at_start why.now }
{
    match why {
        Starting::NumbersSpent(_, _) => Stop::NumbersSpent,
        // (the list of its disk's calls has no memory for them, or for looking at the file)
        Starting::NoMemory(_, _) | Starting::NotSpool(_, _, _) | Starting::DiskFailed(_, _) =>
            Stop::NoMemory,
    }
}
