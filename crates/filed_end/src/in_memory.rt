//! An end with a file as an end of a world, where it may lose its power.

ghost use Rattle.std.specs.Prelude.{◌≡◌, ◌<◌, ◌^◌, IfSome, None, false, is_some};
ghost use Rattle.disk_base.specs.Cut.{image_of};
ghost use Rattle.disk_base.specs.Images.{IsImage};
ghost use Rattle.disk_base.specs.MemDisk.{after_cut};
ghost use Rattle.disk_base.specs.declared.cut.CutChoice.{CutChoice};
ghost use Rattle.message_end.specs.Ends.{EndsBy, IsEmpty, Leaves, MayTake, input_of};
ghost use Rattle.filed_end.specs.Form.{HasPower, disk_reach};
ghost use Rattle.filed_end.specs.InMemory.{FitsLeft, IsLost, IsStartable, IsStopOf, IsWhole, StartsAnew, StopsBy};
ghost use Rattle.filed_end.specs.InMemory.{anew_over, disk_of, lost_by, reach_in, starts_over, state_in};

use crate::ended::Ended;
use crate::filed_end::FiledEnd;
use disk_base::{CutChoice, Disk, DiskAnswer, MemDisk};
use line_end::Phase;
use message_end::{End, Stop};
use message_flow::{NodeInput, StepOut};
use spool_slots::Spool;
use std::alloc::Global;

/// An end with its file on a disk in memory, as long as it has power, and what a start anew begins with. One that has
/// stopped makes no step any more; where a planned call has stopped its disk it may start anew.
#[derive(Drop)]
pub struct InMemory<N: FiledEnd> {
    plan: N::Plan,
    going: Option<N>,
    // the disk that a planned call has stopped
    lost: Option<MemDisk>,
    // the call that is planned while it has no power, of which nothing comes
    unmet: u32,
}

impl<N: FiledEnd> End for InMemory<N> {
    type Plan = N::Plan;

    type Command = N::Command;

    type Store = Spool<MemDisk>;

    ghost use Rattle.std.specs.Prelude.{is_some};
    ghost use Rattle.filed_end.specs.InMemory.{Holds, IsWhole, anew_over, reach_in, starts_over, state_in};
    ghost use Rattle.filed_end.specs.LeftAnew.{settled_over};

    ghost State = { N.State };

    ghost means = { λ end. state_in N.form end.plan end.going };

    ghost sound = { λ end. (N.fits end.plan) × IsWhole N.form N.can_step N.may_hold end.plan end.going end.lost };

    ghost fits = { N.fits };

    ghost takes = { N.takes };

    ghost holds = { Holds N.may_hold };

    ghost loses = { Unit {0} };

    ghost reach = { λ end. reach_in N.form end.going end.unmet };

    ghost stopped = { λ end. is_some end.lost };

    ghost anew = { λ end choice now. anew_over N.form end.plan end.going end.lost choice now };

    ghost settled = { λ end sound going choice now. settled_over N.form end.plan end.going end.lost going choice now };

    ghost plan_of = { N.plan_of };

    ghost start = { λ plan store. starts_over N.form plan store.disk };

    ghost machine = { N.form.machine };

    ghost did = { N.did };

    ghost due = { N.due };

    ghost lawful = { λ plan store fits holds. N.lawful plan _ fits holds.may };

    fn start(
        alloc: Global,
        plan: &N::Plan,
        store: Spool<MemDisk>,
        out: &mut StepOut,
    ) -> Result<InMemory<N>, Stop> {
        let Ok(kept) = N::copy_plan(alloc, plan) else {
            return Err(Stop::NoMemory);
        };
        match N::start_over(alloc, plan, store, out) {
            Ok(end) => Ok(InMemory {
                plan: kept,
                going: Some(end),
                lost: None,
                unmet: 0,
            }),
            Err(why) => Err(why),
        }
    }

    fn arm(&mut self, call: u32) {
        self.lost = None;
        match &mut self.going {
            Some(end) => end.arm(call),
            None => self.unmet = call,
        }
    }

    fn restart(
        &mut self,
        alloc: Global,
        choice: CutChoice,
        now: u64,
        out: &mut StepOut,
    ) -> Result<(), Stop> {
        let lost = self.lost.take();
        let going = self.going.take();
        match disk_in(lost, going) {
            Some(disk) => self.start_from(alloc, &disk, choice, now, out),
            None => Err(Stop::NoMemory),
        }
    }

    fn step(
        &mut self,
        alloc: Global,
        input: NodeInput<'_, N::Command>,
        now: u64,
        out: &mut StepOut,
    ) -> Result<(), Stop>
        requires now { now < 2 ^ 62 }
        requires sound { (N.fits self.old.plan)
            × IsWhole N.form N.can_step N.may_hold self.old.plan self.old.going self.old.lost }
        requires input { MayTake N.takes (input_of input) }
        requires out { IsEmpty out.old }
        ensures step { Leaves
            (N.form.machine.stops (state_in N.form self.old.plan self.old.going) (input_of input.entry) now)
            (N.form.machine.lacks_room (state_in N.form self.old.plan self.old.going) (input_of input.entry) now)
            (N.form.machine.act (state_in N.form self.old.plan self.old.going) (input_of input.entry) now)
            (state_in N.form self.new.plan self.new.going)
            out.new
            result }
        ensures ends { EndsBy
            N.form.machine
            (N.form.machine.losses (state_in N.form self.old.plan self.old.going) (input_of input.entry) now)
            (reach_in N.form self.old.going self.old.unmet)
            (reach_in N.form self.new.going self.new.unmet)
            (is_some self.new.lost)
            (λ choice now. anew_over N.form self.new.plan self.new.going self.new.lost choice now)
            out.new
            result }
        ensures sound { (N.fits self.new.plan)
            × IsWhole N.form N.can_step N.may_hold self.new.plan self.new.going self.new.lost }
    {
        match self.going.take() {
            Some(end) => self.step_with(alloc, end, input, now, out),
            None => Err(Stop::NoMemory),
        }
    }

    fn has_stopped(&self) -> bool {
        self.lost.is_some()
    }

    fn deadline(&self) -> Option<u64> {
        match &self.going {
            Some(end) => end.deadline(),
            None => None,
        }
    }

    fn phase(&self) -> Phase {
        match &self.going {
            Some(end) => end.phase(),
            None => Phase::Idle,
        }
    }

    fn is_late(&self, now: u64) -> bool {
        match &self.going {
            Some(end) => end.is_late(now),
            None => false,
        }
    }
}

impl<N: FiledEnd> InMemory<N> {
    // One step, of the end that it had in hand.
    fn step_with(
        &mut self,
        alloc: Global,
        end: N,
        input: NodeInput<'_, N::Command>,
        now: u64,
        out: &mut StepOut,
    ) -> Result<(), Stop>
        requires now { now < 2 ^ 62 }
        requires power { HasPower N.form N.can_step self.old.plan end }
        requires gone { self.old.going ≡ None }
        requires none { self.old.lost ≡ None }
        requires input { MayTake N.takes (input_of input) }
        requires out { IsEmpty out.old }
        ensures step { Leaves
            (N.form.machine.stops (N.form.view end) (input_of input.entry) now)
            (N.form.machine.lacks_room (N.form.view end) (input_of input.entry) now)
            (N.form.machine.act (N.form.view end) (input_of input.entry) now)
            (state_in N.form self.new.plan self.new.going)
            out.new
            result }
        ensures ends { EndsBy
            N.form.machine
            (N.form.machine.losses (N.form.view end) (input_of input.entry) now)
            (disk_reach (N.form.disk end))
            (reach_in N.form self.new.going self.new.unmet)
            (is_some self.new.lost)
            (λ choice now. anew_over N.form self.new.plan self.new.going self.new.lost choice now)
            out.new
            result }
        ensures plan { self.new.plan ≡ self.old.plan }
        ensures sound { IsWhole N.form N.can_step N.may_hold self.new.plan self.new.going self.new.lost }
    {
        match end.step(alloc, input, now, out) {
            Ok(end) => {
                self.going = Some(end);
                Ok(())
            }
            Err(ended) => {
                let (lost, stop) = left_by(ended);
                self.lost = lost;
                Err(stop)
            }
        }
    }

    // A start anew with what a disk is left with.
    fn start_from(
        &mut self,
        alloc: Global,
        disk: &MemDisk,
        choice: CutChoice,
        now: u64,
        out: &mut StepOut,
    ) -> Result<(), Stop>
        requires plan { N.fits self.old.plan }
        requires gone { self.old.going ≡ None }
        requires none { self.old.lost ≡ None }
        requires disk { IsLost N.may_hold disk.now }
        requires out { IsEmpty out.old }
        ensures anew { StartsAnew
            N.form
            N.can_step
            N.may_hold
            self.new.plan
            (starts_over N.form self.old.plan (after_cut choice disk.now))
            self.new.going
            self.new.unmet
            out.new
            result }
        ensures plan { self.new.plan ≡ self.old.plan }
        ensures lost { self.new.lost ≡ None }
    {
        match disk.cut(alloc, choice) {
            Ok(disk) => self.take_up(alloc, disk, now, out),
            Err(_none) => Err(Stop::NoMemory),
        }
    }

    // A start over what a disk tells.
    fn take_up(
        &mut self,
        alloc: Global,
        disk: MemDisk,
        now: u64,
        out: &mut StepOut,
    ) -> Result<(), Stop>
        requires plan { N.fits self.old.plan }
        requires gone { self.old.going ≡ None }
        requires disk { IsStartable N.may_hold disk }
        requires out { IsEmpty out.old }
        ensures anew { StartsAnew
            N.form
            N.can_step
            N.may_hold
            self.new.plan
            (starts_over N.form self.old.plan disk)
            self.new.going
            self.new.unmet
            out.new
            result }
        ensures plan { self.new.plan ≡ self.old.plan }
        ensures lost { self.new.lost ≡ self.old.lost }
    {
        match N::start_anew(alloc, &self.plan, disk, now, out) {
            Ok(end) => {
                self.going = Some(end);
                Ok(())
            }
            Err(why) => Err(why),
        }
    }
}

// The disk that there is.
fn disk_in<N: FiledEnd>(lost: Option<MemDisk>, going: Option<N>) -> Option<MemDisk>
    ensures { result ≡ disk_of N.form lost going }
{
    match lost {
        Some(disk) => Some(disk),
        None => match going {
            Some(end) => Some(end.into_disk()),
            None => None,
        },
    }
}

// Its disk, where a planned call has stopped it, and why it stops. A crash leaves one of the images, whatever is
// chosen.
fn left_by(ended: Ended<MemDisk>) -> (Option<MemDisk>, Stop)
    ensures lost { result.0 ≡ lost_by ended }
    ensures stop { IsStopOf ended result.1 }
    ensures fitted { FitsLeft ended }
    ensures images { IfSome result.0 (λ lost. (choice : CutChoice) →
        IsImage lost.story.now (image_of choice lost.story)) }
{
    match ended {
        Ended::NoMemory => (None, Stop::NoMemory),
        Ended::NumbersSpent(disk) => {
            // (asked for nothing but what its list says)
            let _ = disk.stopped();
            (None, Stop::NumbersSpent)
        }
        Ended::Full(disk) => {
            // (asked for nothing but what its list says)
            let _ = disk.stopped();
            (None, Stop::Full)
        }
        Ended::DiskFailed(disk) => {
            if disk.stopped() {
                (Some(disk), Stop::DiskFailed)
            } else {
                (None, stop_at(&disk))
            }
        }
    }
}

// Why it stops where no planned call has stopped its disk: that has no room for a call. It is want of memory where the
// list of its calls has none for the call that is planned. (And where a call fails alone, which none does.)
fn stop_at(disk: &MemDisk) -> Stop
    ensures { StopsBy disk.now result }
{
    let left = disk.stops_in();
    if left == 1 {
        return Stop::NoMemory;
    }
    match disk.last_answer() {
        DiskAnswer::Failed => Stop::NoMemory,
        DiskAnswer::Done => Stop::DiskFailed,
    }
}
