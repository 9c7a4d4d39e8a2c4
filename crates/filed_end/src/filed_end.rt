//! What an end has to offer that keeps what it mustn't lose in one file on a disk: its calls over a disk in memory, as
//! a world has it.

ghost use Rattle.std.specs.Prelude.{◌≡◌, ◌<◌, ◌^◌, ℕ, List, Option, None, IfOk};
ghost use Rattle.line_end.specs.Step.{is_due};
ghost use Rattle.message_end.specs.Core.{Went};
ghost use Rattle.message_end.specs.Doings.{Doing};
ghost use Rattle.message_end.specs.Ends.{IsEmpty, IsNotStopped, KeepsLaw, MayTake, Starts, input_of, reach_behind};
ghost use Rattle.message_end.specs.Plan.{EndPlan};
ghost use Rattle.spool_file.specs.File.{SpoolFile};
ghost use Rattle.filed_end.specs.Breaking.{Breaks, Moves};
ghost use Rattle.filed_end.specs.Form.{Form, HasPower, IsAtRest, Stands, disk_reach, with_stop};
ghost use Rattle.filed_end.specs.InMemory.{Holds, IsStartable, file_on, starts_over};

use crate::ended::Ended;
use disk_base::{Disk, MemDisk};
use gl_base::NoMemory;
use line_end::Phase;
use message_end::Stop;
use message_flow::{NodeInput, StepOut};
use spool_slots::Spool;
use std::alloc::Global;

/// An end of the line with one file on a disk in memory. A loss of power takes all but its plan and what stands on the
/// disk, and a start over that goes on with it.
pub trait FiledEnd: Drop {
    type Plan: Drop;
    /// What its own side tells it.
    type Command;

    // What a value stands for; which values make steps; and over which files it may start.
    ghost State: { Type 0 };

    ghost form: { Form Self Self.Plan State Self.Command };

    ghost can_step: { Self → Type 0 };

    ghost may_hold: { SpoolFile → Type 0 };

    ghost fits: { Self.Plan → Type 0 };

    ghost takes: { Self.Command → Type 0 };

    ghost plan_of: { Self.Plan → EndPlan };

    // These doings since a start, which may draw numbers from a base on, have made the state.
    ghost did: { Self.Plan → ℕ → List Doing → State → Type 0 };

    // When a state acts next by itself.
    ghost due: { State → Option ℕ };

    /// The plan once more, to be kept for a start anew.
    fn copy_plan(alloc: Global, plan: &Self::Plan) -> Result<Self::Plan, NoMemory>
        ensures { IfOk result (λ copy. copy ≡ plan.now) };

    /// The first start, over a file that was just made.
    fn start_over(
        alloc: Global,
        plan: &Self::Plan,
        spool: Spool<MemDisk>,
        out: &mut StepOut,
    ) -> Result<Self, Stop>
        requires plan { fits plan.now }
        requires spool { Holds may_hold spool }
        requires out { IsEmpty out.old }
        ensures start { Starts
            form.machine.start_stops
            (starts_over form plan.now spool.disk)
            form.view
            out.new
            result }
        ensures whole { IsNotStopped result }
        ensures power { IfOk result (λ end. HasPower form can_step plan.now end) }
        ensures reach { IfOk result (λ end.
            disk_reach (form.disk end) ≡ reach_behind (form.machine.first_use (form.view end))) };

    /// A start anew, over what a disk was left with.
    fn start_anew(
        alloc: Global,
        plan: &Self::Plan,
        disk: MemDisk,
        now: u64,
        out: &mut StepOut,
    ) -> Result<Self, Stop>
        requires plan { fits plan.now }
        requires disk { IsStartable may_hold disk }
        requires out { IsEmpty out.old }
        ensures start { Starts
            form.machine.start_stops
            (starts_over form plan.now disk)
            form.view
            out.new
            result }
        ensures whole { IsNotStopped result }
        ensures power { IfOk result (λ end. HasPower form can_step plan.now end) }
        ensures reach { IfOk result (λ end.
            disk_reach (form.disk end) ≡ reach_behind (form.machine.anew_use (form.view end))) };

    /// One step. On an ending no character is written.
    fn step(
        self,
        alloc: Global,
        input: NodeInput<'_, Self::Command>,
        now: u64,
        out: &mut StepOut,
    ) -> Result<Self, Ended<MemDisk>>
        requires now { now < 2 ^ 62 }
        requires can { can_step self }
        requires input { MayTake takes (input_of input) }
        requires out { IsEmpty out.old }
        ensures moves { Moves form can_step self (input_of input.entry) now out.new result }
        ensures breaks { Breaks
            form
            ⟦<MemDisk as Disk>⟧
            may_hold
            self
            (form.machine.losses (form.view self) (input_of input.entry) now)
            out.new.notes
            result };

    /// Plans that its disk stops at a call, the next one for 1, and at none for 0.
    fn arm(&mut self, call: u32)
        ensures disk { form.disk self.new ≡ with_stop call (form.disk self.old) }
        ensures means { form.view self.new ≡ form.view self.old }
        ensures can { can_step self.old → can_step self.new };

    /// Gives its disk back as it is.
    fn into_disk(self) -> MemDisk
        ensures { result ≡ form.disk self };

    /// When it acts next by itself.
    fn deadline(&self) -> Option<u64>
        ensures { result ≡ due (form.view self.now) };

    /// The phase of its line.
    fn phase(&self) -> Phase
        ensures { result ≡ (form.machine.line (form.view self.now)).phase };

    /// Whether its line's timer is due.
    fn is_late(&self, now: u64) -> bool
        ensures { result ≡ is_due (form.machine.line (form.view self.now)).deadline now };

    // A start anew is one by the plan over what its file stands for.
    ghost restarts: { (s : State) → (now : ℕ)
        → form.machine.restart s now ≡ form.starts (form.plan s) (form.file s) };

    // The disk of one that makes steps stands for its file.
    ghost stands: { (end : Self) → can_step end → Stands form may_hold end };

    // Of one without power nothing is due.
    ghost rests: { (plan : Self.Plan) → IsAtRest form due (form.idle plan) };

    ghost lawful: { (plan : Self.Plan) → (file : SpoolFile) → fits plan → may_hold file
        → KeepsLaw (plan_of plan) (did plan) takes (form.starts plan file) form.machine };
}
