//! What an end has to offer to be run in a world: a trait, so that what is proved of two ends holds of all that keep
//! its law.

ghost use Rattle.std.specs.Prelude.{◌≡◌, ◌<◌, ◌^◌, ℕ, Bool, false, List, Option, IfOk, OnOk};
ghost use Rattle.disk_base.specs.declared.cut.CutChoice.{CutChoice};
ghost use Rattle.line_end.specs.Step.{is_due};
ghost use Rattle.line_end.specs.State.{LineState};
ghost use Rattle.trace_log.specs.Log.{Happening};
ghost use Rattle.message_end.specs.Core.{Went};
ghost use Rattle.message_end.specs.Doings.{Doing};
ghost use Rattle.message_end.specs.Ends.{EndsBy, IsEmpty, IsNotStopped, KeepsLaw, Leaves, Machine, MayTake, Reach};
ghost use Rattle.message_end.specs.Ends.{Starts, input_of, reach_behind, with_cut};
ghost use Rattle.message_end.specs.Plan.{EndPlan};

use crate::end::Stop;
use disk_base::CutChoice as Choice;
use line_end::Phase;
use message_flow::{NodeInput, StepOut};
use std::alloc::Global;

/// An end of the line with all that stands above it: what it does in a step, what is left of it where its power is
/// lost, and the law that it keeps. Whatever is proved of two ends and the line between them is proved of every end
/// that keeps it.
pub trait End: Drop {
    type Plan;
    /// What its own side tells it.
    type Command;
    /// What it starts with beside its plan: its spool, if it has one.
    type Store: Drop;

    // What a value stands for, and what steps need and keep of the value itself.
    ghost State: { Type 0 };

    ghost means: { Self → State };

    ghost sound: { Self → Type 0 };

    ghost fits: { Self.Plan → Type 0 };

    ghost takes: { Self.Command → Type 0 };

    // What it may start with.
    ghost holds: { Self.Store → Type 0 };

    ghost plan_of: { Self.Plan → EndPlan };

    // What a start leaves, and what steps and later starts make of a state.
    ghost start: { Self.Plan → Self.Store → Went State Happening };

    ghost machine: { Machine State Self.Command };

    // These doings since a start, which may draw numbers from a base on, have made the state.
    ghost did: { Self.Plan → ℕ → List Doing → State → Type 0 };

    // When a state acts next by itself.
    ghost due: { State → Option ℕ };

    // Whether it has a disk that may be stopped. How far that goes; and whether the call was made at which it stops.
    ghost loses: { Type 0 };

    ghost reach: { Self → Reach };

    ghost stopped: { Self → Bool };

    // What a start anew makes of a value, were its power lost now and its disk left as a choice says.
    ghost anew: { Self → CutChoice → ℕ → Went State Happening };

    /// The first start. The plan is copied where it is kept.
    fn start(
        alloc: Global,
        plan: &Self::Plan,
        store: Self::Store,
        out: &mut StepOut,
    ) -> Result<Self, Stop>
        requires plan { fits plan.now }
        requires store { holds store }
        requires out { IsEmpty out.old }
        ensures start { Starts machine.start_stops (start plan.now store) means out.new result }
        ensures whole { IsNotStopped result }
        ensures reach { IfOk result (λ end. reach end ≡ reach_behind (machine.first_use (means end))) }
        ensures going { IfOk result (λ end. stopped end ≡ false) }
        ensures sound { IfOk result (λ end. sound end) };

    /// Plans that its disk stops at a call, the next one for 1, and at none for 0. An end without a disk plans nothing.
    fn arm(&mut self, call: u32)
        requires sound { sound self.old }
        ensures reach { loses → reach self.new ≡ with_cut call (reach self.old) }
        ensures going { stopped self.new ≡ false }
        ensures means { means self.new ≡ means self.old }
        ensures sound { sound self.new };

    /// It has lost its power: its disk is left as the choice says, and it starts anew with what is there.
    fn restart(
        &mut self,
        alloc: Global,
        choice: Choice,
        now: u64,
        out: &mut StepOut,
    ) -> Result<(), Stop>
        requires now { now < 2 ^ 62 }
        requires sound { sound self.old }
        requires out { IsEmpty out.old }
        ensures start { Leaves machine.start_stops false (anew self.old choice now) (means self.new) out.new result }
        ensures whole { IsNotStopped result }
        ensures reach { OnOk result (reach self.new ≡ reach_behind (machine.anew_use (means self.new))) }
        ensures going { OnOk result (stopped self.new ≡ false) }
        ensures sound { sound self.new };

    /// One step. The call at which its disk is to stop ends it, and one for which that has no room.
    fn step(
        &mut self,
        alloc: Global,
        input: NodeInput<'_, Self::Command>,
        now: u64,
        out: &mut StepOut,
    ) -> Result<(), Stop>
        requires now { now < 2 ^ 62 }
        requires sound { sound self.old }
        requires input { MayTake takes (input_of input) }
        requires out { IsEmpty out.old }
        ensures step { Leaves
            (machine.stops (means self.old) (input_of input.entry) now)
            (machine.lacks_room (means self.old) (input_of input.entry) now)
            (machine.act (means self.old) (input_of input.entry) now)
            (means self.new)
            out.new
            result }
        ensures ends { EndsBy
            machine
            (machine.losses (means self.old) (input_of input.entry) now)
            (reach self.old)
            (reach self.new)
            (stopped self.new)
            (anew self.new)
            out.new
            result }
        ensures sound { sound self.new };

    /// Whether its disk has stopped at the call that was planned.
    fn has_stopped(&self) -> bool
        ensures { result ≡ stopped self.now };

    /// When it acts next by itself.
    fn deadline(&self) -> Option<u64>
        ensures { result ≡ due (means self.now) };

    /// The phase of its line.
    fn phase(&self) -> Phase
        ensures { result ≡ (machine.line (means self.now)).phase };

    /// Whether its line's timer is due: T1 since the last character, while a block is coming.
    fn is_late(&self, now: u64) -> bool
        ensures { result ≡ is_due (machine.line (means self.now)).deadline now };

    // Behind whole steps nothing of the disk is lost.
    ghost settled: { (end : Self) → sound end → stopped end ≡ false → (choice : CutChoice) → (now : ℕ)
        → anew end choice now ≡ machine.restart (means end) now };

    ghost lawful: { (plan : Self.Plan) → (store : Self.Store) → fits plan → holds store
        → KeepsLaw (plan_of plan) (did plan) takes (start plan store) machine };
}
