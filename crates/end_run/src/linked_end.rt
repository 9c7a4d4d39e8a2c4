//! What an end has to offer to be run over a link: a trait, so that one run is proved for the equipment and for the
//! host.

ghost use Rattle.std.specs.Prelude.{◌≡◌, ◌<◌, ◌^◌, ℕ, Option, option_copied};
ghost use Rattle.line_schedule.specs.declared.script.ScriptStep.{ScriptStep};
ghost use Rattle.message_end.specs.Ends.{Asked, Input, IsEmpty, Leaves, Machine, MayTake, Uses, input_of};
ghost use Rattle.message_end.specs.declared.end.Stop.{Stop};
ghost use Rattle.message_flow.specs.declared.step.StepOut.{StepOut};
ghost use Rattle.end_run.specs.Counts.{Device, StepCounts};
ghost use Rattle.end_run.specs.Scenes.{Stays};
ghost use Rattle.end_run.specs.Commands.{Telling, command_of};

use line_schedule::ScriptStep;
use message_end::Stop;
use message_flow::{NodeInput, StepOut};
use std::alloc::Global;

/// An end that has started and is run over a link by a script: what it makes of a step, when it acts next, and what a
/// line of the script tells it.
///
/// What it means may be told or not: an end over a disk is known as long as its disk tells its bytes. All that a run
/// comes to is said of ends that are known. A step that is made leaves an end known; of one that has stopped its end
/// the end says itself what is left.
pub trait LinkedEnd {
    /// What its own side tells it.
    type Command;

    // What a value stands for, where that is known; what a step needs of the value itself, and keeps; and which
    // commands it may be given.
    ghost State: { Type 0 };

    ghost means: { Self → State };

    ghost known: { Self → Type 0 };

    ghost sound: { Self → Type 0 };

    ghost takes: { Self.Command → Type 0 };

    ghost machine: { Machine State Self.Command };

    // What is left of it behind a step that has stopped it, from a state, with an input, at a moment, with what was
    // noted by then, and for this reason.
    ghost left: { State → Input Self.Command → ℕ → StepOut → Stop → Self → Type 0 };

    // When a state acts next by itself.
    ghost due: { State → Option ℕ };

    // How much its disk has sure room for.
    ghost room: { Self → Asked };

    // What it tells of its disk, whether its bytes are told or not.
    ghost Fixed: { Type 0 };

    ghost device: { Self → Device Fixed };

    // What a line of a script tells it.
    ghost told: { ScriptStep → Telling Self.Command };

    /// One step. `NumbersSpent` comes where it needs a number and has none, `Full` where its own store has no room,
    /// `DiskFailed` where a call of its disk failed, `NoMemory` where memory ran out. On an ending the notes keep what
    /// was noted before it; the end makes no step any more. An end of which nothing is known may answer anything, but
    /// counts the fault that it answers.
    fn step(
        &mut self,
        alloc: Global,
        input: NodeInput<'_, Self::Command>,
        now: u64,
        out: &mut StepOut,
    ) -> Result<(), Stop>
        requires now { now < 2 ^ 62 }
        requires sound { sound self.old }
        requires input { MayTake takes (input_of input) }
        requires out { IsEmpty out.old }
        ensures step { known self.old → Leaves
            (machine.stops (means self.old) (input_of input.entry) now)
            (machine.lacks_room (means self.old) (input_of input.entry) now)
            (machine.act (means self.old) (input_of input.entry) now)
            (means self.new)
            out.new
            result }
        ensures end { known self.old → Stays known left
            (means self.old)
            (input_of input.entry)
            now
            out.new
            self.new
            result }
        ensures room { known self.old → Uses
            (room self.old)
            (machine.asks (means self.old) (input_of input.entry) now)
            (room self.new)
            result }
        ensures device { StepCounts (device self.old) (device self.new) result }
        ensures sound { sound self.new };

    /// When it acts next by itself.
    fn deadline(&self) -> Option<u64>
        ensures { known self.now → result ≡ due (means self.now) };

    /// The command that the line tells; none where it tells none.
    fn told(step: &ScriptStep) -> Option<&Self::Command>
        ensures { option_copied result ≡ command_of (told step.now) };
}
