//! A step of the equipment, in its parts.

ghost use Rattle.std.specs.Prelude.{◌≡◌, ◌+◌, ◌<◌, ◌≤◌, ◌^◌, ◌++◌, ◌∷◌, []};
ghost use Rattle.arrayvec.specs.ArrayVec.{array_vec_len};
ghost use Rattle.block_codec.specs.Header.{Fits};
ghost use Rattle.message_flow.specs.declared.flow.Flow.TheVariants as flow;
ghost use Rattle.block_codec.specs.Protocol.{longest_text};
ghost use Rattle.message_flow.specs.Assembly.{WholeFits, WholeIsChecked};
ghost use Rattle.trace_log.specs.Commands.{ToolCommandFits};
ghost use Rattle.trace_log.specs.Text.{printed_note};
ghost use Rattle.message_end.specs.Core.Went.{Goes};
ghost use Rattle.message_end.specs.Ends.{MayTake, input_of};
ghost use Rattle.message_end.specs.Parts.{Takes, after_turn, closes, on_the_way};
ghost use Rattle.tool_core.specs.Node.{node_of, own_of};
ghost use Rattle.tool_step.specs.Sampling.{sample_parts};
ghost use Rattle.tool_step.specs.Spooling.{end_of_spooling};
ghost use Rattle.tool_step.specs.Step.{answering, beginning, character, delay_timer, due_parts, first_parts, flow_turn, input_part, is_spent, late_parts, line_timer, offer};
ghost use Rattle.tool_step.specs.Taking.{taking};
ghost use Rattle.tool_core.specs.Turns.{ReachesPart, ReachesParts, TakesPart};

use crate::own::Tool;
use crate::spoolable::Spoolable;
use block_codec::Header;
use gem_states::CommsIn;
use gl_base::NoMemory;
use message_end::{Stop, Took};
use message_flow::{Flow, NodeInput, StepOut};
use std::alloc::Global;
use trace_log::ToolCommand;

impl Tool {
    /// What comes before the works of the spool: all that is due, and what it is given.
    pub fn do_first(
        &mut self,
        alloc: Global,
        input: NodeInput<'_, ToolCommand>,
        now: u64,
        out: &mut StepOut,
    ) -> Result<(), Stop>
        requires now { now < 2 ^ 62 }
        requires input { MayTake ToolCommandFits (input_of input) }
        requires room { array_vec_len out.old.line ≡ 0 }
        ensures does { ReachesParts (first_parts (input_of input.entry) now) self.old out.old self.new out.new result }
        ensures at_most { array_vec_len out.new.line ≤ 514 }
    {
        match self.begin(alloc, now, out) {
            Ok(()) => self.go_on(alloc, input, now, out),
            Err(stop) => Err(stop),
        }
    }

    // All that is due, and what it is given.
    fn go_on(
        &mut self,
        alloc: Global,
        input: NodeInput<'_, ToolCommand>,
        now: u64,
        out: &mut StepOut,
    ) -> Result<(), Stop>
        requires now { now < 2 ^ 62 }
        requires input { MayTake ToolCommandFits (input_of input) }
        requires room { array_vec_len out.old.line ≡ 0 }
        ensures does { ReachesParts (due_parts now ++ input_part (input_of input.entry) now ∷ [])
            self.old out.old self.new out.new result }
        ensures at_most { array_vec_len out.new.line ≤ 514 }
    {
        match self.do_due(alloc, now, out) {
            Ok(()) => self.meet_input(alloc, input, now, out),
            Err(stop) => Err(stop),
        }
    }

    /// What comes behind the works of a step: what waits for them is answered; the oldest message, which was read, goes
    /// to the host where it was to be taken up; spooling may end; the line gets its turn; and the step ends.
    pub fn do_last(
        &mut self,
        alloc: Global,
        oldest: Option<(u64, Spoolable)>,
        now: u64,
        out: &mut StepOut,
    ) -> Result<(), Stop>
        requires now { now < 2 ^ 62 }
        requires room { array_vec_len out.old.line ≤ 514 }
        ensures does { ReachesParts (answering ∷ taking oldest ∷ end_of_spooling ∷ offer now ∷ closes ∷ [])
            self.old out.old self.new out.new result }
    {
        match self.answer_owed(alloc, out) {
            Ok(()) => self.end_parts(alloc, oldest, now, out),
            Err(stop) => Err(stop),
        }
    }

    // What comes behind the answer that waited.
    fn end_parts(
        &mut self,
        alloc: Global,
        oldest: Option<(u64, Spoolable)>,
        now: u64,
        out: &mut StepOut,
    ) -> Result<(), Stop>
        requires now { now < 2 ^ 62 }
        requires room { array_vec_len out.old.line ≤ 514 }
        ensures does { ReachesParts (taking oldest ∷ end_of_spooling ∷ offer now ∷ closes ∷ [])
            self.old out.old self.new out.new result }
    {
        match self.unload(alloc, oldest, out) {
            Ok(()) => self.end_step(alloc, now, out),
            Err(stop) => Err(stop),
        }
    }

    // The oldest message goes to the host, where it was read for that.
    fn unload(
        &mut self,
        alloc: Global,
        oldest: Option<(u64, Spoolable)>,
        out: &mut StepOut,
    ) -> Result<(), Stop>
        ensures does { TakesPart (taking oldest) self.old out.old self.new out.new result }
        ensures line { out.new.line ≡ out.old.line }
    {
        match oldest {
            Some((number, report)) => self.take_up(alloc, number, report, out),
            None => Ok(()),
        }
    }

    // Spooling may end, the line gets its turn, and the step comes to its end.
    fn end_step(&mut self, alloc: Global, now: u64, out: &mut StepOut) -> Result<(), Stop>
        requires now { now < 2 ^ 62 }
        requires room { array_vec_len out.old.line ≤ 514 }
        ensures does { ReachesParts (end_of_spooling ∷ offer now ∷ closes ∷ [])
            self.old out.old self.new out.new result }
    {
        match self.end_spooling(alloc, out) {
            Ok(()) => {
                self.give_turn(now, out);
                self.close(out);
                Ok(())
            }
            Err(NoMemory) => Err(Stop::NoMemory),
        }
    }

    // In the first step the communication is enabled where the plan says so.
    fn begin(&mut self, alloc: Global, now: u64, out: &mut StepOut) -> Result<(), Stop>
        requires { now < 2 ^ 62 }
        ensures does { TakesPart (beginning now) self.old out.old self.new out.new result }
        ensures line { out.new.line ≡ out.old.line }
    {
        let has_begun = self.own.has_begun;
        self.own.has_begun = true;
        if has_begun || !self.own.plan.is_enabling() {
            return Ok(());
        }
        self.meet(alloc, CommsIn::Enable, now, out)
    }

    // Does all that is due.
    fn do_due(&mut self, alloc: Global, now: u64, out: &mut StepOut) -> Result<(), Stop>
        requires now { now < 2 ^ 62 }
        requires room { array_vec_len out.old.line + 257 ≤ 1024 }
        ensures does { ReachesParts (due_parts now) self.old out.old self.new out.new result }
        ensures at_most { array_vec_len out.new.line ≤ array_vec_len out.old.line + 257 }
    {
        match self.tick(alloc, now, out) {
            Ok(()) => self.do_late(alloc, now, out),
            Err(stop) => Err(stop),
        }
    }

    // What comes too late ends, and the delay; and samples are taken.
    fn do_late(&mut self, alloc: Global, now: u64, out: &mut StepOut) -> Result<(), Stop>
        requires { now < 2 ^ 62 }
        ensures does { ReachesParts (late_parts now ++ delay_timer now ∷ sample_parts now)
            self.old out.old self.new out.new result }
        ensures line { out.new.line ≡ out.old.line }
    {
        match self.end_late(alloc, now, out) {
            Ok(()) => self.end_delay(alloc, now, out),
            Err(stop) => Err(stop),
        }
    }

    // The delay may end; and samples are taken.
    fn end_delay(&mut self, alloc: Global, now: u64, out: &mut StepOut) -> Result<(), Stop>
        requires { now < 2 ^ 62 }
        ensures does { ReachesParts (delay_timer now ∷ sample_parts now) self.old out.old self.new out.new result }
        ensures line { out.new.line ≡ out.old.line }
    {
        match self.meet(alloc, CommsIn::Time, now, out) {
            Ok(()) => self.take_samples(alloc, now, out),
            Err(stop) => Err(stop),
        }
    }

    // Lets the line's timer act: where a block failed all open messages end.
    fn tick(&mut self, alloc: Global, now: u64, out: &mut StepOut) -> Result<(), Stop>
        requires now { now < 2 ^ 62 }
        requires room { array_vec_len out.old.line + 257 ≤ 1024 }
        ensures does { TakesPart (line_timer now) self.old out.old self.new out.new result }
        ensures at_most { array_vec_len out.new.line ≤ array_vec_len out.old.line + 257 }
    {
        match self.core.tick(now, out) {
            Some(header) => self.end_talk(alloc, CommsIn::SendFailed, Some(header), now, out),
            None => Ok(()),
        }
    }

    // Meets what it is given.
    fn meet_input(
        &mut self,
        alloc: Global,
        input: NodeInput<'_, ToolCommand>,
        now: u64,
        out: &mut StepOut,
    ) -> Result<(), Stop>
        requires now { now < 2 ^ 62 }
        requires input { MayTake ToolCommandFits (input_of input) }
        requires room { array_vec_len out.old.line + 257 ≤ 1024 }
        ensures does { ReachesPart (input_part (input_of input.entry) now) self.old out.old self.new out.new result }
        ensures at_most { array_vec_len out.new.line ≤ array_vec_len out.old.line + 257 }
    {
        match input {
            NodeInput::Char(byte) => self.take(alloc, byte, now, out),
            NodeInput::Time => Ok(()),
            NodeInput::Command(command) => self.obey(alloc, command, now, out),
        }
    }

    // Takes a character, and does what it has brought.
    fn take(&mut self, alloc: Global, byte: u8, now: u64, out: &mut StepOut) -> Result<(), Stop>
        requires now { now < 2 ^ 62 }
        requires room { array_vec_len out.old.line + 257 ≤ 1024 }
        ensures does { ReachesPart (character byte now) self.old out.old self.new out.new result }
        ensures at_most { array_vec_len out.new.line ≤ array_vec_len out.old.line + 257 }
    {
        match self.core.take(alloc, byte, now, out) {
            Ok(Took::Nothing) => Ok(()),
            Ok(Took::Failed(header)) => {
                self.end_talk(alloc, CommsIn::SendFailed, Some(header), now, out)
            }
            Ok(Took::Came(header, flow)) => self.judge(alloc, &header, flow, now, out),
            Err(stop) => Err(stop),
        }
    }

    // Does what a block has brought.
    fn judge(
        &mut self,
        alloc: Global,
        header: &Header,
        flow: Flow,
        now: u64,
        out: &mut StepOut,
    ) -> Result<(), Stop>
        requires now { now < 2 ^ 62 }
        requires header { Fits header.now }
        requires fits { WholeFits longest_text flow }
        requires checked { WholeIsChecked flow }
        ensures does { ReachesPart (flow_turn now header.now flow) self.old out.old self.new out.new result }
        ensures line { out.new.line ≡ out.old.line }
    {
        match flow {
            Flow::Part => Ok(()),
            Flow::Whole(message, check) => self.heed(alloc, header, &message, &check, now, out),
            Flow::Duplicate => Ok(()),
            Flow::Foreign(_) => self.tell_error(alloc, 1, header, out),
            Flow::Unexpected => self.give_up(alloc, header, now, out),
            Flow::TooLong => self.give_up_long(alloc, header, now, out),
            Flow::Crowded => self.give_up(alloc, header, now, out),
        }
    }

    // A block made its message too long: the host is told so, and a reply is given up. (That a number is wanting is
    // looked at before all else: what is kept then is what it was.)
    fn give_up_long(
        &mut self,
        alloc: Global,
        header: &Header,
        now: u64,
        out: &mut StepOut,
    ) -> Result<(), Stop>
        requires now { now < 2 ^ 62 }
        requires header { Fits header.now }
        ensures does { TakesPart (flow_turn now header.now flow.TooLong) self.old out.old self.new out.new result }
        ensures line { out.new.line ≡ out.old.line }
    {
        if self.is_spent() {
            return Err(Stop::NumbersSpent);
        }
        match self.tell_error(alloc, 11, header, out) {
            Ok(()) => self.give_up(alloc, header, now, out),
            Err(stop) => Err(stop),
        }
    }

    // Whether no system bytes are left.
    fn is_spent(&self) -> bool
        ensures { result ≡ is_spent self.now.core }
    {
        self.core.left() == 0
    }

    // Gives the line its turn.
    fn give_turn(&mut self, now: u64, out: &mut StepOut)
        requires now { now < 2 ^ 62 }
        requires room { array_vec_len out.old.line + 257 ≤ 1024 }
        ensures { after_turn printed_note
            (offer now (own_of self.old.own) self.old.core)
            (on_the_way (node_of self.old) out.old) ≡ Goes (on_the_way (node_of self.new) out.new) }
    {
        self.core.offer(now, out);
    }

    // The step comes to its end.
    fn close(&mut self, out: &mut StepOut)
        ensures { after_turn printed_note
            (closes (own_of self.old.own) self.old.core)
            (on_the_way (node_of self.old) out.old) ≡ Goes (on_the_way (node_of self.new) out.new) }
    {
        self.core.close_step(out);
    }
}
