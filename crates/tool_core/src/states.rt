//! The two state models in a step.

ghost use Rattle.std.specs.Prelude.{IfOk, ◌≡◌, ◌<◌, ◌^◌, ◌++◌};
ghost use Rattle.gem_states.specs.Control.{control_step};
ghost use Rattle.message_end.specs.Core.{EndView};
ghost use Rattle.message_end.specs.Parts.{AreCarried, fixed_turn};
ghost use Rattle.tool_step.specs.declared.kind.Kind.{Kind};
ghost use Rattle.tool_step.specs.Sent.{establish_commands};
ghost use Rattle.tool_step.specs.States.{comms_lines, comms_named, comms_turn, control_lines, control_named, control_turn, is_same_comms, is_same_control, request_commands};
ghost use Rattle.tool_core.specs.Turns.{TakesTurn};

use crate::own::Tool;
use crate::primaries::establish_request;
use equipment_tables::Answer;
use gem_states::{CommsIn, CommsOut, CommsState, ControlIn, ControlOut, ControlState};
use gl_base::NoMemory;
use message_end::Stop;
use message_flow::StepOut;
use std::alloc::Global;
use trace_log::{CommsName, ControlName, comms_note, control_note};

impl Tool {
    /// The communication meets an input: a change is noted, and S1F13 sent where it is to be.
    pub(crate) fn meet(
        &mut self,
        alloc: Global,
        input: CommsIn,
        now: u64,
        out: &mut StepOut,
    ) -> Result<(), Stop>
        requires { now < 2 ^ 62 }
        ensures does { TakesTurn (comms_turn input now) self.old out.old self.new out.new result }
        ensures line { out.new.line ≡ out.old.line }
    {
        let old = self.own.comms.state();
        let delay = self.own.tables.delay();
        let output = self.own.comms.step(input, delay, now);
        self.show_comms(alloc, old, output, out)
    }

    // A change from the old state of communication is noted, and S1F13 sent where it is to be.
    fn show_comms(
        &mut self,
        alloc: Global,
        old: CommsState,
        output: CommsOut,
        out: &mut StepOut,
    ) -> Result<(), Stop>
        ensures does { TakesTurn
            (λ own. fixed_turn own (comms_lines old self.old.own.comms.state ++ request_commands output own))
            self.old out.old self.new out.new result }
        ensures line { out.new.line ≡ out.old.line }
    {
        note_comms(alloc, old, self.own.comms.state(), out)?;
        self.request(alloc, output, out)
    }

    /// Sends S1F13 where it is to be sent.
    pub(crate) fn request(
        &mut self,
        alloc: Global,
        output: CommsOut,
        out: &mut StepOut,
    ) -> Result<(), Stop>
        ensures does { TakesTurn (λ own. fixed_turn own (request_commands output own))
            self.old out.old self.new out.new result }
        ensures line { out.new.line ≡ out.old.line }
    {
        match output {
            CommsOut::SendRequest => self.ask(alloc, out),
            CommsOut::Nothing | CommsOut::Answer => Ok(()),
        }
    }

    // Sends S1F13.
    fn ask(&mut self, alloc: Global, out: &mut StepOut) -> Result<(), Stop>
        ensures does { TakesTurn (λ own. fixed_turn own (establish_commands own))
            self.old out.old self.new out.new result }
        ensures line { out.new.line ≡ out.old.line }
    {
        let max_body = self.own.max_body();
        if let Answer::Body(body) = self.own.tables.identity(alloc, max_body)? {
            self.core.primary(alloc, establish_request(body), out)?;
        }
        Ok(())
    }

    /// The control meets an input, and a change is noted. The answer is what is to be sent.
    pub(crate) fn control(
        &mut self,
        alloc: Global,
        input: ControlIn,
        out: &mut StepOut,
    ) -> Result<ControlOut, Stop>
        ensures does { TakesTurn (control_turn input) self.old out.old self.new out.new result }
        ensures output { IfOk result (λ output. output ≡ (control_step self.old.own.control input).output) }
        ensures line { out.new.line ≡ out.old.line }
    {
        let old = self.own.control.state();
        let output = self.own.control.step(input);
        note_control(alloc, old, self.own.control.state(), out)?;
        Ok(output)
    }
}

/// A change of the state of communication is noted.
pub(crate) fn note_comms(
    alloc: Global,
    old: CommsState,
    new: CommsState,
    out: &mut StepOut,
) -> Result<(), NoMemory>
    ensures notes { IfOk result (λ done. (e : EndView Kind) → AreCarried (comms_lines old new) e out.old e out.new) }
    ensures line { out.new.line ≡ out.old.line }
{
    if !is_same_comms(old, new) {
        out.notes.push(comms_note(alloc, comms_named(new))?)?;
    }
    Ok(())
}

/// A change of the control state is noted.
pub(crate) fn note_control(
    alloc: Global,
    old: ControlState,
    new: ControlState,
    out: &mut StepOut,
) -> Result<(), NoMemory>
    ensures notes { IfOk result (λ done. (e : EndView Kind) → AreCarried (control_lines old new) e out.old e out.new) }
    ensures line { out.new.line ≡ out.old.line }
{
    if !is_same_control(old, new) {
        out.notes.push(control_note(alloc, control_named(new))?)?;
    }
    Ok(())
}

/// Whether it is the same state of communication.
pub(crate) fn is_same_comms(one: CommsState, other: CommsState) -> bool
    ensures { result ≡ is_same_comms one other }
{
    matches!(
        (one, other),
        (CommsState::Disabled, CommsState::Disabled)
            | (CommsState::WaitCra, CommsState::WaitCra)
            | (CommsState::WaitDelay, CommsState::WaitDelay)
            | (CommsState::Communicating, CommsState::Communicating)
    )
}

fn is_same_control(one: ControlState, other: ControlState) -> bool
    ensures { result ≡ is_same_control one other }
{
    matches!(
        (one, other),
        (
            ControlState::EquipmentOffline,
            ControlState::EquipmentOffline
        ) | (ControlState::Attempt, ControlState::Attempt)
            | (ControlState::HostOffline, ControlState::HostOffline)
            | (ControlState::Local, ControlState::Local)
            | (ControlState::Remote, ControlState::Remote)
    )
}

fn comms_named(state: CommsState) -> CommsName
    ensures { result ≡ comms_named state }
{
    match state {
        CommsState::Disabled => CommsName::Disabled,
        CommsState::WaitCra => CommsName::WaitCra,
        CommsState::WaitDelay => CommsName::WaitDelay,
        CommsState::Communicating => CommsName::Communicating,
    }
}

fn control_named(state: ControlState) -> ControlName
    ensures { result ≡ control_named state }
{
    match state {
        ControlState::EquipmentOffline => ControlName::EquipmentOffLine,
        ControlState::Attempt => ControlName::AttemptOnLine,
        ControlState::HostOffline => ControlName::HostOffLine,
        ControlState::Local => ControlName::Local,
        ControlState::Remote => ControlName::Remote,
    }
}
