//! The commands of the tool.

ghost use Rattle.std.specs.Prelude.{IfOk, true, ◌≡◌, ◌<◌, ◌^◌};
ghost use Rattle.tool_core.specs.Node.{own_of};
ghost use Rattle.gem_alarms.specs.Alarms.{step_of};
ghost use Rattle.gem_reports.specs.Reporting.{is_planned};
ghost use Rattle.gem_vars.specs.Settings.{refusal_of};
ghost use Rattle.tool_core.specs.Judged.{IsShort};
ghost use Rattle.tool_step.specs.Own.{is_online};
ghost use Rattle.tool_step.specs.Reports.{report_turn};
ghost use Rattle.tool_step.specs.Sent.{terminal_item, terminal_report, text_of};
ghost use Rattle.tool_step.specs.States.{control_turn};
ghost use Rattle.tool_step.specs.Tool.{alarm_report_turn, alarm_turn, attempt_turn, command_turn, enabled_turn, known_event_turn, online_turn, set_turn, terminal_turn};
ghost use Rattle.tool_core.specs.Turns.{TakesPart, TakesTurn};

use crate::own::Tool;
use crate::primaries::{online_request, terminal_item};
use crate::routing::{ALARM_NAME, EVENT_NAME, TERMINAL_NAME};
use crate::sending::note_dropped;
use crate::spoolable::Spoolable;
use equipment_tables::{Answer, bounded};
use gem_alarms::AlarmStep;
use gem_states::{CommsIn, ControlIn, ControlOut};
use gl_base::NoMemory;
use message_end::Stop;
use message_flow::StepOut;
use secs_items::Item;
use std::alloc::Global;
use trace_log::{ToolCommand, alarm_note, event_note, refused_note, set_note};

impl Tool {
    /// Carries out a command of the tool. (That it counts later, when the equipment looks back, is noted nowhere.)
    pub(crate) fn obey(
        &mut self,
        alloc: Global,
        command: &ToolCommand,
        now: u64,
        out: &mut StepOut,
    ) -> Result<(), Stop>
        requires { now < 2 ^ 62 }
        ensures does { TakesPart (command_turn command.now now) self.old out.old self.new out.new result }
        ensures line { out.new.line ≡ out.old.line }
    {
        match command {
            ToolCommand::Set(vid, value) => self.set(alloc, *vid, value, out),
            ToolCommand::Event(ceid) => self.happen(alloc, *ceid, out),
            ToolCommand::Alarm(alid, is_set) => self.alarm(alloc, *alid, *is_set, out),
            ToolCommand::Enable => self.meet(alloc, CommsIn::Enable, now, out),
            ToolCommand::Disable => self.end_talk(alloc, CommsIn::Disable, None, now, out),
            ToolCommand::Online => self.go_online(alloc, out),
            ToolCommand::Offline => self.switch(alloc, ControlIn::Offline, out),
            ToolCommand::Local => self.switch(alloc, ControlIn::ToLocal, out),
            ToolCommand::Remote => self.switch(alloc, ControlIn::ToRemote, out),
            ToolCommand::Terminal(tid, text) => self.write(alloc, *tid, text.as_slice(), out),
        }
    }

    // Sets a variable.
    fn set(&mut self, alloc: Global, vid: u32, value: &Item, out: &mut StepOut) -> Result<(), Stop>
        ensures does { TakesTurn (set_turn (refusal_of self.old.own.tables.vars vid value.now) vid value.now)
            self.old out.old self.new out.new result }
        ensures line { out.new.line ≡ out.old.line }
    {
        if !self.own.tables.set(alloc, vid, value)? {
            out.notes.push(refused_note(alloc)?)?;
            return Ok(());
        }
        out.notes.push(set_note(alloc, vid)?)?;
        Ok(())
    }

    // An event happens.
    fn happen(&mut self, alloc: Global, ceid: u32, out: &mut StepOut) -> Result<(), Stop>
        ensures does { TakesPart (λ own core. known_event_turn (is_planned own.tables.reports ceid) ceid own core)
            self.old out.old self.new out.new result }
        ensures line { out.new.line ≡ out.old.line }
    {
        if !self.own.tables.is_event(ceid) {
            out.notes.push(refused_note(alloc)?)?;
            return Ok(());
        }
        let dataid = self.own.events;
        out.notes.push(event_note(alloc, ceid, dataid)?)?;
        self.own.events = dataid.wrapping_add(1);
        if self.own.tables.is_enabled(ceid) {
            return self.report(alloc, ceid, dataid, out);
        }
        Ok(())
    }

    // Reports an event that is enabled.
    fn report(
        &mut self,
        alloc: Global,
        ceid: u32,
        dataid: u32,
        out: &mut StepOut,
    ) -> Result<(), Stop>
        ensures does { TakesPart (enabled_turn true ceid dataid) self.old out.old self.new out.new result }
        ensures line { out.new.line ≡ out.old.line }
    {
        if !self.own.is_online() {
            note_dropped(alloc, EVENT_NAME, out)?;
            return Ok(());
        }
        let max_body = self.own.max_body();
        let text = self.own.tables.event_body(alloc, ceid, dataid, max_body)?;
        match self.route_text(alloc, EVENT_NAME, text, out)? {
            Some(body) => self.report_event(alloc, dataid, body, out),
            None => Ok(()),
        }
    }

    // An alarm is set, or cleared.
    fn alarm(
        &mut self,
        alloc: Global,
        alid: u32,
        is_set: bool,
        out: &mut StepOut,
    ) -> Result<(), Stop>
        ensures does { TakesPart (alarm_turn (step_of self.old.own.tables.alarms alid is_set) alid is_set)
            self.old out.old self.new out.new result }
        ensures line { out.new.line ≡ out.old.line }
    {
        match self.own.tables.change(alid, is_set) {
            AlarmStep::Unknown => {
                out.notes.push(refused_note(alloc)?)?;
                Ok(())
            }
            AlarmStep::Same => {
                out.notes.push(alarm_note(alloc, alid, is_set)?)?;
                Ok(())
            }
            AlarmStep::Changed { enabled } => {
                out.notes.push(alarm_note(alloc, alid, is_set)?)?;
                self.report_alarm(alloc, enabled, alid, out)
            }
        }
    }

    // Reports an alarm, where it is enabled.
    fn report_alarm(
        &mut self,
        alloc: Global,
        enabled: bool,
        alid: u32,
        out: &mut StepOut,
    ) -> Result<(), Stop>
        ensures does { TakesPart (alarm_report_turn enabled alid) self.old out.old self.new out.new result }
        ensures line { out.new.line ≡ out.old.line }
    {
        if !enabled {
            return Ok(());
        }
        if !self.own.is_online() {
            note_dropped(alloc, ALARM_NAME, out)?;
            return Ok(());
        }
        let max_body = self.own.max_body();
        let text = self.own.tables.alarm_body(alloc, alid, max_body)?;
        match self.route_text(alloc, ALARM_NAME, text, out)? {
            Some(body) => self.send_report(alloc, Spoolable::named(ALARM_NAME, body), out),
            None => Ok(()),
        }
    }

    // The operator of a terminal has a text for the host.
    fn write(&mut self, alloc: Global, tid: u8, text: &[u8], out: &mut StepOut) -> Result<(), Stop>
        ensures does { TakesPart (terminal_turn tid text.now) self.old out.old self.new out.new result }
        ensures line { out.new.line ≡ out.old.line }
    {
        if !self.own.is_online() {
            note_dropped(alloc, TERMINAL_NAME, out)?;
            return Ok(());
        }
        let text = self.terminal_text(alloc, tid, text)?;
        self.send_terminal(alloc, text, out)
    }

    // Sends a terminal's report of this text, where it may be sent.
    fn send_terminal(&mut self, alloc: Global, text: Answer, out: &mut StepOut) -> Result<(), Stop>
        requires short { IsShort text }
        requires online { is_online (own_of self.old.own) ≡ true }
        ensures does { TakesPart (report_turn terminal_report text) self.old out.old self.new out.new result }
        ensures line { out.new.line ≡ out.old.line }
    {
        match self.route_text(alloc, TERMINAL_NAME, text, out)? {
            Some(body) => self.send_report(alloc, Spoolable::named(TERMINAL_NAME, body), out),
            None => Ok(()),
        }
    }

    // The text of a terminal's report.
    fn terminal_text(&self, alloc: Global, tid: u8, text: &[u8]) -> Result<Answer, NoMemory>
        ensures text { IfOk result (λ answer. answer ≡ text_of (own_of self.now.own) (terminal_item tid text.now)) }
        ensures short { IfOk result IsShort }
    {
        let item = terminal_item(alloc, tid, text)?;
        bounded(alloc, &item, self.own.max_body())
    }

    // The operator wants to be on-line.
    fn go_online(&mut self, alloc: Global, out: &mut StepOut) -> Result<(), Stop>
        ensures does { TakesPart online_turn self.old out.old self.new out.new result }
        ensures line { out.new.line ≡ out.old.line }
    {
        let communicating = self.own.is_communicating();
        match self.control(alloc, ControlIn::Online { communicating }, out)? {
            ControlOut::SendAttempt => self.attempt(alloc, out),
            ControlOut::Nothing | ControlOut::Ack(_) | ControlOut::Abort => Ok(()),
        }
    }

    // Attempts to be on-line.
    fn attempt(&mut self, alloc: Global, out: &mut StepOut) -> Result<(), Stop>
        ensures does { TakesPart attempt_turn self.old out.old self.new out.new result }
        ensures line { out.new.line ≡ out.old.line }
    {
        if self.core.primary(alloc, online_request(alloc), out)? {
            return Ok(());
        }
        self.fail_attempt(alloc, out)
    }

    // The operator moves a switch of control.
    fn switch(&mut self, alloc: Global, input: ControlIn, out: &mut StepOut) -> Result<(), Stop>
        ensures does { TakesTurn (control_turn input) self.old out.old self.new out.new result }
        ensures line { out.new.line ≡ out.old.line }
    {
        self.control(alloc, input, out)?;
        Ok(())
    }
}
