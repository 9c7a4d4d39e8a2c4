//! The host as an end, and its step in its parts. Replies, what comes too late and the end of all messages stand
//! beside.

ghost use Rattle.std.specs.Prelude.{◌≡◌, ◌+◌, ◌^◌, ◌<◌, ◌≤◌, false, [], Some, IfOk};
ghost use Rattle.arrayvec.specs.ArrayVec.{array_vec_len};
ghost use Rattle.block_codec.specs.Protocol.{longest_text};
ghost use Rattle.message_flow.specs.Assembly.{WholeFits};
ghost use Rattle.trace_log.specs.Commands.{HostCommandFits, IsPrimaryName};
ghost use Rattle.message_end.specs.Calls.{deadline_of_end};
ghost use Rattle.line_end.specs.Plan.{HostPlanFits};
ghost use Rattle.transact.specs.Numbers.{numbers_from};
ghost use Rattle.message_end.specs.Core.Went.{Goes};
ghost use Rattle.message_end.specs.Ends.{EndsBy, HasGone, IsEmpty, Leaves, MayTake, input_of, none_asked, reach_behind};
ghost use Rattle.message_end.specs.Parts.{Takes, TakesAll, bare_started, closes, fixed_turn};
ghost use Rattle.host_node.specs.Host.{at_start, breaks, end_plan, ends_late, enters, first_own, follows, given, heeds, heeds_primary, heeds_secondary, host_machine, is_acceptance, judges, obeys, offers, parts, sends, takes, ticks};

use crate::comms::{HostComms, note_comms};
use crate::endings::end_all;
use crate::late;
use crate::replies::{is_acceptance, is_establishing, is_full, reply};
use block_codec::Header;
use disk_base::CutChoice;
use gl_base::{NoMemory, Row, Side};
use line_end::{HostPlan, Phase};
use message_end::{End, MessageEnd, Stop, Took, Unsent};
use message_flow::{Flow, Message, NodeInput, StepOut};
use std::alloc::Global;
use std::marker::Model;
use trace_log::{HostCommand, Name, dropped_note, full_note, host_started_note, too_long_note};
use transact::Match;

/// The host's end.
#[derive(Debug, Drop)]
pub struct Host {
    plan: HostPlan,
    comms: HostComms,
    pub(crate) delivered: Option<Message>,
    pub(crate) core: MessageEnd<()>,
}

impl Model for Host {
    ghost use Rattle.line_end.specs.Plan.{HostPlanFits};
    ghost use Rattle.message_end.specs.Parts.{Node};
    ghost use Rattle.host_node.specs.Host.{HostOwn, Kind};

    ghost Value = { Node HostOwn Kind };

    ghost view = { λ inside. record {
      own = record { plan = inside.plan; comms = inside.comms; delivered = inside.delivered };
      core = inside.core;
    } };

    ghost invariant = { λ inside. HostPlanFits inside.plan };
}

impl End for Host {
    type Plan = HostPlan;

    type Command = HostCommand;

    type Store = ();

    ghost use Rattle.std.specs.Prelude.{◌+◌, ◌^◌, false, [], refl};
    ghost use Rattle.line_end.specs.Plan.{HostPlanFits};
    ghost use Rattle.message_end.specs.Calls.{deadline_of_end};
    ghost use Rattle.message_end.specs.Core.Went.{Goes};
    ghost use Rattle.message_end.specs.Ends.{none_asked, reach_behind};
    ghost use Rattle.message_end.specs.Parts.{Did, Node, bare_started};
    ghost use Rattle.trace_log.specs.Commands.{HostCommandFits};
    ghost use Rattle.transact.specs.Numbers.{numbers_from};
    ghost use Rattle.host_node.specs.Host.{HasPlan, HostOwn, Kind, end_plan, first_own, host_machine};
    ghost use Rattle.host_node.specs.Lawful.{host_lawful};

    ghost State = { Node HostOwn Kind };

    ghost means = { λ host. host };

    ghost sound = { λ host. Unit {0} };

    ghost fits = { HostPlanFits };

    ghost takes = { HostCommandFits };

    ghost holds = { λ store. Unit {0} };

    ghost plan_of = { end_plan };

    ghost start = { λ plan none. Goes (bare_started (end_plan plan) (first_own plan) (numbers_from 0 (2 ^ 32))) };

    ghost machine = { host_machine };

    ghost did = { λ plan. Did (HasPlan plan) (end_plan plan) };

    ghost due = { λ s. deadline_of_end s.core };

    ghost loses = { ⊥ };

    // It makes no call of a disk.
    ghost reach = { λ host. reach_behind none_asked };

    ghost stopped = { λ host. false };

    ghost anew = { λ host choice now. host_machine.restart host now };

    ghost settled = { λ host sound going choice now. refl };

    ghost lawful = { host_lawful };

    fn start(alloc: Global, plan: &HostPlan, _: (), out: &mut StepOut) -> Result<Host, Stop> {
        Ok(Host::begun(alloc, plan, out)?)
    }

    // It has no disk.
    fn arm(&mut self, _call: u32) {}

    fn restart(
        &mut self,
        alloc: Global,
        _choice: CutChoice,
        now: u64,
        out: &mut StepOut,
    ) -> Result<(), Stop> {
        let plan = self.plan;
        self.core.restart(alloc, Side::Host, &plan.line);
        self.comms = HostComms::first(&plan);
        self.delivered = None;
        out.notes.push(host_started_note(alloc)?)?;
        Ok(())
    }

    fn step(
        &mut self,
        alloc: Global,
        input: NodeInput<'_, HostCommand>,
        now: u64,
        out: &mut StepOut,
    ) -> Result<(), Stop>
        requires now { now < 2 ^ 62 }
        requires input { MayTake HostCommandFits (input_of input) }
        requires out { IsEmpty out.old }
        ensures step { Leaves [] false (host_machine.act self.old (input_of input.entry) now) self.new out.new result }
        ensures ends { EndsBy host_machine [] (reach_behind none_asked) (reach_behind none_asked) false
            (λ choice now. host_machine.restart self.new now) out.new result }
    {
        self.step_on(alloc, input, now, out)
    }

    fn has_stopped(&self) -> bool {
        false
    }

    fn deadline(&self) -> Option<u64> {
        self.core.deadline()
    }

    fn phase(&self) -> Phase {
        self.core.phase()
    }

    fn is_late(&self, now: u64) -> bool {
        match self.core.line_deadline() {
            Some(deadline) => deadline <= now,
            None => false,
        }
    }
}

impl Host {
    /// When the host next acts by itself: the least moment of its line's, of T4 and of T3.
    pub fn deadline(&self) -> Option<u64>
        ensures { result ≡ deadline_of_end self.now.core }
    {
        self.core.deadline()
    }

    // A start with all numbers, from 0 on, and its note.
    pub(crate) fn begun(alloc: Global, plan: &HostPlan, out: &mut StepOut) -> Result<Host, NoMemory>
        requires plan { HostPlanFits plan.now }
        requires out { IsEmpty out.old }
        ensures begun { IfOk result (λ host. HasGone
            (Goes (bare_started (end_plan plan.now) (first_own plan.now) (numbers_from 0 (2 ^ 32))))
            host
            out.new) }
        ensures line { out.new.line ≡ out.old.line }
    {
        let host = Host::with_numbers(alloc, plan, 0, 1 << 32)?;
        out.notes.push(host_started_note(alloc)?)?;
        Ok(host)
    }

    // A host at its start that has so many numbers, from the first on.
    pub(crate) fn with_numbers(
        alloc: Global,
        plan: &HostPlan,
        first: u32,
        count: u64,
    ) -> Result<Host, NoMemory>
        requires plan { HostPlanFits plan.now }
        requires numbers { first + count ≤ 2 ^ 32 }
        ensures { IfOk result (λ host. at_start plan.now (numbers_from first count) ≡ host) }
    {
        Ok(Host {
            plan: *plan,
            comms: HostComms::first(plan),
            delivered: None,
            core: MessageEnd::new(alloc, Side::Host, &plan.line, first, count)?,
        })
    }

    // One step. Where it stops nothing is sent.
    pub(crate) fn step_on(
        &mut self,
        alloc: Global,
        input: NodeInput<'_, HostCommand>,
        now: u64,
        out: &mut StepOut,
    ) -> Result<(), Stop>
        requires now { now < 2 ^ 62 }
        requires input { MayTake HostCommandFits (input_of input) }
        requires out { IsEmpty out.old }
        ensures { Leaves [] false (host_machine.act self.old (input_of input.entry) now) self.new out.new result }
    {
        match self.act(alloc, input, now, out) {
            Ok(()) => Ok(()),
            Err(stop) => {
                out.line.clear();
                Err(stop)
            }
        }
    }

    // All parts of a step.
    fn act(
        &mut self,
        alloc: Global,
        input: NodeInput<'_, HostCommand>,
        now: u64,
        out: &mut StepOut,
    ) -> Result<(), Stop>
        requires now { now < 2 ^ 62 }
        requires input { MayTake HostCommandFits (input_of input) }
        requires room { array_vec_len out.old.line ≡ 0 }
        ensures { TakesAll (parts (input_of input.entry) now) self.old out.old self.new out.new result }
    {
        self.tick(alloc, now, out)?;
        self.end_late(alloc, now, out)?;
        self.meet(alloc, input, now, out)?;
        self.offer(now, out)?;
        self.close(out)
    }

    // Lets the timer of the line act.
    fn tick(&mut self, alloc: Global, now: u64, out: &mut StepOut) -> Result<(), Stop>
        requires now { now < 2 ^ 62 }
        requires room { array_vec_len out.old.line + 257 ≤ 1024 }
        ensures takes { Takes (ticks now self.old.own self.old.core) self.old out.old self.new out.new result }
        ensures at_most { array_vec_len out.new.line ≤ array_vec_len out.old.line + 257 }
    {
        self.delivered = None;
        if !self.is_late(now) {
            return Ok(());
        }
        match self.core.tick(now, out) {
            Some(header) => self.break_off(alloc, &header, out),
            None => Ok(()),
        }
    }

    // A block with this header could not be sent: all open messages end, and with them the communication.
    fn break_off(&mut self, alloc: Global, header: &Header, out: &mut StepOut) -> Result<(), Stop>
        ensures takes { Takes
            (breaks self.old.own self.old.core (Some header.now))
            self.old out.old self.new out.new result }
        ensures line { out.new.line ≡ out.old.line }
    {
        end_all(alloc, &mut self.core, Some(*header), out)?;
        let next = self.comms.failed();
        self.enter(alloc, next, out)
    }

    // The state is this one from now on, which is noted where it has changed.
    fn enter(&mut self, alloc: Global, next: HostComms, out: &mut StepOut) -> Result<(), Stop>
        ensures takes { Takes (enters self.old.own next []) self.old out.old self.new out.new result }
        ensures line { out.new.line ≡ out.old.line }
    {
        let before = self.comms;
        self.comms = next;
        note_comms(alloc, before, next, out)?;
        Ok(())
    }

    // Ends what comes too late.
    fn end_late(&mut self, alloc: Global, now: u64, out: &mut StepOut) -> Result<(), Stop>
        ensures takes { Takes (ends_late now self.old.own self.old.core) self.old out.old self.new out.new result }
        ensures line { out.new.line ≡ out.old.line }
    {
        late::end_late(alloc, &mut self.core, now, out)
    }

    // Meets the input.
    fn meet(
        &mut self,
        alloc: Global,
        input: NodeInput<'_, HostCommand>,
        now: u64,
        out: &mut StepOut,
    ) -> Result<(), Stop>
        requires now { now < 2 ^ 62 }
        requires input { MayTake HostCommandFits (input_of input) }
        requires room { array_vec_len out.old.line + 257 ≤ 1024 }
        ensures takes { Takes
            (given (input_of input.entry) now self.old.own self.old.core)
            self.old out.old self.new out.new result }
        ensures at_most { array_vec_len out.new.line ≤ array_vec_len out.old.line + 257 }
    {
        match input {
            NodeInput::Char(byte) => self.take(alloc, byte, now, out),
            NodeInput::Time => Ok(()),
            NodeInput::Command(command) => self.obey(alloc, command, out),
        }
    }

    // Takes a character, and does what it has brought.
    fn take(&mut self, alloc: Global, byte: u8, now: u64, out: &mut StepOut) -> Result<(), Stop>
        requires now { now < 2 ^ 62 }
        requires room { array_vec_len out.old.line + 257 ≤ 1024 }
        ensures takes { Takes (takes byte now self.old.own self.old.core) self.old out.old self.new out.new result }
        ensures at_most { array_vec_len out.new.line ≤ array_vec_len out.old.line + 257 }
    {
        match self.core.take(alloc, byte, now, out) {
            Ok(Took::Nothing) => Ok(()),
            Ok(Took::Failed(header)) => self.break_off(alloc, &header, out),
            Ok(Took::Came(header, flow)) => self.judge(alloc, &header, flow, out),
            Err(stop) => Err(stop),
        }
    }

    // Does what a block has brought.
    fn judge(
        &mut self,
        alloc: Global,
        header: &Header,
        flow: Flow,
        out: &mut StepOut,
    ) -> Result<(), Stop>
        ensures takes { Takes
            (judges self.old.own self.old.core header.now flow)
            self.old out.old self.new out.new result }
        ensures line { out.new.line ≡ out.old.line }
    {
        match flow {
            Flow::Whole(message, _) => {
                let heeded = self.heed(alloc, header, &message, out);
                self.delivered = Some(message);
                heeded
            }
            Flow::Unexpected | Flow::TooLong | Flow::Crowded => {
                match self.core.give_up(alloc, header, out) {
                    Ok(_) => Ok(()),
                    Err(stop) => Err(stop),
                }
            }
            Flow::Part | Flow::Duplicate | Flow::Foreign(_) => Ok(()),
        }
    }

    // Does what a message that was delivered asks for.
    fn heed(
        &mut self,
        alloc: Global,
        header: &Header,
        message: &Message,
        out: &mut StepOut,
    ) -> Result<(), Stop>
        ensures takes { Takes
            (heeds self.old.own self.old.core header.now message.now)
            self.old out.old self.new out.new result }
        ensures line { out.new.line ≡ out.old.line }
    {
        if self.comms.is_disabled() {
            out.notes.push(dropped_note(alloc, Name::of(message))?)?;
            return Ok(());
        }
        if message.function % 2 == 1 {
            return self.heed_primary(alloc, message, out);
        }
        self.heed_secondary(alloc, header, message, out)
    }

    // S1F13 establishes communication, before it is replied to.
    fn heed_primary(
        &mut self,
        alloc: Global,
        message: &Message,
        out: &mut StepOut,
    ) -> Result<(), Stop>
        ensures takes { Takes (heeds_primary self.old.own message.now) self.old out.old self.new out.new result }
        ensures line { out.new.line ≡ out.old.line }
    {
        if is_establishing(message.stream, message.function) {
            self.enter(alloc, HostComms::Communicating, out)?;
            return reply(alloc, &mut self.core, message, out);
        }
        reply(alloc, &mut self.core, message, out)
    }

    // S1F14 that accepts establishes communication, where it was asked for.
    fn heed_secondary(
        &mut self,
        alloc: Global,
        header: &Header,
        message: &Message,
        out: &mut StepOut,
    ) -> Result<(), Stop>
        ensures takes { Takes
            (heeds_secondary self.old.own self.old.core header.now message.now)
            self.old out.old self.new out.new result }
        ensures line { out.new.line ≡ out.old.line }
    {
        match self.core.answer(alloc, header, out) {
            Ok(Match::Stranger) => Ok(()),
            Ok(Match::Reply(_) | Match::Abort(_)) => self.follow(alloc, message, out),
            Err(stop) => Err(stop),
        }
    }

    // What was asked for is answered by this.
    fn follow(&mut self, alloc: Global, message: &Message, out: &mut StepOut) -> Result<(), Stop>
        ensures takes { Takes
            (follows self.old.own (is_acceptance message.now))
            self.old out.old self.new out.new result }
        ensures line { out.new.line ≡ out.old.line }
    {
        if is_acceptance(alloc, message)? {
            return self.enter(alloc, HostComms::Communicating, out);
        }
        Ok(())
    }

    // Does what its own side tells it.
    fn obey(&mut self, alloc: Global, command: &HostCommand, out: &mut StepOut) -> Result<(), Stop>
        requires { HostCommandFits command.now }
        ensures takes { Takes
            (obeys command.now self.old.own self.old.core)
            self.old out.old self.new out.new result }
        ensures line { out.new.line ≡ out.old.line }
    {
        match command {
            HostCommand::Send {
                stream,
                function,
                wait,
                body,
            } => {
                let name = Name {
                    stream: *stream,
                    function: *function,
                    wait: *wait,
                };
                self.send(alloc, name, body.as_slice(), out)
            }
            HostCommand::Enable => {
                let next = self.comms.enabled();
                self.enter(alloc, next, out)
            }
            HostCommand::Disable => {
                end_all(alloc, &mut self.core, None, out)?;
                self.enter(alloc, HostComms::Disabled, out)
            }
        }
    }

    // Sends a primary, unless it isn't let out, is too long, or has no room: then it is noted so.
    fn send(
        &mut self,
        alloc: Global,
        name: Name,
        body: &[u8],
        out: &mut StepOut,
    ) -> Result<(), Stop>
        requires { IsPrimaryName name.stream name.function }
        ensures takes { Takes
            (fixed_turn self.old.own (sends self.old.own self.old.core name body.now))
            self.old out.old self.new out.new result }
        ensures line { out.new.line ≡ out.old.line }
    {
        if self.comms.is_disabled() {
            out.notes.push(dropped_note(alloc, name)?)?;
            return Ok(());
        }
        if body.len() > self.plan.line.max_body as usize {
            out.notes.push(too_long_note(alloc, name)?)?;
            return Ok(());
        }
        if !name.wait && is_full(&self.core) {
            out.notes.push(full_note(alloc, name)?)?;
            return Ok(());
        }
        let unsent = Unsent {
            stream: name.stream,
            function: name.function,
            kind: if name.wait { Some(()) } else { None },
            body: Row::of(alloc, body)?,
        };
        match self.core.primary(alloc, unsent, out) {
            Ok(_) => Ok(()),
            Err(stop) => Err(stop),
        }
    }

    // Gives the line its turn.
    fn offer(&mut self, now: u64, out: &mut StepOut) -> Result<(), Stop>
        requires now { now < 2 ^ 62 }
        requires room { array_vec_len out.old.line + 257 ≤ 1024 }
        ensures { Takes (offers now self.old.own self.old.core) self.old out.old self.new out.new result }
    {
        self.core.offer(now, out);
        Ok(())
    }

    // The step comes to its end.
    fn close(&mut self, out: &mut StepOut) -> Result<(), Stop>
        ensures { Takes (closes self.old.own self.old.core) self.old out.old self.new out.new result }
    {
        self.core.close_step(out);
        Ok(())
    }
}
