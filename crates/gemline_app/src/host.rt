//! The host's end of a line, run by a script.

ghost use Rattle.std.specs.Prelude.{◌≡◌, ◌<◌, ◌^◌, [], false};
ghost use Rattle.line_end.specs.Plan.{HostPlanFits};
ghost use Rattle.trace_log.specs.Commands.{HostCommandFits};
ghost use Rattle.message_end.specs.Ends.{IsEmpty, Leaves, MayTake, Uses, input_of, none_asked};
ghost use Rattle.host_node.specs.Host.{host_machine};
ghost use Rattle.end_run.specs.Counts.{StepCounts, no_device};
ghost use Rattle.end_run.specs.Scenes.{Always, NothingLeft, Stays};
ghost use Rattle.end_run.specs.Script.{AreTold};
ghost use Rattle.end_run.specs.Sides.{told_host};
ghost use Rattle.gemline_app.specs.Host.{HostComes, WasRun};
ghost use Rattle.gemline_app.specs.LinkTold.{ConnectsOnce, link_told};
ghost use Rattle.gemline_app.specs.Linked.{outcome_of_ending};
ghost use Rattle.gl_base.specs.declared.side.Side.TheVariants as side;
ghost use Rattle.gl_base.specs.Told.{files_told, sink_told, source_told};

use crate::inputs::plans_and_script;
use crate::outcome::Outcome;
use arrayvec::ArrayVec;
use end_run::{Ending, LinkedEnd, run_started};
use gl_base::{Files, Link, Row, Side, Sink, Source};
use host_node::{Host, HostCommand, HostPlan};
use line_schedule::{Script, ScriptStep};
use message_end::{End, Stop};
use message_flow::{NodeInput, StepOut};
use std::alloc::Global;

/// The host as it is run over a link.
#[derive(Drop)]
struct LinkedHost {
    host: Host,
}

impl LinkedEnd for LinkedHost {
    type Command = HostCommand;

    ghost use Rattle.message_end.specs.Ends.{none_asked};
    ghost use Rattle.message_end.specs.Parts.{Node};
    ghost use Rattle.trace_log.specs.Commands.{HostCommandFits};
    ghost use Rattle.host_node.specs.Host.{HostOwn, Kind, host_machine};
    ghost use Rattle.end_run.specs.Counts.{no_device};
    ghost use Rattle.end_run.specs.Scenes.{Always, NothingLeft};
    ghost use Rattle.end_run.specs.Sides.{told_host};
    ghost use Rattle.gemline_app.specs.Host.{host_due};

    ghost State = { Node HostOwn Kind };

    ghost means = { λ linked. linked.host };

    ghost known = { Always };

    ghost sound = { λ linked. Unit {0} };

    ghost takes = { HostCommandFits };

    ghost machine = { host_machine };

    ghost left = { NothingLeft };

    ghost due = { host_due };

    ghost room = { λ linked. none_asked };

    ghost Fixed = { Unit {0} };

    ghost device = { λ linked. no_device };

    ghost told = { told_host };

    fn step(
        &mut self,
        alloc: Global,
        input: NodeInput<'_, HostCommand>,
        now: u64,
        out: &mut StepOut,
    ) -> Result<(), Stop>
        requires now { now < 2 ^ 62 }
        requires input { MayTake HostCommandFits (input_of input) }
        requires out { IsEmpty out.old }
        ensures step { Leaves []
            false
            (host_machine.act self.old.host (input_of input.entry) now)
            self.new.host
            out.new
            result }
        ensures end { Stays Always NothingLeft
            self.old.host
            (input_of input.entry)
            now
            out.new
            self.new
            result }
        ensures room { Uses none_asked none_asked none_asked result }
        ensures device { StepCounts no_device no_device result }
    {
        End::step(&mut self.host, alloc, input, now, out)
    }

    fn deadline(&self) -> Option<u64> {
        End::deadline(&self.host)
    }

    fn told(step: &ScriptStep) -> Option<&HostCommand> {
        match step {
            ScriptStep::Host(command) => Some(command),
            ScriptStep::Tool(_) | ScriptStep::Stop => None,
        }
    }
}

/// Runs the host by a plan and by the script on the input, up to so many polls, with the peer at an address.
pub(crate) fn host<F: Files, R: Source, L: Link, W: Sink>(
    alloc: Global,
    plan: &str,
    address: &str,
    polls: u32,
    files: &mut F,
    input: &mut R,
    link: &mut L,
    out: &mut W,
) -> Outcome
    ensures came { HostComes plan.now polls
        (source_told R.Source input.old input.new)
        (files_told F.Files files.old files.new)
        (link_told L.Link link.old link.new)
        (sink_told W.Sink out.old out.new)
        result }
    ensures connects { ConnectsOnce side.Host address.now (link_told L.Link link.old link.new) }
{
    match plans_and_script(alloc, Side::Host, plan, files, input) {
        Ok(inputs) => run_host(
            alloc,
            &inputs.plans.host,
            &inputs.script,
            address,
            polls,
            link,
            out,
        ),
        Err(refusal) => refusal,
    }
}

// Starts the host, and runs it by a script.
fn run_host<L: Link, W: Sink>(
    alloc: Global,
    plan: &HostPlan,
    script: &Script,
    address: &str,
    polls: u32,
    link: &mut L,
    out: &mut W,
) -> Outcome
    requires plan { HostPlanFits plan.now }
    requires script { AreTold told_host HostCommandFits script.now.lines }
    ensures came { WasRun plan.now script.now.lines polls
        (link_told L.Link link.old link.new)
        (sink_told W.Sink out.old out.new)
        result }
    ensures connects { ConnectsOnce side.Host address.now (link_told L.Link link.old link.new) }
{
    let mut step = StepOut {
        line: ArrayVec::new(),
        notes: Row::new(alloc),
    };
    // (it has numbers to start with, and no disk)
    let Ok(host) = Host::start(alloc, *plan, 0, &mut step) else {
        return Outcome::NoMemory;
    };
    let mut linked = LinkedHost { host };
    outcome_of_ending(run_started::<LinkedHost, L, W>(
        alloc,
        &mut linked,
        step.notes.as_slice(),
        script,
        Side::Host,
        address,
        polls,
        link,
        out,
    ))
}

/// What the end of a run came to, of an end without a journal.
pub fn outcome_of_ending(ended: Ending) -> Outcome
    ensures { result ≡ outcome_of_ending ended }
{
    match ended {
        Ending::Stopped | Ending::Closed => Outcome::Done,
        Ending::Turns => Outcome::TurnsSpent,
        Ending::NumbersSpent => Outcome::NumbersSpent,
        Ending::LinkFailed => Outcome::LinkFailed,
        Ending::WriteFailed => Outcome::WriteFailed,
        Ending::DiskFailed => Outcome::DiskFailed,
        // (it has no store of its own that could be full)
        Ending::Full | Ending::NoMemory => Outcome::NoMemory,
    }
}
