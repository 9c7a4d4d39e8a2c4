//! The host as a value by itself: its starts and steps, the numbers that it has left, and what it has delivered.

ghost use Rattle.std.specs.Prelude.{◌≡◌, ◌+◌, ◌-◌, ◌^◌, ◌<◌, ◌≤◌};
ghost use Rattle.std.specs.Option.{option_map};
ghost use Rattle.line_end.specs.Plan.{HostPlanFits};
ghost use Rattle.trace_log.specs.Commands.{HostCommandFits};
ghost use Rattle.transact.specs.Numbers.{numbers_from};
ghost use Rattle.message_end.specs.Ends.{IsEmpty, MayTake, input_of};
ghost use Rattle.message_end.specs.Parts.{bare_started};
ghost use Rattle.host_node.specs.Calls.{HasBegun, HasStepped, refilled, unnoted};
ghost use Rattle.host_node.specs.Host.{at_start, end_plan, first_own, host_machine};

use crate::host::Host;
use arrayvec::ArrayVec;
use gl_base::Row;
use line_end::{HostPlan, Phase};
use message_end::Stop;
use message_flow::{Message, NodeInput, StepOut};
use std::alloc::Global;
use trace_log::HostCommand;

/// Why a host goes on no more.
#[derive(Clone, Copy, Debug, PartialEq, Eq)]
pub enum HostEnded {
    NoMemory,
    /// A number had to be drawn, and none was left.
    NumbersSpent,
}

/// How many numbers are given to a host at once.
const NUMBERS: u32 = 4096;

impl Host {
    /// Starts a host that has all numbers, from 0 on, and notes it. `NoMemory` is the only ending.
    pub fn start(
        alloc: Global,
        plan: HostPlan,
        now: u64,
        out: &mut StepOut,
    ) -> Result<Host, HostEnded>
        requires plan { HostPlanFits plan }
        requires out { IsEmpty out.old }
        ensures { HasBegun (bare_started (end_plan plan) (first_own plan) (numbers_from 0 (2 ^ 32))) out.new result }
    {
        match Host::begun(alloc, &plan, out) {
            Ok(host) => Ok(host),
            Err(_) => Err(HostEnded::NoMemory),
        }
    }

    /// Starts a host that has the 4,096 numbers from the first on, likewise, and notes nothing: who calls it notes the
    /// start, with what the host's journal holds.
    pub fn start_from(
        alloc: Global,
        plan: HostPlan,
        first: u32,
        now: u64,
        out: &mut StepOut,
    ) -> Result<Host, HostEnded>
        requires plan { HostPlanFits plan }
        requires first { first + 4096 ≤ 2 ^ 32 }
        requires out { IsEmpty out.old }
        ensures { HasBegun (unnoted (at_start plan (numbers_from first 4096))) out.new result }
    {
        match Host::with_numbers(alloc, &plan, first, NUMBERS as u64) {
            Ok(host) => Ok(host),
            Err(_) => Err(HostEnded::NoMemory),
        }
    }

    /// One step. `NumbersSpent` comes exactly where it must draw a number and none is left; what it has noted by then
    /// is there. Where it ends nothing is sent.
    pub fn step(
        self,
        alloc: Global,
        input: NodeInput<'_, HostCommand>,
        now: u64,
        out: &mut StepOut,
    ) -> Result<Host, HostEnded>
        requires now { now < 2 ^ 62 }
        requires input { MayTake HostCommandFits (input_of input) }
        requires out { IsEmpty out.old }
        ensures { HasStepped (host_machine.act self (input_of input.entry) now) out.new result }
    {
        let mut host = self;
        match host.step_on(alloc, input, now, out) {
            Ok(()) => Ok(host),
            Err(Stop::NoMemory) => Err(HostEnded::NoMemory),
            Err(Stop::NumbersSpent) => Err(HostEnded::NumbersSpent),
            Err(Stop::Full) => unreachable!("a host has no store"),
            Err(Stop::DiskFailed) => unreachable!("a host has no disk"),
        }
    }

    /// The phase of its line.
    pub fn phase(&self) -> Phase
        ensures { result ≡ self.now.core.line.phase }
    {
        self.core.phase()
    }

    /// How many numbers are left.
    pub fn left(&self) -> u64
        ensures { result ≡ self.now.core.numbers.end - self.now.core.numbers.next }
    {
        self.core.left()
    }

    /// Adds the 4,096 numbers from the first on behind those that are left, which it follows.
    pub fn refill(&mut self, alloc: Global, first: u32)
        requires most { first + 4096 ≤ 2 ^ 32 }
        requires follows { first ≡ self.old.core.numbers.end }
        ensures { self.new ≡ refilled first self.old }
    {
        let mut out = StepOut {
            line: ArrayVec::new(),
            notes: Row::new(alloc),
        };
        self.core.more(NUMBERS, &mut out);
    }

    /// The message that the last step delivered, whatever came of it: None where that delivered none, and behind a
    /// start.
    pub fn delivered(&self) -> Option<&Message>
        ensures { option_map (λ message. message.now) result ≡ self.now.own.delivered }
    {
        self.delivered.as_ref()
    }
}
