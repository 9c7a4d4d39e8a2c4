//! The host's steps as rows of a table: what it is given, and what comes of that.

ghost use Rattle.std.specs.Prelude.{◌<◌, ◌^◌};
ghost use Rattle.message_end.specs.Ends.{IsEmpty, MayTake, input_of};
ghost use Rattle.trace_log.specs.Commands.{HostCommandFits};

use arrayvec::ArrayVec;
use gl_base::Row;
use host_node::{Host, HostCommand, HostPlan};
use line_end::{LinePlan, Times};
use message_end::End;
use message_flow::{NodeInput, StepOut};
use std::alloc::Global;

pub(crate) const PLAN: HostPlan = HostPlan {
    line: LinePlan {
        device: 0,
        times: Times {
            t1: 500,
            t2: 10_000,
            rty: 0,
        },
        t3: 45_000,
        t4: 45_000,
        max_body: 244,
    },
    enable: true,
};

// What the host is given: characters, of which the last one is looked at; a message to send, with the W bit where it is
// true; a change of its communication.
pub(crate) enum Given {
    Time,
    Chars(&'static [u8]),
    Send(u8, u8, bool, &'static [u8]),
    Enable,
    Disable,
}

// A step, at a moment, with the characters and the lines that come of it.
pub(crate) struct Case {
    pub(crate) now: u64,
    pub(crate) given: Given,
    pub(crate) line: &'static [u8],
    pub(crate) notes: &'static [&'static [u8]],
}

pub(crate) const ENQ: &[u8] = &[0x05];

pub(crate) const EOT: &[u8] = &[0x04];

pub(crate) const ACK: &[u8] = &[0x06];

pub(crate) fn nothing_yet(alloc: Global) -> StepOut
    ensures { IsEmpty result }
{
    StepOut {
        line: ArrayVec::new(),
        notes: Row::new(alloc),
    }
}

pub(crate) fn is_out(out: &StepOut, line: &[u8], notes: &[&[u8]]) -> bool {
    out.line.as_slice() == line
        && out.notes.len() == notes.len()
        && notes
            .iter()
            .zip(out.notes.as_slice())
            .all(|(wanted, note)| note.text.as_slice() == *wanted)
}

fn makes(
    alloc: Global,
    host: &mut Host,
    input: NodeInput<'_, HostCommand>,
    now: u64,
    case: &Case,
) -> bool
    requires now { now < 2 ^ 62 }
    requires input { MayTake HostCommandFits (input_of input) }
{
    let mut out = nothing_yet(alloc);
    host.step(alloc, input, now, &mut out).is_ok() && is_out(&out, case.line, case.notes)
}

// Whether the host takes these characters, and makes this of the last one.
fn takes(alloc: Global, host: &mut Host, characters: &[u8], now: u64, case: &Case) -> bool
    requires { now < 2 ^ 62 }
{
    let mut out = nothing_yet(alloc);
    for &character in characters {
        out = nothing_yet(alloc);
        if host
            .step(alloc, NodeInput::Char(character), now, &mut out)
            .is_err()
        {
            return false;
        }
    }
    is_out(&out, case.line, case.notes)
}

fn runs_one(alloc: Global, host: &mut Host, case: &Case) -> bool {
    let now = case.now.min(1_000_000);
    match &case.given {
        Given::Time => makes(alloc, host, NodeInput::Time, now, case),
        Given::Chars(characters) => takes(alloc, host, characters, now, case),
        Given::Send(stream, function, wait, body) => {
            let Ok(body) = Row::of(alloc, body) else {
                return false;
            };
            let command = HostCommand::Send {
                stream: *stream,
                function: *function,
                wait: *wait,
                body,
            };
            command.fits() && makes(alloc, host, NodeInput::Command(&command), now, case)
        }
        Given::Enable => makes(
            alloc,
            host,
            NodeInput::Command(&HostCommand::Enable),
            now,
            case,
        ),
        Given::Disable => makes(
            alloc,
            host,
            NodeInput::Command(&HostCommand::Disable),
            now,
            case,
        ),
    }
}

// Whether a host that has started does all of this.
pub(crate) fn runs(alloc: Global, cases: &[Case]) -> bool {
    if !PLAN.fits() {
        return false;
    }
    let mut out = nothing_yet(alloc);
    let Ok(mut host) = Host::start(alloc, PLAN, 0, &mut out) else {
        return false;
    };
    for case in cases {
        if !runs_one(alloc, &mut host, case) {
            return false;
        }
    }
    is_out(&out, &[], &[b"start"])
}
