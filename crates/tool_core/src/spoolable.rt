//! What the equipment tells its host by itself: a report, one that waits for its grant, and one that was sent.

ghost use Rattle.std.specs.Prelude.{◌≡◌, ◌<◌, ◌≤◌, ◌%◌, length, IfOk};
ghost use Rattle.block_codec.specs.Protocol.{longest_text};
ghost use Rattle.tool_step.specs.Own.{event_report};
ghost use Rattle.tool_core.specs.Judged.{report_named};
ghost use Rattle.tool_step.specs.Sent.{primary_of};
ghost use Rattle.trace_log.specs.Names.{spooled_name};

use crate::awaiting::Awaiting;
use gem_spool::Kept;
use gl_base::{NoMemory, Row};
use message_end::Unsent;
use std::alloc::Global;
use std::marker::Model;
use tool_step::Kind;
use trace_log::Name;

/// A primary with W by which the equipment tells its host something, and which may be spooled: S5F1, S6F11 or S10F1.
#[derive(Debug, Drop)]
pub struct Spoolable {
    pub(crate) stream: u8,
    pub(crate) function: u8,
    pub(crate) body: Row<u8>,
}

impl Model for Spoolable {
    ghost use Rattle.std.specs.Prelude.{◌≡◌, ◌<◌, ◌≤◌, ◌%◌, length};
    ghost use Rattle.block_codec.specs.Protocol.{longest_text};
    ghost use Rattle.trace_log.specs.Names.{Spooled};

    ghost Value = { Spooled };

    ghost view = { λ inside. record { stream = inside.stream; function = inside.function; body = inside.body } };

    ghost invariant = { λ inside.
        (inside.stream < 128) × ((inside.function % 2 ≡ 1) × (length inside.body ≤ longest_text)) };
}

impl Spoolable {
    /// One of this name.
    pub(crate) fn named(name: Name, body: Row<u8>) -> Spoolable
        requires stream { name.stream < 128 }
        requires function { name.function % 2 ≡ 1 }
        requires short { length body ≤ longest_text }
        ensures { result ≡ report_named name body }
    {
        Spoolable {
            stream: name.stream,
            function: name.function,
            body,
        }
    }

    /// S6F11.
    pub(crate) fn of_event(body: Row<u8>) -> Spoolable
        requires { length body ≤ longest_text }
        ensures { result ≡ event_report body }
    {
        Spoolable {
            stream: 6,
            function: 11,
            body,
        }
    }

    /// One that was read from the spool. A disk may give any bytes, so the function of a reply is taken as that of its
    /// primary.
    pub fn of_kept(kept: Kept) -> Spoolable
        requires stream { kept.stream < 128 }
        requires short { length kept.body ≤ longest_text }
        ensures { kept.function % 2 ≡ 1 → result
            ≡ record { stream = kept.stream; function = kept.function; body = kept.body } }
    {
        Spoolable {
            stream: kept.stream,
            function: primary_function(kept.function),
            body: kept.body,
        }
    }

    /// Its name.
    pub(crate) fn name(&self) -> Name
        ensures { result ≡ spooled_name self.now }
    {
        Name {
            stream: self.stream,
            function: self.function,
            wait: true,
        }
    }

    /// How many bytes its text has.
    pub(crate) fn len(&self) -> u32
        ensures { result ≡ length self.now.body }
    {
        self.body.len() as u32
    }

    /// Its text.
    pub(crate) fn into_body(self) -> Row<u8>
        ensures body { result ≡ self.body }
        ensures short { length result ≤ longest_text }
    {
        self.body
    }

    /// An equal one.
    pub(crate) fn copy(&self, alloc: Global) -> Result<Spoolable, NoMemory>
        ensures { IfOk result (λ copy. copy ≡ self.now) }
    {
        Ok(Spoolable {
            stream: self.stream,
            function: self.function,
            body: Row::of(alloc, self.body.as_slice())?,
        })
    }

    /// It as a primary that begins a transaction of this kind.
    pub(crate) fn unsent(self, kind: Kind) -> Unsent<Kind>
        ensures { result ≡ primary_of self.stream self.function kind self.body }
    {
        Unsent {
            stream: self.stream,
            function: self.function,
            kind: Some(kind),
            body: self.body,
        }
    }
}

/// The function of a primary; of a reply, that of the primary before it.
pub fn primary_function(function: u8) -> u8
    ensures odd { result % 2 ≡ 1 }
    ensures same { function % 2 ≡ 1 → result ≡ function }
{
    if function % 2 == 1 {
        function
    } else {
        function.wrapping_sub(1)
    }
}

/// An S6F11 of several blocks that waits for its grant: the system bytes of the S6F5 that asks for it, and its text,
/// which blocks can carry.
#[derive(Debug, Drop)]
pub struct ForGrant {
    system: u64,
    body: Row<u8>,
}

impl Model for ForGrant {
    ghost use Rattle.std.specs.Prelude.{◌≤◌, length};
    ghost use Rattle.block_codec.specs.Protocol.{longest_text};
    ghost use Rattle.tool_step.specs.Grants.{GrantView};

    ghost Value = { GrantView };

    ghost view = { λ inside. record { system = inside.system; body = inside.body } };

    ghost invariant = { λ inside. length inside.body ≤ longest_text };
}

impl ForGrant {
    pub(crate) fn new(system: u64, body: Row<u8>) -> ForGrant
        requires { length body ≤ longest_text }
        ensures { result ≡ record { system = system; body = body } }
    {
        ForGrant { system, body }
    }
}

impl Awaiting for ForGrant {
    ghost number = { λ waiting. waiting.system };

    ghost message = { λ waiting. event_report waiting.body };

    fn system(&self) -> u64 {
        self.system
    }

    fn copy(&self, alloc: Global) -> Result<Spoolable, NoMemory> {
        Ok(Spoolable::of_event(Row::of(alloc, self.body.as_slice())?))
    }

    fn into_message(self) -> Spoolable {
        Spoolable::of_event(self.body)
    }
}

/// A report that was sent and isn't answered yet, with the system bytes of its transaction.
#[derive(Debug, Drop)]
pub struct Live {
    system: u64,
    report: Spoolable,
}

impl Model for Live {
    ghost use Rattle.tool_step.specs.Live.{ReportView};

    ghost Value = { ReportView };

    ghost view = { λ inside. record { system = inside.system; message = inside.report } };
}

impl Live {
    pub(crate) fn new(system: u64, report: Spoolable) -> Live
        ensures { result ≡ record { system = system; message = report } }
    {
        Live { system, report }
    }
}

impl Awaiting for Live {
    ghost number = { λ live. live.system };

    ghost message = { λ live. live.message };

    fn system(&self) -> u64 {
        self.system
    }

    fn copy(&self, alloc: Global) -> Result<Spoolable, NoMemory> {
        self.report.copy(alloc)
    }

    fn into_message(self) -> Spoolable {
        self.report
    }
}
