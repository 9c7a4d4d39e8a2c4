//! What both sides may be told, and which commands fit.

ghost use Rattle.std.specs.Prelude.{◌↔◌, IsTrue};
ghost use Rattle.trace_log.specs.Commands.{HostCommandFits, MayBeSent, ToolCommandFits};

use gl_base::Row;
use secs_items::{Item, MAX_DEPTH};

/// What the equipment is told by its tool.
#[derive(Debug, Drop)]
pub enum ToolCommand {
    /// The variable of this number gets the value of this item.
    Set(u32, Item),
    /// The event of this number happens.
    Event(u32),
    /// The alarm of this number is set, or cleared where it is false.
    Alarm(u32, bool),
    /// Communication is enabled, or disabled.
    Enable,
    Disable,
    /// The operator's switches for control (SEMI E30).
    Online,
    Offline,
    Local,
    Remote,
    /// The operator of this terminal has a text for the host.
    Terminal(u8, Row<u8>),
}

/// What the host is told by its user.
#[derive(Debug, Drop)]
pub enum HostCommand {
    /// It sends a primary message with this text.
    Send {
        stream: u8,
        function: u8,
        wait: bool,
        body: Row<u8>,
    },
    /// Communication is enabled, or disabled.
    Enable,
    Disable,
}

impl ToolCommand {
    /// Whether no list stands in 64 others in the item that a variable is set to. Every other command fits.
    pub fn fits(&self) -> bool
        ensures { IsTrue result ↔ ToolCommandFits self.now }
    {
        match self {
            ToolCommand::Set(_, item) => item.depth() <= MAX_DEPTH,
            _ => true,
        }
    }
}

impl HostCommand {
    /// Whether what is sent is of a stream from 1 to 127 and of an odd function; its text may be any bytes. Every other
    /// command fits.
    pub fn fits(&self) -> bool
        ensures { IsTrue result ↔ HostCommandFits self.now }
    {
        match self {
            HostCommand::Send {
                stream,
                function,
                body,
                ..
            } => may_be_sent(*stream, *function, body.as_slice()),
            _ => true,
        }
    }
}

// Whether a message of this name and text may be sent. That its parts are bytes is said by their types.
fn may_be_sent(stream: u8, function: u8, body: &[u8]) -> bool
    ensures { IsTrue result ↔ MayBeSent stream function body.now }
{
    1 <= stream && stream <= 127 && function % 2 == 1
}
