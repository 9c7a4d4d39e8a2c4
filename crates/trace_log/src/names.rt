//! What lines of the log name: messages, states and causes, each with its word.

ghost use Rattle.std.specs.Prelude.{◌≡◌, ◌≤◌, ◌+◌, ◌++◌, length};
ghost use Rattle.arrayvec.specs.ArrayVec.{array_vec_len};
ghost use Rattle.trace_log.specs.Names.{cause_text, comms_text, control_text, header_title, message_name, name_text, system_text, title_of, title_text};

use arrayvec::ArrayVec;
use block_codec::Header;
use message_flow::Message;
use short_text::{put, put_hex, put_name};

/// A message's name: its stream, its function, and whether its sender awaits a reply (SEMI E5).
#[derive(Clone, Copy, Debug, PartialEq, Eq)]
pub struct Name {
    pub stream: u8,
    pub function: u8,
    pub wait: bool,
}

/// A message's name and its system bytes.
#[derive(Clone, Copy, Debug, PartialEq, Eq)]
pub struct Title {
    pub name: Name,
    pub system: u32,
}

/// A state of communication: of the equipment all but `NotCommunicating`, of the host `Disabled` and the last two.
#[derive(Clone, Copy, Debug, PartialEq, Eq)]
pub enum CommsName {
    Disabled,
    WaitCra,
    WaitDelay,
    NotCommunicating,
    Communicating,
}

/// A state of the equipment's control (SEMI E30).
#[derive(Clone, Copy, Debug, PartialEq, Eq)]
pub enum ControlName {
    EquipmentOffLine,
    AttemptOnLine,
    HostOffLine,
    Local,
    Remote,
}

/// Why a message leaves the spool.
#[derive(Clone, Copy, Debug, PartialEq, Eq)]
pub enum Cause {
    /// The host has replied to it.
    Confirmed,
    /// The host has asked to purge the spool.
    Purged,
    /// A newer message needs its place.
    Overwritten,
}

impl Name {
    /// The name of a message.
    pub fn of(message: &Message) -> Name
        ensures { result ≡ message_name message.now }
    {
        Name {
            stream: message.stream,
            function: message.function,
            wait: message.wait,
        }
    }
}

impl Title {
    /// Name and system bytes of a message.
    pub fn of(message: &Message) -> Title
        ensures { result ≡ title_of message.now }
    {
        Title {
            name: Name::of(message),
            system: message.system,
        }
    }

    /// Name and system bytes of the message that a block belongs to.
    pub fn of_block(header: &Header) -> Title
        ensures { result ≡ header_title header.now }
    {
        Title {
            name: Name {
                stream: header.stream,
                function: header.function,
                wait: header.wait,
            },
            system: header.system,
        }
    }
}

// Puts a message's name and system bytes at the end of a line that has room for 53 bytes.
pub(crate) fn put_title<const N: usize>(line: &mut ArrayVec<u8, N>, title: Title)
    requires { array_vec_len line.old + 53 ≤ N }
    ensures items { line.new.items ≡ line.old.items ++ title_text title }
    ensures len { array_vec_len line.new ≤ array_vec_len line.old + 53 }
{
    put_name(
        line,
        title.name.stream,
        title.name.function,
        title.name.wait,
    );
    put(line, b" ");
    put_system(line, title.system);
}

// Puts system bytes at the end of a line that has room for 8 digits.
pub(crate) fn put_system<const N: usize>(line: &mut ArrayVec<u8, N>, system: u32)
    requires { array_vec_len line.old + 8 ≤ N }
    ensures items { line.new.items ≡ line.old.items ++ system_text system }
    ensures len { array_vec_len line.new ≡ array_vec_len line.old + 8 }
{
    put_hex(line, &system.to_be_bytes());
}

pub(crate) fn comms_word(state: CommsName) -> &'static [u8]
    ensures text { result.now ≡ comms_text state }
    ensures len { length result.now ≤ 20 }
{
    match state {
        CommsName::Disabled => b"DISABLED",
        CommsName::WaitCra => b"WAIT-CRA",
        CommsName::WaitDelay => b"WAIT-DELAY",
        CommsName::NotCommunicating => b"NOT-COMMUNICATING",
        CommsName::Communicating => b"COMMUNICATING",
    }
}

pub(crate) fn control_word(state: ControlName) -> &'static [u8]
    ensures text { result.now ≡ control_text state }
    ensures len { length result.now ≤ 20 }
{
    match state {
        ControlName::EquipmentOffLine => b"EQUIPMENT-OFF-LINE",
        ControlName::AttemptOnLine => b"ATTEMPT-ON-LINE",
        ControlName::HostOffLine => b"HOST-OFF-LINE",
        ControlName::Local => b"LOCAL",
        ControlName::Remote => b"REMOTE",
    }
}

pub(crate) fn cause_word(cause: Cause) -> &'static [u8]
    ensures text { result.now ≡ cause_text cause }
    ensures len { length result.now ≤ 20 }
{
    match cause {
        Cause::Confirmed => b"confirmed",
        Cause::Purged => b"purged",
        Cause::Overwritten => b"overwritten",
    }
}
