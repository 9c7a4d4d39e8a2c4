//! What an end notes, as one line without its moment and its end.

ghost use Rattle.std.specs.Prelude.{◌≡◌, ◌≤◌, ◌++◌, true, None, length, decimal, IfOk};
ghost use Rattle.arrayvec.specs.ArrayVec.{array_vec_len};
ghost use Rattle.block_codec.specs.Header.{Fits};
ghost use Rattle.trace_log.specs.Log.Happening.{HostStarted, Power, Closed, Sent, Received, Wrote, Comms, Control, Spool, Set, Event, Alarm, Carried, Display, Refused, Stored, Gone, Try, Duplicate, Unexpected, Foreign, TooLongBlock, Crowded, DroppedByT4, Failed, TimedOut, Stranger, Dropped, Denied, Discarded, TooLong, Full};
ghost use Rattle.trace_log.specs.Names.{name_text, title_text};
ghost use Rattle.trace_log.specs.Text.{IsLeavingNote, IsStartNote, IsStoringNote, body_text, header_text, message_text, note_of, plain};

use crate::names::{
    Cause, CommsName, ControlName, Name, Title, cause_word, comms_word, control_word, put_system,
    put_title,
};
use crate::putting::{put_body, put_bytes, put_text};
use arrayvec::ArrayVec;
use block_codec::Header;
use gl_base::{NoMemory, Row};
use message_flow::{Message, Note};
use short_text::{put, put_hex, put_name, put_number};
use std::alloc::Global;

// Room for what stands before a text of any length.
type Head = ArrayVec<u8, 128>;

/// A start of the equipment, whose spool holds so many messages, with the first number that it may draw.
pub fn equipment_started_note(alloc: Global, len: u64, base: u64) -> Result<Note, NoMemory>
    ensures { IfOk result (IsStartNote len base) }
{
    let mut head = Head::new();
    put(&mut head, b"start len=");
    put_number(&mut head, len);
    put(&mut head, b" base=");
    put_number(&mut head, base);
    plain_note(alloc, &head)
}

/// A start of a host without a journal.
pub fn host_started_note(alloc: Global) -> Result<Note, NoMemory>
    ensures { IfOk result (λ note. note ≡ note_of (HostStarted None)) }
{
    plain_note(alloc, b"start")
}

/// The power was lost.
pub fn power_note(alloc: Global) -> Result<Note, NoMemory>
    ensures { IfOk result (λ note. note ≡ note_of Power) }
{
    plain_note(alloc, b"power")
}

/// The peer has closed the connection.
pub fn closed_note(alloc: Global) -> Result<Note, NoMemory>
    ensures { IfOk result (λ note. note ≡ note_of Closed) }
{
    plain_note(alloc, b"closed")
}

/// A message that joins those waiting to be sent.
pub fn sent_note(alloc: Global, message: &Message) -> Result<Note, NoMemory>
    ensures { IfOk result (λ note. note ≡ note_of (Sent message.now)) }
{
    message_note(alloc, b"sent ", message)
}

/// A message that is delivered.
pub fn received_note(alloc: Global, message: &Message) -> Result<Note, NoMemory>
    ensures { IfOk result (λ note. note ≡ note_of (Received message.now)) }
{
    message_note(alloc, b"rx ", message)
}

/// The characters that a step has written.
pub fn wrote_note(alloc: Global, characters: &[u8]) -> Result<Note, NoMemory>
    ensures { IfOk result (λ note. note ≡ note_of (Wrote characters.now)) }
{
    let mut text = Row::of(alloc, b"tx ")?;
    put_bytes(characters, &mut text)?;
    Ok(Note {
        text,
        before_change: false,
    })
}

/// The state of communication, which has changed.
pub fn comms_note(alloc: Global, state: CommsName) -> Result<Note, NoMemory>
    ensures { IfOk result (λ note. note ≡ note_of (Comms state)) }
{
    word_note(alloc, b"comms ", comms_word(state))
}

/// The state of control, which has changed.
pub fn control_note(alloc: Global, state: ControlName) -> Result<Note, NoMemory>
    ensures { IfOk result (λ note. note ≡ note_of (Control state)) }
{
    word_note(alloc, b"control ", control_word(state))
}

/// Whether the spool is active, which has changed.
pub fn spool_note(alloc: Global, active: bool) -> Result<Note, NoMemory>
    ensures { IfOk result (λ note. note ≡ note_of (Spool active)) }
{
    word_note(
        alloc,
        b"spool ",
        if active { b"ACTIVE" } else { b"INACTIVE" },
    )
}

/// A variable that was set.
pub fn set_note(alloc: Global, vid: u32) -> Result<Note, NoMemory>
    ensures { IfOk result (λ note. note ≡ note_of (Set vid)) }
{
    number_note(alloc, b"set ", u64::from(vid))
}

/// An event that has happened, with its number within the start.
pub fn event_note(alloc: Global, ceid: u32, dataid: u32) -> Result<Note, NoMemory>
    ensures { IfOk result (λ note. note ≡ note_of (Event ceid dataid)) }
{
    let mut head = Head::new();
    put(&mut head, b"event ");
    put_number(&mut head, u64::from(ceid));
    put(&mut head, b" ");
    put_number(&mut head, u64::from(dataid));
    plain_note(alloc, &head)
}

/// An alarm that was set, or cleared.
pub fn alarm_note(alloc: Global, alid: u32, set: bool) -> Result<Note, NoMemory>
    ensures { IfOk result (λ note. note ≡ note_of (Alarm alid set)) }
{
    let mut head = Head::new();
    put(&mut head, b"alarm ");
    put_number(&mut head, u64::from(alid));
    put(&mut head, b" ");
    put(&mut head, if set { b"set" } else { b"clear" });
    plain_note(alloc, &head)
}

/// A remote command that was accepted.
pub fn carried_note(alloc: Global, rcmd: &[u8]) -> Result<Note, NoMemory>
    ensures { IfOk result (λ note. note ≡ note_of (Carried rcmd.now)) }
{
    let mut text = Row::of(alloc, b"command ")?;
    put_text(rcmd, &mut text)?;
    Ok(Note {
        text,
        before_change: false,
    })
}

/// A text that a terminal displays.
pub fn display_note(alloc: Global, tid: u8, text: &[u8]) -> Result<Note, NoMemory>
    ensures { IfOk result (λ note. note ≡ note_of (Display tid text.now)) }
{
    let mut head = Head::new();
    put(&mut head, b"display ");
    put_number(&mut head, u64::from(tid));
    put(&mut head, b" ");
    body_note(alloc, &head, text)
}

/// A command of the tool that was refused, or, at a start, a primary that its setup keeps.
pub fn refused_note(alloc: Global) -> Result<Note, NoMemory>
    ensures { IfOk result (λ note. note ≡ note_of Refused) }
{
    plain_note(alloc, b"refused")
}

/// Before a message of this stream and function is put into the spool. Its reply is awaited.
pub fn storing_note(alloc: Global, number: u64, stream: u8, function: u8) -> Result<Note, NoMemory>
    ensures { IfOk result (IsStoringNote number stream function) }
{
    let mut head = Head::new();
    put(&mut head, b"storing ");
    put_number(&mut head, number);
    put(&mut head, b" ");
    put_name(&mut head, stream, function, true);
    change_note(alloc, &head)
}

/// A message is in the spool.
pub fn stored_note(alloc: Global, number: u64) -> Result<Note, NoMemory>
    ensures { IfOk result (λ note. note ≡ note_of (Stored number)) }
{
    number_note(alloc, b"stored ", number)
}

/// Before a message is removed from the spool; by a purge, before all are, and this is the first of them.
pub fn leaving_note(alloc: Global, number: u64, cause: Cause) -> Result<Note, NoMemory>
    ensures { IfOk result (IsLeavingNote number cause) }
{
    let mut head = Head::new();
    put(&mut head, b"leaving ");
    put_number(&mut head, number);
    put(&mut head, b" ");
    put(&mut head, cause_word(cause));
    change_note(alloc, &head)
}

/// A message is removed from the spool; by a purge, all are, and this was the first of them.
pub fn gone_note(alloc: Global, number: u64) -> Result<Note, NoMemory>
    ensures { IfOk result (λ note. note ≡ note_of (Gone number)) }
{
    number_note(alloc, b"gone ", number)
}

/// A message of the spool was read, and goes out next with these system bytes.
pub fn try_note(alloc: Global, number: u64, system: u32) -> Result<Note, NoMemory>
    ensures { IfOk result (λ note. note ≡ note_of (Try number system)) }
{
    let mut head = Head::new();
    put(&mut head, b"try ");
    put_number(&mut head, number);
    put(&mut head, b" ");
    put_system(&mut head, system);
    plain_note(alloc, &head)
}

/// A block that has the header of the one before it. Each header that is noted fits.
pub fn duplicate_note(alloc: Global, header: &Header) -> Result<Note, NoMemory>
    requires { Fits header.now }
    ensures { IfOk result (λ note. note ≡ note_of (Duplicate header.now)) }
{
    header_note(alloc, b"duplicate ", header)
}

/// A block whose number doesn't follow.
pub fn unexpected_note(alloc: Global, header: &Header) -> Result<Note, NoMemory>
    requires { Fits header.now }
    ensures { IfOk result (λ note. note ≡ note_of (Unexpected header.now)) }
{
    header_note(alloc, b"unexpected ", header)
}

/// A block of the end's own side or of another device.
pub fn foreign_note(alloc: Global, header: &Header) -> Result<Note, NoMemory>
    requires { Fits header.now }
    ensures { IfOk result (λ note. note ≡ note_of (Foreign header.now)) }
{
    header_note(alloc, b"foreign ", header)
}

/// A block with which its message would be longer than the end takes.
pub fn too_long_block_note(alloc: Global, header: &Header) -> Result<Note, NoMemory>
    requires { Fits header.now }
    ensures { IfOk result (λ note. note ≡ note_of (TooLongBlock header.now)) }
{
    header_note(alloc, b"toolong ", header)
}

/// The first of several blocks where too many messages are open.
pub fn crowded_note(alloc: Global, header: &Header) -> Result<Note, NoMemory>
    requires { Fits header.now }
    ensures { IfOk result (λ note. note ≡ note_of (Crowded header.now)) }
{
    header_note(alloc, b"crowded ", header)
}

/// T4 has dropped the message of which this block came last.
pub fn dropped_by_t4_note(alloc: Global, header: &Header) -> Result<Note, NoMemory>
    requires { Fits header.now }
    ensures { IfOk result (λ note. note ≡ note_of (DroppedByT4 header.now)) }
{
    header_note(alloc, b"t4 ", header)
}

/// A message that could not be sent, or that ends with its communication.
pub fn failed_note(alloc: Global, title: Title) -> Result<Note, NoMemory>
    ensures { IfOk result (λ note. note ≡ note_of (Failed title)) }
{
    title_note(alloc, b"failed ", title)
}

/// A primary whose reply hasn't come within T3, or had begun and was given up.
pub fn timed_out_note(alloc: Global, title: Title) -> Result<Note, NoMemory>
    ensures { IfOk result (λ note. note ≡ note_of (TimedOut title)) }
{
    title_note(alloc, b"t3 ", title)
}

/// A reply to nothing that is open.
pub fn stranger_note(alloc: Global, title: Title) -> Result<Note, NoMemory>
    ensures { IfOk result (λ note. note ≡ note_of (Stranger title)) }
{
    title_note(alloc, b"stranger ", title)
}

/// A message that its end's state lets neither come in nor go out.
pub fn dropped_note(alloc: Global, name: Name) -> Result<Note, NoMemory>
    ensures { IfOk result (λ note. note ≡ note_of (Dropped name)) }
{
    name_note(alloc, b"dropped ", name)
}

/// A message that the peer doesn't let go out: it refused, or gave no answer.
pub fn denied_note(alloc: Global, name: Name) -> Result<Note, NoMemory>
    ensures { IfOk result (λ note. note ≡ note_of (Denied name)) }
{
    name_note(alloc, b"denied ", name)
}

/// A message that a full spool doesn't take.
pub fn discarded_note(alloc: Global, name: Name) -> Result<Note, NoMemory>
    ensures { IfOk result (λ note. note ≡ note_of (Discarded name)) }
{
    name_note(alloc, b"discarded ", name)
}

/// A message that is too long to be sent or stored.
pub fn too_long_note(alloc: Global, name: Name) -> Result<Note, NoMemory>
    ensures { IfOk result (λ note. note ≡ note_of (TooLong name)) }
{
    name_note(alloc, b"toolong ", name)
}

/// A message that isn't sent since too many are open.
pub fn full_note(alloc: Global, name: Name) -> Result<Note, NoMemory>
    ensures { IfOk result (λ note. note ≡ note_of (Full name)) }
{
    name_note(alloc, b"full ", name)
}

// A note with this text.
fn plain_note(alloc: Global, text: &[u8]) -> Result<Note, NoMemory>
    ensures { IfOk result (λ note. note ≡ plain text.now) }
{
    Ok(Note {
        text: Row::of(alloc, text)?,
        before_change: false,
    })
}

// One that stands before a change of what its end's file keeps.
fn change_note(alloc: Global, text: &[u8]) -> Result<Note, NoMemory>
    ensures { IfOk result (λ note. note ≡ record { text = text.now; before_change = true }) }
{
    Ok(Note {
        text: Row::of(alloc, text)?,
        before_change: true,
    })
}

fn word_note(alloc: Global, front: &[u8], word: &[u8]) -> Result<Note, NoMemory>
    requires front { length front.now ≤ 20 }
    requires word { length word.now ≤ 20 }
    ensures { IfOk result (λ note. note ≡ plain (front.now ++ word.now)) }
{
    let mut head = Head::new();
    put(&mut head, front);
    put(&mut head, word);
    plain_note(alloc, &head)
}

fn number_note(alloc: Global, front: &[u8], number: u64) -> Result<Note, NoMemory>
    requires { length front.now ≤ 20 }
    ensures { IfOk result (λ note. note ≡ plain (front.now ++ decimal number)) }
{
    let mut head = Head::new();
    put(&mut head, front);
    put_number(&mut head, number);
    plain_note(alloc, &head)
}

fn header_note(alloc: Global, front: &[u8], header: &Header) -> Result<Note, NoMemory>
    requires front { length front.now ≤ 20 }
    requires header { Fits header.now }
    ensures { IfOk result (λ note. note ≡ plain (front.now ++ header_text header.now)) }
{
    let mut head = Head::new();
    put(&mut head, front);
    put_hex(&mut head, &header.to_bytes());
    plain_note(alloc, &head)
}

fn name_note(alloc: Global, front: &[u8], name: Name) -> Result<Note, NoMemory>
    requires { length front.now ≤ 20 }
    ensures { IfOk result (λ note. note ≡ plain (front.now ++ name_text name)) }
{
    let mut head = Head::new();
    put(&mut head, front);
    put_name(&mut head, name.stream, name.function, name.wait);
    plain_note(alloc, &head)
}

fn title_note(alloc: Global, front: &[u8], title: Title) -> Result<Note, NoMemory>
    requires { length front.now ≤ 20 }
    ensures { IfOk result (λ note. note ≡ plain (front.now ++ title_text title)) }
{
    let mut head = Head::new();
    put(&mut head, front);
    put_title(&mut head, title);
    plain_note(alloc, &head)
}

fn message_note(alloc: Global, front: &[u8], message: &Message) -> Result<Note, NoMemory>
    requires { length front.now ≤ 20 }
    ensures { IfOk result (λ note. note ≡ plain (front.now ++ message_text message.now)) }
{
    let mut head = Head::new();
    put(&mut head, front);
    put_title(&mut head, Title::of(message));
    put(&mut head, b" ");
    let mut text = Row::of(alloc, &head)?;
    put_body(message.body.as_slice(), &mut text)?;
    Ok(Note {
        text,
        before_change: false,
    })
}

// A note with this head and then the text of a message.
fn body_note(alloc: Global, head: &[u8], body: &[u8]) -> Result<Note, NoMemory>
    ensures { IfOk result (λ note. note ≡ plain (head.now ++ body_text body.now)) }
{
    let mut text = Row::of(alloc, head)?;
    put_body(body, &mut text)?;
    Ok(Note {
        text,
        before_change: false,
    })
}
