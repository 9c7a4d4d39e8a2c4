//! What the host replies to the equipment, and what it reads in a reply.

ghost use Rattle.std.specs.Prelude.{◌≡◌, ◌≤◌, IfOk, IfSome, length};
ghost use Rattle.std.specs.Option.{option_map};
ghost use Rattle.block_codec.specs.Protocol.{longest_text};
ghost use Rattle.secs_items.specs.Spelling.{shortest_spelling};
ghost use Rattle.message_end.specs.Parts.{CarriesAll};
ghost use Rattle.host_node.specs.Host.{is_acceptance, is_full, replies, replies_with};
ghost use Rattle.host_node.specs.Replies.{establishes_item, is_acknowledged, is_commack_zero, is_established_by, is_establishing, is_question, reply_item};

use gl_base::{NoMemory, Row};
use message_end::{MessageEnd, Stop};
use message_flow::{Message, StepOut};
use secs_items::{Item, check};
use std::alloc::Global;
use trace_log::{Name, full_note};

/// How many messages without W may wait.
const MOST_WITHOUT_WAIT: usize = 64;

/// L,0.
const NO_IDENTITY: [u8; 2] = [0x01, 0x00];

/// L,2 of COMMACK 0 and L,0.
const ESTABLISHED: [u8; 7] = [0x01, 0x02, 0x21, 0x01, 0x00, 0x01, 0x00];

/// A code that accepts: B of 00.
const ACCEPTED: [u8; 3] = [0x21, 0x01, 0x00];

/// Replies to a primary, where it asks for that: a primary that the host doesn't know is replied to with function 0.
pub(crate) fn reply(
    alloc: Global,
    core: &mut MessageEnd<()>,
    message: &Message,
    out: &mut StepOut,
) -> Result<(), Stop>
    ensures carries { CarriesAll (replies message.now core.old) core.old out.old core.new out.new result }
    ensures line { out.new.line ≡ out.old.line }
{
    if !message.wait {
        return Ok(());
    }
    let text = reply_text(alloc, message.stream, message.function)?;
    reply_with(alloc, core, message, text, out)
}

// The text of the reply to a primary of this stream and function, where the host knows it.
fn reply_text(alloc: Global, stream: u8, function: u8) -> Result<Option<Row<u8>>, NoMemory>
    ensures text { IfOk result (λ text. text ≡ option_map shortest_spelling (reply_item stream function)) }
    ensures short { IfOk result (λ text. IfSome text (λ bytes. length bytes ≤ longest_text)) }
{
    if is_question(stream, function) {
        return Ok(Some(Row::of(alloc, &NO_IDENTITY)?));
    }
    if is_establishing(stream, function) {
        return Ok(Some(Row::of(alloc, &ESTABLISHED)?));
    }
    if is_acknowledged(stream, function) {
        return Ok(Some(Row::of(alloc, &ACCEPTED)?));
    }
    Ok(None)
}

// Whether it is S1F1.
fn is_question(stream: u8, function: u8) -> bool
    ensures { result ≡ is_question stream function }
{
    stream == 1 && function == 1
}

/// Whether it is S1F13.
pub(crate) fn is_establishing(stream: u8, function: u8) -> bool
    ensures { result ≡ is_establishing stream function }
{
    stream == 1 && function == 13
}

// Whether it is S5F1, S6F5, S6F11 or S10F1.
fn is_acknowledged(stream: u8, function: u8) -> bool
    ensures { result ≡ is_acknowledged stream function }
{
    (stream == 5 && function == 1)
        || (stream == 6 && (function == 5 || function == 11))
        || (stream == 10 && function == 1)
}

// Replies with this text, or with function 0 where there is none; where too many messages wait it is noted so.
fn reply_with(
    alloc: Global,
    core: &mut MessageEnd<()>,
    message: &Message,
    text: Option<Row<u8>>,
    out: &mut StepOut,
) -> Result<(), Stop>
    requires { IfSome text (λ bytes. length bytes ≤ longest_text) }
    ensures carries { CarriesAll (replies_with message.now text core.old) core.old out.old core.new out.new result }
    ensures line { out.new.line ≡ out.old.line }
{
    if is_full(core) {
        let function = if text.is_some() {
            message.function.wrapping_add(1)
        } else {
            0
        };
        let name = Name {
            stream: message.stream,
            function,
            wait: false,
        };
        out.notes.push(full_note(alloc, name)?)?;
        return Ok(());
    }
    match text {
        Some(text) => core.reply(alloc, text, out),
        None => core.abort(alloc, out),
    }
}

/// Whether no more messages without W may wait.
pub(crate) fn is_full(core: &MessageEnd<()>) -> bool
    ensures { result ≡ is_full core.now }
{
    core.without_wait() >= MOST_WITHOUT_WAIT
}

/// Whether a reply is S1F14 with COMMACK 0.
pub(crate) fn is_acceptance(alloc: Global, message: &Message) -> Result<bool, NoMemory>
    ensures { IfOk result (λ is. is ≡ is_acceptance message.now) }
{
    if message.stream == 1 && message.function == 14 {
        return is_established_by(alloc, message.body.as_slice());
    }
    Ok(false)
}

// Whether a body is one item, and has COMMACK 0.
fn is_established_by(alloc: Global, body: &[u8]) -> Result<bool, NoMemory>
    ensures { IfOk result (λ is. is ≡ is_established_by body.now) }
{
    match check(body) {
        Ok(view) => Ok(establishes(&view.item(alloc)?)),
        Err(_) => Ok(false),
    }
}

// Whether an item is L,2 of COMMACK 0 and anything.
fn establishes(item: &Item) -> bool
    ensures { result ≡ establishes_item item.now }
{
    match item {
        Item::L(items) => is_commack_zero(items.as_slice()),
        _ => false,
    }
}

fn is_commack_zero(items: &[Item]) -> bool
    ensures { result ≡ is_commack_zero items.now }
{
    match items {
        [Item::B(code), _] => code.as_slice() == [0].as_slice(),
        _ => false,
    }
}
