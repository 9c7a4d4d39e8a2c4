//! Items from text to hex, and back.

ghost use Rattle.std.specs.Prelude.{◌≡◌, ◌≤◌, ◌++◌, codes, length, string_bytes, IfErr, IfOk, None};
ghost use Rattle.hex.specs.Hex.{encode_upper};
ghost use Rattle.gl_base.specs.Told.{sink_told};
ghost use Rattle.secs_items.specs.Encoding.{encode_fault};
ghost use Rattle.gemline_app.specs.Gemline.{HexAnswers, ItemAnswers, SpellAnswers, WasPrinted, WasSpelled, WasWritten};
ghost use Rattle.gemline_app.specs.Spelling.{refusal_of, spelled_line, text_line};
ghost use Rattle.gemline_app.specs.declared.outcome.Outcome.TheVariants as outcomes;

use crate::hex_input::{HexFault, hex_bytes};
use crate::outcome::Outcome;
use gl_base::{NoMemory, Row, Sink, SinkAnswer, copy_out};
use secs_items::{EncodeFault, Item, ItemFault, decode, encode_into};
use secs_text::{TextFault, print, read};
use std::alloc::Global;

/// Writes a line of hex for an item's text: the bytes of the item, with as few length bytes as can be.
pub(crate) fn spell<W: Sink>(alloc: Global, text: &[u8], out: &mut W) -> Outcome
    requires { length text.now ≤ 1048576 }
    ensures { WasSpelled text.now
        (sink_told W.Sink out.old out.new)
        result }
{
    match spelled(alloc, text) {
        Ok(line) => write_line(line.as_bytes(), out),
        Err(refusal) => refusal,
    }
}

/// Writes a line of text for hex digits: the item that their bytes spell.
pub(crate) fn spell_hex<W: Sink>(alloc: Global, digits: &[u8], out: &mut W) -> Outcome
    ensures { WasPrinted digits.now
        (sink_told W.Sink out.old out.new)
        result }
{
    match printed(alloc, digits) {
        Ok(line) => write_line(line.as_slice(), out),
        Err(refusal) => refusal,
    }
}

// Writes a line.
fn write_line<W: Sink>(line: &[u8], out: &mut W) -> Outcome
    ensures { WasWritten line.now
        (sink_told W.Sink out.old out.new)
        result }
{
    match copy_out(out, line) {
        SinkAnswer::Done => Outcome::Done,
        SinkAnswer::Failed => Outcome::WriteFailed,
    }
}

// The line to write of a text.
fn spelled(alloc: Global, text: &[u8]) -> Result<String, Outcome>
    requires { length text.now ≤ 1048576 }
    ensures { SpellAnswers string_bytes text.now result }
{
    match read(alloc, text) {
        Ok(item) => spelling_of(alloc, &item),
        Err(TextFault::NoMemory) => Err(Outcome::NoMemory),
        Err(TextFault::Syntax { at } | TextFault::Range { at } | TextFault::TooDeep { at }) => {
            Err(Outcome::BadText { at })
        }
    }
}

// The line to write of an item.
fn spelling_of(alloc: Global, item: &Item) -> Result<String, Outcome>
    requires { encode_fault item.now ≡ None }
    ensures ok { IfOk result (λ line. string_bytes line ≡ spelled_line item.now) }
    ensures err { IfErr result (λ refusal. refusal ≡ outcomes.NoMemory) }
{
    let mut bytes = Row::new(alloc);
    match encode_into(item, &mut bytes) {
        Ok(()) => hex_line(alloc, bytes.as_slice()),
        Err(EncodeFault::NoMemory) => Err(Outcome::NoMemory),
        Err(EncodeFault::TooLong { .. } | EncodeFault::TooDeep { .. }) => unreachable!(
            "what stands in a text of 1 MiB has a spelling"
        ),
    }
}

// Bytes in hex, and a newline.
fn hex_line(alloc: Global, bytes: &[u8]) -> Result<String, Outcome>
    ensures ok { IfOk result (λ line. string_bytes line ≡ encode_upper bytes.now ++ codes "\n") }
    ensures err { IfErr result (λ refusal. refusal ≡ outcomes.NoMemory) }
{
    let Ok(mut line) = hex::encode_upper(alloc, bytes) else {
        return Err(Outcome::NoMemory);
    };
    match line.push('\n') {
        Ok(()) => Ok(line),
        Err(_) => Err(Outcome::NoMemory),
    }
}

// The line to write of bytes in hex.
fn printed(alloc: Global, digits: &[u8]) -> Result<Row<u8>, Outcome>
    ensures { HexAnswers digits.now result }
{
    match hex_bytes(alloc, digits) {
        Ok(bytes) => printed_item(alloc, bytes.as_slice()),
        Err(fault) => Err(refusal_of(fault)),
    }
}

// The refusal of an input of hex digits.
fn refusal_of(fault: HexFault) -> Outcome
    ensures { result ≡ refusal_of fault }
{
    match fault {
        HexFault::Break { at } => Outcome::BadHex { at },
        HexFault::NoMemory => Outcome::NoMemory,
    }
}

// The line to write of an item's bytes.
fn printed_item(alloc: Global, bytes: &[u8]) -> Result<Row<u8>, Outcome>
    ensures { ItemAnswers bytes.now result }
{
    match decode(alloc, bytes) {
        Ok(item) => text_of(alloc, &item),
        Err(ItemFault::NoMemory) => Err(Outcome::NoMemory),
        Err(fault) => Err(Outcome::BadItem(fault)),
    }
}

// The text of an item, and a newline.
fn text_of(alloc: Global, item: &Item) -> Result<Row<u8>, Outcome>
    ensures ok { IfOk result (λ line. line ≡ text_line item.now) }
    ensures err { IfErr result (λ refusal. refusal ≡ outcomes.NoMemory) }
{
    let mut line = Row::new(alloc);
    let Ok(()) = print(item, &mut line) else {
        return Err(Outcome::NoMemory);
    };
    match line.push(b'\n') {
        Ok(()) => Ok(line),
        Err(NoMemory) => Err(Outcome::NoMemory),
    }
}
