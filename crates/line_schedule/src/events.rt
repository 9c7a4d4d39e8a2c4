//! The events that lines of a schedule tell.

ghost use Rattle.std.specs.Prelude.{◌≡◌, IfOk};
ghost use Rattle.line_schedule.specs.Events.{add_in, change_in, choice_in, cut_in, event_in, fill_in, first_in, host_cut_in, host_in, line_event_in, loss_in, lose_in, settle_in, to_in, tool_in, wait_in};
ghost use Rattle.line_schedule.specs.Words.{any_number_in, byte_in, read_side, read_split};

use crate::event::{Event, LONGEST_WAIT};
use crate::host_commands::host_command_in;
use crate::tool_commands::tool_command_in;
use crate::words::{after, after_side, any_number_in, byte_in, is_word, number_in, split_at};
use disk_base::CutChoice;
use gl_base::{NoMemory, Side};
use std::alloc::Global;

/// The event that a line tells.
pub(crate) fn event_in(alloc: Global, line: &[u8]) -> Result<Option<Event>, NoMemory>
    ensures { IfOk result (λ event. event ≡ event_in line.now) }
{
    if let Some(event) = line_event_in(line) {
        return Ok(Some(event));
    }
    if let Some(event) = tool_in(alloc, line)? {
        return Ok(Some(event));
    }
    host_in(alloc, line)
}

/// An event that is no command of an end.
fn line_event_in(line: &[u8]) -> Option<Event>
    ensures { result ≡ line_event_in line.now }
{
    if let Some(event) = to_in(line) {
        return Some(event);
    }
    if let Some(event) = settle_in(line) {
        return Some(event);
    }
    if let Some(event) = wait_in(line) {
        return Some(event);
    }
    if let Some(event) = lose_in(line) {
        return Some(event);
    }
    if let Some(event) = change_in(line) {
        return Some(event);
    }
    if let Some(event) = add_in(line) {
        return Some(event);
    }
    if let Some(event) = cut_in(line) {
        return Some(event);
    }
    host_cut_in(line)
}

/// `to X n`
fn to_in(line: &[u8]) -> Option<Event>
    ensures { result ≡ to_in line.now }
{
    let (side, count) = side_and_number(after(b"to ", line)?)?;
    Some(Event::To(side, count))
}

/// `lose X n`
fn lose_in(line: &[u8]) -> Option<Event>
    ensures { result ≡ lose_in line.now }
{
    let (side, count) = side_and_number(after(b"lose ", line)?)?;
    Some(Event::Lose(side, count))
}

fn side_and_number(text: &[u8]) -> Option<(Side, u32)>
    ensures { result ≡ read_side any_number_in text.now }
{
    let (side, rest) = after_side(text)?;
    let number = any_number_in(rest)?;
    Some((side, number))
}

/// `change X p b`
fn change_in(line: &[u8]) -> Option<Event>
    ensures { result ≡ change_in line.now }
{
    let (side, rest) = after_side(after(b"change ", line)?)?;
    let (place, byte) = place_and_byte(rest)?;
    Some(Event::Change(side, place, byte))
}

fn place_and_byte(text: &[u8]) -> Option<(u32, u8)>
    ensures { result ≡ read_split 32 any_number_in byte_in text.now }
{
    let (place, byte) = split_at(b' ', text)?;
    let place = any_number_in(place)?;
    let byte = byte_in(byte)?;
    Some((place, byte))
}

/// `add X b`
fn add_in(line: &[u8]) -> Option<Event>
    ensures { result ≡ add_in line.now }
{
    let (side, rest) = after_side(after(b"add ", line)?)?;
    let byte = byte_in(rest)?;
    Some(Event::Add(side, byte))
}

/// `settle`
fn settle_in(line: &[u8]) -> Option<Event>
    ensures { result ≡ settle_in line.now }
{
    if is_word(b"settle", line) {
        Some(Event::Settle)
    } else {
        None
    }
}

/// `wait ms`
fn wait_in(line: &[u8]) -> Option<Event>
    ensures { result ≡ wait_in line.now }
{
    let milliseconds = number_in(0, LONGEST_WAIT, after(b"wait ", line)?)?;
    Some(Event::Wait(milliseconds))
}

/// `cut k choice`
fn cut_in(line: &[u8]) -> Option<Event>
    ensures { result ≡ cut_in line.now }
{
    let (call, choice) = loss_in(after(b"cut ", line)?)?;
    Some(Event::Cut(call, choice))
}

/// `hcut k choice`
fn host_cut_in(line: &[u8]) -> Option<Event>
    ensures { result ≡ host_cut_in line.now }
{
    let (call, choice) = loss_in(after(b"hcut ", line)?)?;
    Some(Event::HostCut(call, choice))
}

/// `k choice`
fn loss_in(text: &[u8]) -> Option<(u32, CutChoice)>
    ensures { result ≡ loss_in text.now }
{
    let (call, choice) = split_at(b' ', text)?;
    let call = number_in(1, u32::MAX, call)?;
    let choice = choice_in(choice)?;
    Some((call, choice))
}

/// `old`, `new`, `fill b` or `first n`
fn choice_in(text: &[u8]) -> Option<CutChoice>
    ensures { result ≡ choice_in text.now }
{
    if is_word(b"old", text) {
        return Some(CutChoice::Old);
    }
    if is_word(b"new", text) {
        return Some(CutChoice::New);
    }
    if let Some(choice) = fill_in(text) {
        return Some(choice);
    }
    first_in(text)
}

fn fill_in(text: &[u8]) -> Option<CutChoice>
    ensures { result ≡ fill_in text.now }
{
    let byte = byte_in(after(b"fill ", text)?)?;
    Some(CutChoice::Fill(byte))
}

fn first_in(text: &[u8]) -> Option<CutChoice>
    ensures { result ≡ first_in text.now }
{
    let places = any_number_in(after(b"first ", text)?)?;
    Some(CutChoice::First(u64::from(places)))
}

/// `tool C`
fn tool_in(alloc: Global, line: &[u8]) -> Result<Option<Event>, NoMemory>
    ensures { IfOk result (λ event. event ≡ tool_in line.now) }
{
    let Some(command) = after(b"tool ", line) else {
        return Ok(None);
    };
    match tool_command_in(alloc, command)? {
        Some(command) => Ok(Some(Event::Tool(command))),
        None => Ok(None),
    }
}

/// `host C`
fn host_in(alloc: Global, line: &[u8]) -> Result<Option<Event>, NoMemory>
    ensures { IfOk result (λ event. event ≡ host_in line.now) }
{
    let Some(command) = after(b"host ", line) else {
        return Ok(None);
    };
    match host_command_in(alloc, command)? {
        Some(command) => Ok(Some(Event::Host(command))),
        None => Ok(None),
    }
}
