//! What the tool tells the equipment.

ghost use Rattle.std.specs.Prelude.{◌≡◌, IfOk};
ghost use Rattle.line_schedule.specs.Commands.{alarm_in, alarm_state_in, bare_tool_command_in, plain_tool_command_in, setting_in, terminal_in, tool_command_in, tool_event_in};

use crate::items::{item_in, text_in};
use crate::words::{after, any_number_in, is_word, small_number_in, split_at};
use gl_base::NoMemory;
use std::alloc::Global;
use trace_log::ToolCommand;

/// The command of the tool that the text is.
pub(crate) fn tool_command_in(alloc: Global, text: &[u8]) -> Result<Option<ToolCommand>, NoMemory>
    ensures { IfOk result (λ command. command ≡ tool_command_in text.now) }
{
    if let Some(command) = plain_tool_command_in(text) {
        return Ok(Some(command));
    }
    if let Some(command) = setting_in(alloc, text)? {
        return Ok(Some(command));
    }
    terminal_in(alloc, text)
}

/// A command without an item.
fn plain_tool_command_in(text: &[u8]) -> Option<ToolCommand>
    ensures { result ≡ plain_tool_command_in text.now }
{
    if let Some(command) = bare_tool_command_in(text) {
        return Some(command);
    }
    if let Some(command) = tool_event_in(text) {
        return Some(command);
    }
    alarm_in(text)
}

fn bare_tool_command_in(text: &[u8]) -> Option<ToolCommand>
    ensures { result ≡ bare_tool_command_in text.now }
{
    if is_word(b"enable", text) {
        return Some(ToolCommand::Enable);
    }
    if is_word(b"disable", text) {
        return Some(ToolCommand::Disable);
    }
    if is_word(b"online", text) {
        return Some(ToolCommand::Online);
    }
    if is_word(b"offline", text) {
        return Some(ToolCommand::Offline);
    }
    if is_word(b"local", text) {
        return Some(ToolCommand::Local);
    }
    if is_word(b"remote", text) {
        return Some(ToolCommand::Remote);
    }
    None
}

/// `event CEID`
fn tool_event_in(text: &[u8]) -> Option<ToolCommand>
    ensures { result ≡ tool_event_in text.now }
{
    let event = any_number_in(after(b"event ", text)?)?;
    Some(ToolCommand::Event(event))
}

/// `alarm ALID set` or `alarm ALID clear`
fn alarm_in(text: &[u8]) -> Option<ToolCommand>
    ensures { result ≡ alarm_in text.now }
{
    let (alarm, state) = split_at(b' ', after(b"alarm ", text)?)?;
    let alarm = any_number_in(alarm)?;
    let is_set = alarm_state_in(state)?;
    Some(ToolCommand::Alarm(alarm, is_set))
}

fn alarm_state_in(text: &[u8]) -> Option<bool>
    ensures { result ≡ alarm_state_in text.now }
{
    if is_word(b"set", text) {
        return Some(true);
    }
    if is_word(b"clear", text) {
        return Some(false);
    }
    None
}

/// `set VID ITEM`
fn setting_in(alloc: Global, text: &[u8]) -> Result<Option<ToolCommand>, NoMemory>
    ensures { IfOk result (λ command. command ≡ setting_in text.now) }
{
    let Some(rest) = after(b"set ", text) else {
        return Ok(None);
    };
    let Some((variable, item)) = split_at(b' ', rest) else {
        return Ok(None);
    };
    let Some(variable) = any_number_in(variable) else {
        return Ok(None);
    };
    match item_in(alloc, item)? {
        Some(item) => Ok(Some(ToolCommand::Set(variable, item))),
        None => Ok(None),
    }
}

/// `terminal TID ITEM`, where the item is a text
fn terminal_in(alloc: Global, text: &[u8]) -> Result<Option<ToolCommand>, NoMemory>
    ensures { IfOk result (λ command. command ≡ terminal_in text.now) }
{
    let Some(rest) = after(b"terminal ", text) else {
        return Ok(None);
    };
    let Some((terminal, item)) = split_at(b' ', rest) else {
        return Ok(None);
    };
    let Some(terminal) = small_number_in(0, 255, terminal) else {
        return Ok(None);
    };
    match text_in(alloc, item)? {
        Some(bytes) => Ok(Some(ToolCommand::Terminal(terminal, bytes))),
        None => Ok(None),
    }
}
