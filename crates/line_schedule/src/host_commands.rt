//! What the host is told by its user.

ghost use Rattle.std.specs.Prelude.{◌≡◌, codes, IfOk};
ghost use Rattle.line_schedule.specs.Commands.{function_in, host_command_in, message_name_in, sending_in, wait_and_body_in};
ghost use Rattle.line_schedule.specs.Items.{body_in};
ghost use Rattle.line_schedule.specs.Words.{read_after};

use crate::items::body_in;
use crate::words::{after, is_word, small_number_in, split_at};
use gl_base::{NoMemory, Row};
use std::alloc::Global;
use trace_log::HostCommand;

/// The command of the host that the text is.
pub(crate) fn host_command_in(alloc: Global, text: &[u8]) -> Result<Option<HostCommand>, NoMemory>
    ensures { IfOk result (λ command. command ≡ host_command_in text.now) }
{
    if is_word(b"enable", text) {
        return Ok(Some(HostCommand::Enable));
    }
    if is_word(b"disable", text) {
        return Ok(Some(HostCommand::Disable));
    }
    sending_in(alloc, text)
}

/// `send SxFy W BODY` or `send SxFy BODY`
fn sending_in(alloc: Global, text: &[u8]) -> Result<Option<HostCommand>, NoMemory>
    ensures { IfOk result (λ command. command ≡ sending_in text.now) }
{
    let Some(rest) = after(b"send ", text) else {
        return Ok(None);
    };
    let Some((name, rest)) = split_at(b' ', rest) else {
        return Ok(None);
    };
    let Some((stream, function)) = message_name_in(name) else {
        return Ok(None);
    };
    match wait_and_body_in(alloc, rest)? {
        Some((wait, body)) => Ok(Some(HostCommand::Send {
            stream,
            function,
            wait,
            body,
        })),
        None => Ok(None),
    }
}

/// `SxFy` of a primary message
fn message_name_in(text: &[u8]) -> Option<(u8, u8)>
    ensures { result ≡ message_name_in text.now }
{
    let (stream, function) = split_at(b'F', after(b"S", text)?)?;
    let stream = small_number_in(1, 127, stream)?;
    let function = function_in(function)?;
    Some((stream, function))
}

fn function_in(text: &[u8]) -> Option<u8>
    ensures { result ≡ function_in text.now }
{
    let function = small_number_in(0, 255, text)?;
    if function % 2 == 1 {
        Some(function)
    } else {
        None
    }
}

/// A body, with `W ` in front where a reply is waited for.
fn wait_and_body_in(alloc: Global, text: &[u8]) -> Result<Option<(bool, Row<u8>)>, NoMemory>
    ensures { IfOk result (λ x. x ≡ wait_and_body_in text.now) }
{
    if let Some(body) = body_in(alloc, text)? {
        return Ok(Some((false, body)));
    }
    match waiting_body_in(alloc, text)? {
        Some(body) => Ok(Some((true, body))),
        None => Ok(None),
    }
}

fn waiting_body_in(alloc: Global, text: &[u8]) -> Result<Option<Row<u8>>, NoMemory>
    ensures { IfOk result (λ body. body ≡ read_after (codes "W ") body_in text.now) }
{
    match after(b"W ", text) {
        Some(body) => body_in(alloc, body),
        None => Ok(None),
    }
}
