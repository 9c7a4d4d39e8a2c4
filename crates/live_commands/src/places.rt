//! How far a line goes on as a command.

ghost use Rattle.std.specs.Prelude.{◌≡◌, ◌+◌, ◌-◌, ◌^◌, ◌≤◌, length, IfOk, IfSome};
ghost use Rattle.std.specs.Option.{option_map};
ghost use Rattle.secs_text.specs.Names.{is_blank};
ghost use Rattle.secs_text.specs.Reading.{after_blanks};
ghost use Rattle.live_commands.specs.Places.{alarm_goes, alarm_states, bare_words, behind_space, command_goes, event_goes, is_no_text, number_and, number_goes, setting_goes, terminal_goes, text_goes, word_goes, words_go};

use crate::item_places::{digits_go, item_goes};
use gl_base::NoMemory;
use std::alloc::Global;

/// As far as the command does that goes furthest.
pub(crate) fn command_goes(alloc: Global, line: &[u8]) -> Result<usize, NoMemory>
    ensures { IfOk result (λ at. at ≡ command_goes line.now) }
{
    let set = setting_goes(alloc, line)?;
    let terminal = terminal_goes(alloc, line)?;
    let with_item = set.max(terminal);
    let plain = event_goes(line).max(alarm_goes(line).max(with_item));
    Ok(bare_words_go(line).max(plain))
}

// As far as the word of a command does that goes furthest.
fn bare_words_go(line: &[u8]) -> usize
    ensures { result ≡ words_go bare_words line.now }
{
    let online = word_goes(b"online", line).max(word_goes(b"offline", line));
    let place = word_goes(b"local", line).max(word_goes(b"remote", line));
    let enabled = word_goes(b"enable", line).max(word_goes(b"disable", line));
    enabled.max(online.max(place.max(word_goes(b"stop", line))))
}

// As far as a word goes.
fn word_goes(word: &[u8], text: &[u8]) -> usize
    ensures goes { result ≡ word_goes word.now text.now }
    ensures within { result ≤ length text.now }
{
    let mut goes = 0;
    let mut left = word;
    let mut rest = text;
    'bytes: while let Some((wanted, more_word)) = left.split_first() {
        match rest.split_first() {
            Some((byte, more)) if byte == wanted => {
                goes += 1;
                left = more_word;
                rest = more;
            }
            _ => return goes,
        }
    }
    goes
}

// `event CEID`
fn event_goes(line: &[u8]) -> usize
    ensures { result ≡ event_goes line.now }
{
    match line.strip_prefix(b"event ") {
        Some(number) => 6 + number_goes(u32::MAX, number),
        None => word_goes(b"event ", line),
    }
}

// `alarm ALID set` or `alarm ALID clear`
fn alarm_goes(line: &[u8]) -> usize
    ensures { result ≡ alarm_goes line.now }
{
    match line.strip_prefix(b"alarm ") {
        Some(rest) => 6 + alarm_goes_behind(rest),
        None => word_goes(b"alarm ", line),
    }
}

fn alarm_goes_behind(text: &[u8]) -> usize
    ensures goes { result ≡ number_and (2 ^ 32 - 1) (words_go alarm_states) text.now }
    ensures within { result ≤ length text.now }
{
    let digits = number_goes(u32::MAX, text);
    match behind_space(digits, text) {
        Some(state) => digits + 1 + state_goes(state),
        None => digits,
    }
}

fn state_goes(text: &[u8]) -> usize
    ensures goes { result ≡ words_go alarm_states text.now }
    ensures within { result ≤ length text.now }
{
    word_goes(b"set", text).max(word_goes(b"clear", text))
}

// `set VID ITEM`
fn setting_goes(alloc: Global, line: &[u8]) -> Result<usize, NoMemory>
    ensures { IfOk result (λ at. at ≡ setting_goes line.now) }
{
    let Some(rest) = line.strip_prefix(b"set ") else {
        return Ok(word_goes(b"set ", line));
    };
    let digits = number_goes(u32::MAX, rest);
    match behind_space(digits, rest) {
        Some(item) => Ok(4 + digits + 1 + item_goes(alloc, item)?),
        None => Ok(4 + digits),
    }
}

// `terminal TID ITEM`, where the item is a text
fn terminal_goes(alloc: Global, line: &[u8]) -> Result<usize, NoMemory>
    ensures { IfOk result (λ at. at ≡ terminal_goes line.now) }
{
    let Some(rest) = line.strip_prefix(b"terminal ") else {
        return Ok(word_goes(b"terminal ", line));
    };
    let digits = number_goes(255, rest);
    match behind_space(digits, rest) {
        Some(item) => Ok(9 + digits + 1 + text_goes(alloc, item)?),
        None => Ok(9 + digits),
    }
}

// As far as a number of ten digits at most goes.
fn number_goes(most: u32, text: &[u8]) -> usize
    ensures goes { result ≡ number_goes most text.now }
    ensures within { result ≤ length text.now }
{
    digits_go(
        u128::from(most),
        if text.len() > 10 { &text[..10] } else { text },
    )
}

// What stands behind so many digits and a space.
fn behind_space(digits: usize, text: &[u8]) -> Option<&[u8]>
    requires { digits ≤ length text.now }
    ensures behind { option_map (λ rest. rest.now) result ≡ behind_space digits text.now }
    ensures within { IfSome result (λ rest. digits + 1 + length rest.now ≤ length text.now) }
{
    if digits == 0 {
        return None;
    }
    text[digits..].strip_prefix(b" ")
}

// As far as an A goes.
fn text_goes(alloc: Global, text: &[u8]) -> Result<usize, NoMemory>
    ensures goes { IfOk result (λ at. at ≡ text_goes text.now) }
    ensures within { IfOk result (λ at. at ≤ length text.now) }
{
    let inner = after_blanks(text);
    if is_no_text(inner) {
        return Ok(text.len() - inner.len() + 1);
    }
    item_goes(alloc, text)
}

// Whether `<` and the first letter of another item than an A stand in front.
fn is_no_text(text: &[u8]) -> bool
    ensures { result ≡ is_no_text text.now }
{
    let Some((front, behind)) = text.split_first() else {
        return false;
    };
    match behind.split_first() {
        Some((letter, _)) => *front == b'<' && *letter != b'A',
        None => false,
    }
}

fn after_blanks(text: &[u8]) -> &[u8]
    ensures blanks { result.now ≡ after_blanks text.now }
    ensures within { length result.now ≤ length text.now }
{
    let mut rest = text;
    'blanks: while let Some((byte, more)) = rest.split_first() {
        if !is_blank(*byte) {
            return rest;
        }
        rest = more;
    }
    rest
}

fn is_blank(byte: u8) -> bool
    ensures { result ≡ is_blank byte }
{
    byte == b' ' || byte == b'\t' || byte == b'\r' || byte == b'\n'
}
