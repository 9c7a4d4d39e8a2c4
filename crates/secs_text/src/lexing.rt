//! Blanks, single characters and names.

ghost use Rattle.std.specs.Prelude.{◌≡◌, ◌↔◌, ◌-◌, ◌<◌, ◌≤◌, length, IfOk, IsTrue, true};
ghost use Rattle.secs_text.specs.declared.text_fault.TextFault.TheVariants as fault;
ghost use Rattle.hex.specs.Hex.{hex_digit_value};
ghost use Rattle.secs_text.specs.Names.{is_blank};
ghost use Rattle.short_text.specs.Shown.{stands_for_itself};
ghost use Rattle.secs_text.specs.Nexts.{next_view, next_rest};
ghost use Rattle.secs_text.specs.Reading.{Reads, after_blanks, after_byte, after_end, after_space, after_word, begins, binary_at, byte_in, element_next, float_kind, integer_kind, kind_at, name_at, unsigned_kind};

use crate::text_fault::TextFault;
use secs_items::Kind;
use short_text::digit_of;

/// What stands at a place in a run of elements.
#[derive(Clone, Copy)]
pub(crate) enum Next<'a> {
    /// The end, with the bytes after it.
    End(&'a [u8]),
    /// An element.
    Element(&'a [u8]),
}

/// No text has what stands at the front of the rest.
pub(crate) fn syntax(rest: &[u8], total: usize) -> TextFault
    requires { length rest.now ≤ total }
    ensures { result ≡ fault.Syntax (total - length rest.now) }
{
    TextFault::Syntax {
        at: total - rest.len(),
    }
}

fn is_blank(byte: u8) -> bool
    ensures { result ≡ is_blank byte }
{
    matches!(byte, b' ' | b'\t' | b'\r' | b'\n')
}

/// Whether a byte stands for itself between quotes.
pub(crate) fn stands_for_itself(byte: u8) -> bool
    ensures { result ≡ stands_for_itself byte }
{
    matches!(byte, b' '..=b'~') && byte != b'"' && byte != b'\\'
}

pub(crate) fn begins(wanted: u8, bytes: &[u8]) -> bool
    ensures { result ≡ begins wanted bytes.now }
{
    match bytes.split_first() {
        Some((byte, _)) => *byte == wanted,
        None => false,
    }
}

/// What is left after the blanks at the front.
pub(crate) fn skip_blanks(bytes: &[u8]) -> &[u8]
    ensures skipped { result.now ≡ after_blanks bytes.now }
    ensures within { length result.now ≤ length bytes.now }
{
    let mut rest = bytes;
    while let Some((byte, after)) = rest.split_first() {
        if !is_blank(*byte) {
            return rest;
        }
        rest = after;
    }
    rest
}

/// What is left after some blanks.
pub(crate) fn skip_space(bytes: &[u8], total: usize) -> Result<&[u8], TextFault>
    requires { length bytes.now ≤ total }
    ensures reads { Reads (λ rest. rest.now) result (after_space total bytes.now) }
    ensures within { IfOk result (λ rest. length rest.now ≤ length bytes.now) }
{
    let rest = skip_blanks(bytes);
    if rest.len() == bytes.len() {
        return Err(syntax(bytes, total));
    }
    Ok(rest)
}

/// What is left after this byte.
pub(crate) fn expect(wanted: u8, bytes: &[u8], total: usize) -> Result<&[u8], TextFault>
    requires { length bytes.now ≤ total }
    ensures reads { Reads (λ rest. rest.now) result (after_byte wanted total bytes.now) }
    ensures within { IfOk result (λ rest. length rest.now < length bytes.now) }
{
    let Some((byte, rest)) = bytes.split_first() else {
        return Err(TextFault::Syntax { at: total });
    };
    if *byte != wanted {
        return Err(syntax(bytes, total));
    }
    Ok(rest)
}

/// What is left after any blanks and `>`.
pub(crate) fn expect_end(bytes: &[u8], total: usize) -> Result<&[u8], TextFault>
    requires { length bytes.now ≤ total }
    ensures reads { Reads (λ rest. rest.now) result (after_end total bytes.now) }
    ensures within { IfOk result (λ rest. length rest.now < length bytes.now) }
{
    expect(b'>', skip_blanks(bytes), total)
}

/// What is left after these bytes.
fn expect_word<'a>(word: &[u8], bytes: &'a [u8], total: usize) -> Result<&'a [u8], TextFault>
    requires { length bytes.now ≤ total }
    ensures reads { Reads (λ rest. rest.now) result (after_word word.now total bytes.now) }
    ensures within { IfOk result (λ rest. length rest.now ≤ length bytes.now) }
{
    let mut rest = bytes;
    for byte in word {
        rest = expect(*byte, rest, total)?;
    }
    Ok(rest)
}

/// The value of one hex digit, in either case.
pub(crate) fn hex_digit(bytes: &[u8], total: usize) -> Result<(u8, &[u8]), TextFault>
    requires { length bytes.now ≤ total }
    ensures reads { Reads (λ x. (x.0, x.1.now)) result (byte_in hex_digit_value total bytes.now) }
    ensures within { IfOk result (λ x. length x.1.now < length bytes.now) }
    ensures small { IfOk result (λ x. x.0 < 16) }
{
    let Some((digit, rest)) = bytes.split_first() else {
        return Err(TextFault::Syntax { at: total });
    };
    match digit_of(*digit) {
        Some(value) => Ok((value, rest)),
        None => Err(syntax(bytes, total)),
    }
}

/// `>` after any blanks, or an element after some.
#[tactic(auto, unfolding(crate::specs::Reading::element_next))]
pub(crate) fn next_element(bytes: &[u8], total: usize) -> Result<Next<'_>, TextFault>
    requires { length bytes.now ≤ total }
    ensures reads { Reads next_view result (element_next total bytes.now) }
    ensures within { IfOk result (λ next. length (next_rest next) < length bytes.now) }
{
    let rest = skip_blanks(bytes);
    if begins(b'>', rest) {
        return Ok(Next::End(&rest[1..]));
    }
    if rest.len() == bytes.len() {
        return Err(syntax(bytes, total));
    }
    Ok(Next::Element(rest))
}

/// `<` and the name of a kind.
#[tactic(auto, unfolding(crate::specs::Reading::kind_at))]
pub(crate) fn kind_of(bytes: &[u8], total: usize) -> Result<(Kind, &[u8]), TextFault>
    requires { length bytes.now ≤ total }
    ensures reads { Reads (λ x. (x.0, x.1.now)) result (kind_at total bytes.now) }
    ensures within { IfOk result (λ x. length x.1.now < length bytes.now) }
{
    let name = expect(b'<', bytes, total)?;
    named_kind(name, total)
}

#[tactic(auto, unfolding(crate::specs::Reading::name_at))]
fn named_kind(bytes: &[u8], total: usize) -> Result<(Kind, &[u8]), TextFault>
    requires { length bytes.now ≤ total }
    ensures reads { Reads (λ x. (x.0, x.1.now)) result (name_at total bytes.now) }
    ensures within { IfOk result (λ x. length x.1.now ≤ length bytes.now) }
{
    let Some((letter, rest)) = bytes.split_first() else {
        return Err(TextFault::Syntax { at: total });
    };
    match *letter {
        b'L' => Ok((Kind::L, rest)),
        b'A' => Ok((Kind::A, rest)),
        b'J' => Ok((Kind::J, rest)),
        b'B' => binary_kind(rest, total),
        b'I' => integer_kind(rest, total),
        b'U' => unsigned_kind(rest, total),
        b'F' => float_kind(rest, total),
        _ => Err(syntax(bytes, total)),
    }
}

/// B or BOOLEAN, behind the B.
#[tactic(auto, unfolding(crate::specs::Reading::binary_at))]
fn binary_kind(bytes: &[u8], total: usize) -> Result<(Kind, &[u8]), TextFault>
    requires { length bytes.now ≤ total }
    ensures reads { Reads (λ x. (x.0, x.1.now)) result (binary_at total bytes.now) }
    ensures within { IfOk result (λ x. length x.1.now ≤ length bytes.now) }
{
    if begins(b'O', bytes) {
        let rest = expect_word(b"OOLEAN", bytes, total)?;
        return Ok((Kind::Bool, rest));
    }
    Ok((Kind::B, bytes))
}

fn integer_kind(bytes: &[u8], total: usize) -> Result<(Kind, &[u8]), TextFault>
    requires { length bytes.now ≤ total }
    ensures reads { Reads (λ x. (x.0, x.1.now)) result (byte_in integer_kind total bytes.now) }
    ensures within { IfOk result (λ x. length x.1.now ≤ length bytes.now) }
{
    let Some((digit, rest)) = bytes.split_first() else {
        return Err(TextFault::Syntax { at: total });
    };
    match *digit {
        b'1' => Ok((Kind::I1, rest)),
        b'2' => Ok((Kind::I2, rest)),
        b'4' => Ok((Kind::I4, rest)),
        b'8' => Ok((Kind::I8, rest)),
        _ => Err(syntax(bytes, total)),
    }
}

fn unsigned_kind(bytes: &[u8], total: usize) -> Result<(Kind, &[u8]), TextFault>
    requires { length bytes.now ≤ total }
    ensures reads { Reads (λ x. (x.0, x.1.now)) result (byte_in unsigned_kind total bytes.now) }
    ensures within { IfOk result (λ x. length x.1.now ≤ length bytes.now) }
{
    let Some((digit, rest)) = bytes.split_first() else {
        return Err(TextFault::Syntax { at: total });
    };
    match *digit {
        b'1' => Ok((Kind::U1, rest)),
        b'2' => Ok((Kind::U2, rest)),
        b'4' => Ok((Kind::U4, rest)),
        b'8' => Ok((Kind::U8, rest)),
        _ => Err(syntax(bytes, total)),
    }
}

fn float_kind(bytes: &[u8], total: usize) -> Result<(Kind, &[u8]), TextFault>
    requires { length bytes.now ≤ total }
    ensures reads { Reads (λ x. (x.0, x.1.now)) result (byte_in float_kind total bytes.now) }
    ensures within { IfOk result (λ x. length x.1.now ≤ length bytes.now) }
{
    let Some((digit, rest)) = bytes.split_first() else {
        return Err(TextFault::Syntax { at: total });
    };
    match *digit {
        b'4' => Ok((Kind::F4, rest)),
        b'8' => Ok((Kind::F8, rest)),
        _ => Err(syntax(bytes, total)),
    }
}
