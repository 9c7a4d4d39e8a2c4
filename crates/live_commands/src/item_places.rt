//! How far a text goes on as an item.

ghost use Rattle.std.specs.Prelude.{◌≡◌, ◌≤◌, ◌^◌, drop, length, take, IfOk};
ghost use Rattle.secs_text.specs.Reading.{begins, first_text_fault};
ghost use Rattle.live_commands.specs.ItemPlaces.{StandsIn, behind_open, digits_go, front_goes, goes_to_fault, half_of, item_goes, kind_goes, open_name, signed_goes};

use gl_base::NoMemory;
use secs_text::{TextFault, read};
use std::alloc::Global;

/// As far as an item goes.
pub(crate) fn item_goes(alloc: Global, text: &[u8]) -> Result<usize, NoMemory>
    ensures goes { IfOk result (λ at. at ≡ item_goes text.now) }
    ensures within { IfOk result (λ at. at ≤ length text.now) }
{
    match fault_in(alloc, text)? {
        Some(fault) => Ok(goes_to_fault(text, fault)),
        None => Ok(text.len()),
    }
}

// The fault that a text has.
#[tactic(auto, using(crate::proofs::FaultsStand::faults))]
fn fault_in(alloc: Global, text: &[u8]) -> Result<Option<TextFault>, NoMemory>
    ensures fault { IfOk result (λ fault. fault ≡ first_text_fault text.now) }
    ensures within { IfOk result (StandsIn text.now) }
{
    match read(alloc, text) {
        Ok(_) => Ok(None),
        Err(TextFault::NoMemory) => Err(NoMemory),
        Err(fault) => Ok(Some(fault)),
    }
}

fn goes_to_fault(text: &[u8], fault: TextFault) -> usize
    requires { StandsIn text.now (Some fault) }
    ensures goes { result ≡ goes_to_fault text.now (Some fault) }
    ensures within { result ≤ length text.now }
{
    match fault {
        TextFault::Syntax { at } => front_goes(&text[..at]),
        TextFault::Range { at } => at + kind_goes(open_name(&text[..at]), &text[at..]),
        TextFault::TooDeep { at } => at + 1,
        TextFault::NoMemory => text.len(),
    }
}

// As far as a front goes that is one of an item, its numbers aside.
fn front_goes(front: &[u8]) -> usize
    ensures goes { result ≡ front_goes front.now }
    ensures within { result ≤ length front.now }
{
    match front.split_last() {
        Some((last, before)) if *last == b'-' && begins(b'U', open_name(front)) => before.len(),
        _ => front.len(),
    }
}

// What stands behind the last `<` that isn't quoted.
fn open_name(front: &[u8]) -> &[u8]
    ensures { result.now ≡ open_name front.now }
{
    let mut quoted = false;
    let mut name: &[u8] = &[];
    let mut rest = front;
    'bytes: while let Some((byte, more)) = rest.split_first() {
        if *byte == b'"' {
            quoted = !quoted;
        } else if *byte == b'<' && !quoted {
            name = more;
        }
        rest = more;
    }
    name
}

fn begins(wanted: u8, text: &[u8]) -> bool
    ensures { result ≡ begins wanted text.now }
{
    match text.split_first() {
        Some((byte, _)) => *byte == wanted,
        None => false,
    }
}

// As far as a number of the kind of this name goes.
fn kind_goes(name: &[u8], text: &[u8]) -> usize
    ensures goes { result ≡ kind_goes name.now text.now }
    ensures within { result ≤ length text.now }
{
    let Some((letter, behind)) = name.split_first() else {
        return 0;
    };
    let Some((size, _)) = behind.split_first() else {
        return 0;
    };
    let half = half_of(*size);
    if *letter == b'I' {
        signed_goes(half, text)
    } else {
        digits_go(2 * half - 1, text)
    }
}

// Half of how many numbers a kind has, by the digit in its name.
fn half_of(size: u8) -> u128
    ensures is { result ≡ half_of size }
    ensures some { 1 ≤ result }
    ensures few { result ≤ 2 ^ 63 }
{
    match size {
        b'1' => 1 << 7,
        b'2' => 1 << 15,
        b'4' => 1 << 31,
        _ => 1 << 63,
    }
}

fn signed_goes(half: u128, text: &[u8]) -> usize
    requires some { 1 ≤ half }
    requires few { half ≤ 2 ^ 63 }
    ensures goes { result ≡ signed_goes half text.now }
    ensures within { result ≤ length text.now }
{
    match text.split_first() {
        Some((b'-', digits)) => digits_go(half, digits) + 1,
        _ => digits_go(half - 1, text),
    }
}

/// As far as digits go that are a number of at most `most`.
pub(crate) fn digits_go(most: u128, text: &[u8]) -> usize
    requires { most ≤ 2 ^ 64 }
    ensures goes { result ≡ digits_go most 0 text.now }
    ensures within { result ≤ length text.now }
{
    let mut goes = 0;
    let mut number = 0;
    let mut rest = text;
    'digits: while let Some((digit, more)) = rest.split_first() {
        if !digit.is_ascii_digit() {
            return goes;
        }
        number = 10 * number + u128::from(*digit - b'0');
        if number > most {
            return goes;
        }
        goes += 1;
        rest = more;
    }
    goes
}
