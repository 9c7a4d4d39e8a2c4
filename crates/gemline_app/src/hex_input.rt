//! Bytes from pairs of hex digits.

ghost use Rattle.std.specs.Prelude.{◌≡◌, ◌<◌, IfErr, IfOk, IfSome, None};
ghost use Rattle.gemline_app.specs.HexInput.{HexMeans, IsHexBreak, is_gap};
ghost use Rattle.gemline_app.specs.HexReading.{Gives, TakesDigit, after_digit, bytes_from};
ghost use Rattle.gemline_app.specs.declared.hex_input.HexFault.TheVariants as faults;

use gl_base::{NoMemory, Row};
use short_text::digit_of;
use std::alloc::Global;

/// Why an input means no bytes.
#[derive(Clone, Copy, Debug, PartialEq, Eq)]
pub(crate) enum HexFault {
    /// Up to here the input is good, but the byte here can't follow, or the input ends here with half a pair.
    Break { at: usize },
    NoMemory,
}

impl From<NoMemory> for HexFault {
    ghost from_gives = { λ _ e. e ≡ faults.NoMemory };

    fn from(_error: NoMemory) -> HexFault {
        HexFault::NoMemory
    }
}

/// The bytes that an input of hex digits means.
pub(crate) fn hex_bytes(alloc: Global, input: &[u8]) -> Result<Row<u8>, HexFault>
    ensures { Gives result (bytes_from None 0 input.now) }
{
    let mut bytes = Row::new(alloc);
    let mut high = None;
    let mut rest = input;
    'digits: while let Some((byte, after)) = rest.split_first() {
        high = take_digit(&mut bytes, high, *byte, input.len() - rest.len())?;
        rest = after;
    }
    match high {
        None => Ok(bytes),
        Some(_) => Err(HexFault::Break { at: input.len() }),
    }
}

// Takes a byte at a place, behind the first digit of a pair or outside of pairs.
fn take_digit(
    bytes: &mut Row<u8>,
    high: Option<u8>,
    byte: u8,
    at: usize,
) -> Result<Option<u8>, HexFault>
    requires { IfSome high (λ digit. digit < 16) }
    ensures takes { TakesDigit at (after_digit high byte) bytes.old bytes.new result }
    ensures small { IfOk result (λ next. IfSome next (λ digit. digit < 16)) }
{
    if high.is_none() && is_gap(byte) {
        return Ok(None);
    }
    let Some(digit) = digit_of(byte) else {
        return Err(HexFault::Break { at });
    };
    match high {
        None => Ok(Some(digit)),
        Some(high) => {
            bytes.push(16 * high + digit)?;
            Ok(None)
        }
    }
}

// Whether it is a space or a newline.
fn is_gap(byte: u8) -> bool
    ensures { result ≡ is_gap byte }
{
    byte == b' ' || byte == b'\n'
}
