//! Elements and their text.

ghost use Rattle.std.specs.Prelude.{◌≡◌, ℕ, ◌-◌, ◌*◌, ◌+◌, ◌++◌, ◌<◌, ◌≤◌, ◌^◌, ◌∷◌, List, Result, length, FitsSigned, IfOk, OnErr, OnOk, decimal};
ghost use Rattle.std.specs.Fmt.{signed_decimal};
ghost use Rattle.std.specs.Int.{w8, w16, w32, w64};
ghost use Rattle.std.specs.List.{AllByRecursion};
ghost use Rattle.gl_base.specs.Rows.{Grows};
ghost use Rattle.secs_items.specs.Elements.{IsByte, IsRaw};
ghost use Rattle.secs_text.specs.declared.text_fault.TextFault.{TextFault};
ghost use Rattle.secs_text.specs.declared.text_fault.TextFault.TheVariants as fault;
ghost use Rattle.secs_text.specs.Reading.{Reads, hex_byte_at, hex_bytes_at, signed_at, unsigned_at};
ghost use Rattle.secs_text.specs.Text.{hex_bytes};
ghost use Rattle.short_text.specs.Shown.{hex_byte};

use crate::lexing::hex_digit;
use crate::numbers::number_of;
use crate::text_fault::TextFault;
use gl_base::{NoMemory, Row};
use itoa::Buffer;

/// A form in which elements stand in a text.
pub(crate) trait Form<T> {
    /// The text of an element.
    ghost text: { T → List ℕ };

    /// That the element is a value of its kind: a number within its range, or an array of bytes, each below 256.
    ghost fits: { T → Type 0 };

    /// The element at the front of what is left of so many bytes, and the bytes after it.
    ghost element_at: { ℕ → List ℕ → Result (T × List ℕ) TextFault };

    /// Puts the text of an element at the end.
    fn put(element: T, into: &mut Row<u8>) -> Result<(), NoMemory>
        ensures ok { OnOk result (into.new ≡ into.old ++ text element) }
        ensures err { OnErr result (Grows into.old into.new) }
        ensures fit { fits element };

    /// The element at the front, and the bytes after it. `total` is the text's length.
    fn read(bytes: &[u8], total: usize) -> Result<(T, &[u8]), TextFault>
        requires { length bytes.now ≤ total }
        ensures reads { Reads (λ x. (x.0, x.1.now)) result (element_at total bytes.now) }
        ensures within { IfOk result (λ x. length x.1.now < length bytes.now) };
}

/// Bytes as two hex digits each.
pub(crate) struct Hex;

/// Numbers as decimal digits.
pub(crate) struct Decimal;

const DIGITS: &[u8; 16] = b"0123456789ABCDEF";

impl Form<u8> for Hex {
    ghost text = { hex_byte };

    ghost fits = { IsByte };

    ghost element_at = { hex_byte_at };

    fn put(element: u8, into: &mut Row<u8>) -> Result<(), NoMemory> {
        let high = DIGITS[usize::from(element / 16)];
        let low = DIGITS[usize::from(element % 16)];
        into.extend(&[high, low])
    }

    #[tactic(auto, unfolding(crate::specs::Reading::hex_byte_at))]
    fn read(bytes: &[u8], total: usize) -> Result<(u8, &[u8]), TextFault> {
        let (high, rest) = hex_digit(bytes, total)?;
        let (low, rest) = hex_digit(rest, total)?;
        Ok((16 * high + low, rest))
    }
}

impl Form<[u8; 4]> for Hex {
    ghost text = { hex_bytes };

    ghost fits = { IsRaw 4 };

    ghost element_at = { hex_bytes_at 4 };

    fn put(element: [u8; 4], into: &mut Row<u8>) -> Result<(), NoMemory> {
        put_hex_array(&element, into)
    }

    fn read(bytes: &[u8], total: usize) -> Result<([u8; 4], &[u8]), TextFault> {
        let (a, rest) = hex_byte(bytes, total)?;
        let (b, rest) = hex_byte(rest, total)?;
        let (c, rest) = hex_byte(rest, total)?;
        let (d, rest) = hex_byte(rest, total)?;
        Ok(([a, b, c, d], rest))
    }
}

impl Form<[u8; 8]> for Hex {
    ghost text = { hex_bytes };

    ghost fits = { IsRaw 8 };

    ghost element_at = { hex_bytes_at 8 };

    fn put(element: [u8; 8], into: &mut Row<u8>) -> Result<(), NoMemory> {
        put_hex_array(&element, into)
    }

    fn read(bytes: &[u8], total: usize) -> Result<([u8; 8], &[u8]), TextFault> {
        let (a, rest) = hex_byte(bytes, total)?;
        let (b, rest) = hex_byte(rest, total)?;
        let (c, rest) = hex_byte(rest, total)?;
        let (d, rest) = hex_byte(rest, total)?;
        let (e, rest) = hex_byte(rest, total)?;
        let (f, rest) = hex_byte(rest, total)?;
        let (g, rest) = hex_byte(rest, total)?;
        let (h, rest) = hex_byte(rest, total)?;
        Ok(([a, b, c, d, e, f, g, h], rest))
    }
}

fn hex_byte(bytes: &[u8], total: usize) -> Result<(u8, &[u8]), TextFault>
    requires { length bytes.now ≤ total }
    ensures reads { Reads (λ x. (x.0, x.1.now)) result (hex_byte_at total bytes.now) }
    ensures within { IfOk result (λ x. length x.1.now < length bytes.now) }
{
    <Hex as Form<u8>>::read(bytes, total)
}

/// Puts bytes in hex, one after another, and tells that each is below 256.
fn put_hex(bytes: &[u8], into: &mut Row<u8>) -> Result<(), NoMemory>
    ensures ok { OnOk result (into.new ≡ into.old ++ hex_bytes bytes.now) }
    ensures err { OnErr result (Grows into.old into.new) }
    ensures fit { AllByRecursion IsByte bytes.now }
{
    for byte in bytes {
        <Hex as Form<u8>>::put(*byte, into)?;
    }
    Ok(())
}

/// Puts so many bytes in hex, and tells the same.
fn put_hex_array<const N: usize>(bytes: &[u8; N], into: &mut Row<u8>) -> Result<(), NoMemory>
    ensures ok { OnOk result (into.new ≡ into.old ++ hex_bytes bytes.now) }
    ensures err { OnErr result (Grows into.old into.new) }
    ensures fit { IsRaw N bytes.now }
{
    put_hex(bytes, into)
}

impl Form<u8> for Decimal {
    ghost text = { decimal };

    ghost fits = { IsByte };

    ghost element_at = { unsigned_at 8 };

    fn put(element: u8, into: &mut Row<u8>) -> Result<(), NoMemory> {
        into.extend(Buffer::new().format(element).as_bytes())
    }

    fn read(bytes: &[u8], total: usize) -> Result<(u8, &[u8]), TextFault> {
        let (number, rest) = number_of(bytes, total)?;
        match number.unsigned(u8::MAX.into()) {
            Some(element) => Ok((element as u8, rest)),
            None => Err(out_of_range(bytes, total)),
        }
    }
}

impl Form<u16> for Decimal {
    ghost text = { decimal };

    ghost fits = { λ n. n < 2 ^ 16 };

    ghost element_at = { unsigned_at 16 };

    fn put(element: u16, into: &mut Row<u8>) -> Result<(), NoMemory> {
        into.extend(Buffer::new().format(element).as_bytes())
    }

    fn read(bytes: &[u8], total: usize) -> Result<(u16, &[u8]), TextFault> {
        let (number, rest) = number_of(bytes, total)?;
        match number.unsigned(u16::MAX.into()) {
            Some(element) => Ok((element as u16, rest)),
            None => Err(out_of_range(bytes, total)),
        }
    }
}

impl Form<u32> for Decimal {
    ghost text = { decimal };

    ghost fits = { λ n. n < 2 ^ 32 };

    ghost element_at = { unsigned_at 32 };

    fn put(element: u32, into: &mut Row<u8>) -> Result<(), NoMemory> {
        into.extend(Buffer::new().format(element).as_bytes())
    }

    fn read(bytes: &[u8], total: usize) -> Result<(u32, &[u8]), TextFault> {
        let (number, rest) = number_of(bytes, total)?;
        match number.unsigned(u32::MAX.into()) {
            Some(element) => Ok((element as u32, rest)),
            None => Err(out_of_range(bytes, total)),
        }
    }
}

impl Form<u64> for Decimal {
    ghost text = { decimal };

    ghost fits = { λ n. n < 2 ^ 64 };

    ghost element_at = { unsigned_at 64 };

    fn put(element: u64, into: &mut Row<u8>) -> Result<(), NoMemory> {
        into.extend(Buffer::new().format(element).as_bytes())
    }

    fn read(bytes: &[u8], total: usize) -> Result<(u64, &[u8]), TextFault> {
        let (number, rest) = number_of(bytes, total)?;
        match number.unsigned(u64::MAX) {
            Some(element) => Ok((element, rest)),
            None => Err(out_of_range(bytes, total)),
        }
    }
}

impl Form<i8> for Decimal {
    ghost text = { signed_decimal };

    ghost fits = { FitsSigned w8 };

    ghost element_at = { signed_at 8 };

    fn put(element: i8, into: &mut Row<u8>) -> Result<(), NoMemory> {
        into.extend(Buffer::new().format(element).as_bytes())
    }

    fn read(bytes: &[u8], total: usize) -> Result<(i8, &[u8]), TextFault> {
        let (number, rest) = number_of(bytes, total)?;
        match number.signed(1 << 7) {
            Some(element) => Ok((element as i8, rest)),
            None => Err(out_of_range(bytes, total)),
        }
    }
}

impl Form<i16> for Decimal {
    ghost text = { signed_decimal };

    ghost fits = { FitsSigned w16 };

    ghost element_at = { signed_at 16 };

    fn put(element: i16, into: &mut Row<u8>) -> Result<(), NoMemory> {
        into.extend(Buffer::new().format(element).as_bytes())
    }

    fn read(bytes: &[u8], total: usize) -> Result<(i16, &[u8]), TextFault> {
        let (number, rest) = number_of(bytes, total)?;
        match number.signed(1 << 15) {
            Some(element) => Ok((element as i16, rest)),
            None => Err(out_of_range(bytes, total)),
        }
    }
}

impl Form<i32> for Decimal {
    ghost text = { signed_decimal };

    ghost fits = { FitsSigned w32 };

    ghost element_at = { signed_at 32 };

    fn put(element: i32, into: &mut Row<u8>) -> Result<(), NoMemory> {
        into.extend(Buffer::new().format(element).as_bytes())
    }

    fn read(bytes: &[u8], total: usize) -> Result<(i32, &[u8]), TextFault> {
        let (number, rest) = number_of(bytes, total)?;
        match number.signed(1 << 31) {
            Some(element) => Ok((element as i32, rest)),
            None => Err(out_of_range(bytes, total)),
        }
    }
}

impl Form<i64> for Decimal {
    ghost text = { signed_decimal };

    ghost fits = { FitsSigned w64 };

    ghost element_at = { signed_at 64 };

    fn put(element: i64, into: &mut Row<u8>) -> Result<(), NoMemory> {
        into.extend(Buffer::new().format(element).as_bytes())
    }

    fn read(bytes: &[u8], total: usize) -> Result<(i64, &[u8]), TextFault> {
        let (number, rest) = number_of(bytes, total)?;
        match number.value() {
            Some(element) => Ok((element, rest)),
            None => Err(out_of_range(bytes, total)),
        }
    }
}

/// The number there is outside its kind.
fn out_of_range(number: &[u8], total: usize) -> TextFault
    requires { length number.now ≤ total }
    ensures { result ≡ fault.Range (total - length number.now) }
{
    TextFault::Range {
        at: total - number.len(),
    }
}
