//! Decimal numbers.

ghost use Rattle.std.specs.Prelude.{◌≡◌, ℕ, ◌-◌, ◌*◌, ◌+◌, ◌^◌, ◌<◌, ◌≤◌, length, IfOk, IfSome};
ghost use Rattle.std.specs.Prelude.{◌≤ℤ◌, ◌<ℤ◌, pos, neg_ℤ};
ghost use Rattle.secs_text.specs.declared.text_fault.TextFault.TheVariants as fault;
ghost use Rattle.secs_text.specs.Numbers.{number_view};
ghost use Rattle.secs_text.specs.Reading.{Reads, as_signed, as_unsigned, digits_from, as_u64, magnitude_at, number_at};

use crate::lexing::{begins, syntax};
use crate::text_fault::TextFault;

/// A number's sign and its magnitude, where 64 bits hold that.
#[derive(Clone, Copy)]
pub(crate) struct Number {
    negative: bool,
    magnitude: Option<u64>,
}

impl Number {
    /// The number, where it isn't negative and at most `largest`. A negative 0 is 0.
    pub(crate) fn unsigned(self, largest: u64) -> Option<u64>
        ensures value { result ≡ as_unsigned (largest + 1) (number_view self) }
        ensures small { IfSome result (λ n. n ≤ largest) }
    {
        let magnitude = self.magnitude?;
        if (self.negative && magnitude > 0) || magnitude > largest {
            return None;
        }
        Some(magnitude)
    }

    /// The number, where it is at least `-half` and below `half`.
    pub(crate) fn signed(self, half: u32) -> Option<i64>
        ensures value { result ≡ as_signed half (number_view self) }
        ensures low { IfSome result (λ z. neg_ℤ (pos half) ≤ℤ z) }
        ensures high { IfSome result (λ z. z <ℤ pos half) }
    {
        let value = self.value()?;
        let half = i64::from(half);
        if value < -half || half <= value {
            return None;
        }
        Some(value)
    }

    /// The number, where 64 bits hold it with its sign.
    pub(crate) fn value(self) -> Option<i64>
        ensures { result ≡ as_signed (2 ^ 63) (number_view self) }
    {
        let magnitude = self.magnitude?;
        if self.negative {
            return 0i64.checked_sub_unsigned(magnitude);
        }
        i64::try_from(magnitude).ok()
    }
}

/// A number without leading zeros, and the bytes after it.
#[tactic(auto, unfolding(crate::specs::Reading::number_at))]
pub(crate) fn number_of(bytes: &[u8], total: usize) -> Result<(Number, &[u8]), TextFault>
    requires { length bytes.now ≤ total }
    ensures reads { Reads (λ x. (number_view x.0, x.1.now)) result (number_at total bytes.now) }
    ensures within { IfOk result (λ x. length x.1.now < length bytes.now) }
{
    if begins(b'0', bytes) {
        let zero = Number {
            negative: false,
            magnitude: Some(0),
        };
        return Ok((zero, &bytes[1..]));
    }
    if begins(b'-', bytes) {
        return positive_of(true, &bytes[1..], total);
    }
    positive_of(false, bytes, total)
}

/// Digits of which the first isn't 0.
#[tactic(auto, unfolding(crate::specs::Reading::magnitude_at))]
fn positive_of(negative: bool, bytes: &[u8], total: usize) -> Result<(Number, &[u8]), TextFault>
    requires { length bytes.now ≤ total }
    ensures reads { Reads (λ x. (number_view x.0, x.1.now)) result (magnitude_at negative total bytes.now) }
    ensures within { IfOk result (λ x. length x.1.now < length bytes.now) }
{
    let Some((digit, rest)) = bytes.split_first() else {
        return Err(TextFault::Syntax { at: total });
    };
    if !matches!(*digit, b'1'..=b'9') {
        return Err(syntax(bytes, total));
    }
    let (magnitude, rest) = digits_behind(u64::from(*digit - b'0'), rest);
    let number = Number {
        negative,
        magnitude,
    };
    Ok((number, rest))
}

/// The number that the digits at the front go on to behind `first`, where 64 bits hold it, and the bytes after them.
fn digits_behind(first: u64, bytes: &[u8]) -> (Option<u64>, &[u8])
    ensures value { result.0 ≡ as_u64 (digits_from first bytes.now).0 }
    ensures rest { result.1.now ≡ (digits_from first bytes.now).1 }
    ensures within { length result.1.now ≤ length bytes.now }
{
    let mut value = Some(first);
    let mut rest = bytes;
    while let Some((byte, after)) = rest.split_first() {
        if !byte.is_ascii_digit() {
            return (value, rest);
        }
        value = with_digit(value, *byte - b'0');
        rest = after;
    }
    (value, rest)
}

/// A number with one more digit at its end, where 64 bits hold it.
fn with_digit(value: Option<u64>, digit: u8) -> Option<u64>
    ensures { (n : ℕ) → value ≡ as_u64 n → result ≡ as_u64 (10 * n + digit) }
{
    value?.checked_mul(10)?.checked_add(u64::from(digit))
}
