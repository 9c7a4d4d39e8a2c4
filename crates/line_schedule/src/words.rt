//! The words of a line.

ghost use Rattle.std.specs.Prelude.{◌≡◌, ◌<◌, ◌≤◌, ◌==◌, ◌+◌, ◌*◌, ℕ, length, bytes_eq, true, IfSome};
ghost use Rattle.std.specs.Char.{is_ascii_digit};
ghost use Rattle.std.specs.List.{list_all, position};
ghost use Rattle.std.specs.Option.{option_copied, option_map};
ghost use Rattle.line_schedule.specs.Words.{after, after_side, any_number_in, as_u32, byte_in, is_numeral, number_in, split_at, value_of};

use gl_base::Side;
use short_text::digit_of;

/// What stands behind these bytes at the front.
pub(crate) fn after<'a>(front: &[u8], text: &'a [u8]) -> Option<&'a [u8]>
    ensures { option_copied result ≡ after front.now text.now }
{
    text.strip_prefix(front)
}

/// Where the first such byte stands.
pub fn place_of(wanted: u8, text: &[u8]) -> Option<usize>
    ensures place { result ≡ position (λ b. b == wanted) text.now }
    ensures within { IfSome result (λ at. at < length text.now) }
{
    text.iter().position(|byte| *byte == wanted)
}

/// What stands before the first such byte and what behind it.
pub(crate) fn split_at(wanted: u8, text: &[u8]) -> Option<(&[u8], &[u8])>
    ensures { option_map (λ x. (x.0.now, x.1.now)) result ≡ split_at wanted text.now }
{
    let at = place_of(wanted, text)?;
    Some((&text[..at], &text[at + 1..]))
}

/// Whether the text is this word.
pub fn is_word(word: &[u8], text: &[u8]) -> bool
    ensures { result ≡ bytes_eq text.now word.now }
{
    text == word
}

fn are_digits(text: &[u8]) -> bool
    ensures { result ≡ list_all is_ascii_digit text.now }
{
    text.iter().all(|byte| byte.is_ascii_digit())
}

/// Whether the text is one to ten decimal digits.
fn is_numeral(text: &[u8]) -> bool
    ensures { result ≡ is_numeral text.now }
{
    !text.is_empty() && text.len() <= 10 && are_digits(text)
}

/// The value of decimal digits, where 32 bits hold it.
fn value_of(digits: &[u8]) -> Option<u32>
    requires { list_all is_ascii_digit digits.now ≡ true }
    ensures { result ≡ as_u32 (value_of digits.now) }
{
    let mut value = Some(0);
    for digit in digits {
        value = with_digit(value, *digit - b'0');
    }
    value
}

/// A number with one more digit at its end, where 32 bits hold it.
fn with_digit(value: Option<u32>, digit: u8) -> Option<u32>
    ensures { (n : ℕ) → value ≡ as_u32 n → result ≡ as_u32 (10 * n + digit) }
{
    value?.checked_mul(10)?.checked_add(u32::from(digit))
}

/// The number in a range that one to ten decimal digits are.
pub fn number_in(least: u32, most: u32, text: &[u8]) -> Option<u32>
    ensures number { result ≡ number_in least most text.now }
    ensures from { IfSome result (λ n. least ≤ n) }
    ensures within { IfSome result (λ n. n ≤ most) }
{
    if !is_numeral(text) {
        return None;
    }
    let value = value_of(text)?;
    if value < least || value > most {
        return None;
    }
    Some(value)
}

/// A number of 32 bits.
pub(crate) fn any_number_in(text: &[u8]) -> Option<u32>
    ensures { result ≡ any_number_in text.now }
{
    number_in(0, u32::MAX, text)
}

/// The number in a range of 8 bits.
pub(crate) fn small_number_in(least: u8, most: u8, text: &[u8]) -> Option<u8>
    ensures { result ≡ number_in least most text.now }
{
    let number = number_in(u32::from(least), u32::from(most), text)?;
    Some(number as u8)
}

/// The byte that two hex digits mean, in either case.
pub(crate) fn byte_in(text: &[u8]) -> Option<u8>
    ensures { result ≡ byte_in text.now }
{
    if text.len() != 2 {
        return None;
    }
    let high = digit_of(text[0])?;
    let low = digit_of(text[1])?;
    Some(16 * high + low)
}

/// The end that a letter names, and what stands behind the letter and a space.
pub(crate) fn after_side(text: &[u8]) -> Option<(Side, &[u8])>
    ensures { option_map (λ x. (x.0, x.1.now)) result ≡ after_side text.now }
{
    if let Some(rest) = after(b"E ", text) {
        return Some((Side::Equipment, rest));
    }
    let rest = after(b"H ", text)?;
    Some((Side::Host, rest))
}
