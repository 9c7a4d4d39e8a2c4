//! Numbers in words.

ghost use Rattle.std.specs.Prelude.{◌≡◌, ◌≤◌, IfSome, true};
ghost use Rattle.std.specs.Char.{is_ascii_digit};
ghost use Rattle.std.specs.List.{list_all};
ghost use Rattle.std.specs.Str.Parse.{digits_value};
ghost use Rattle.command_words.specs.Numbers.{as_u32, is_numeral, number_in};

/// The number in a range that one to ten decimal digits are.
pub(crate) fn number_in(least: u32, most: u32, text: &str) -> Option<u32>
    ensures number { result ≡ number_in least most text.now }
    ensures from { IfSome result (λ n. least ≤ n) }
    ensures within { IfSome result (λ n. n ≤ most) }
{
    if !is_numeral(text.as_bytes()) {
        return None;
    }
    let value = value_of(text)?;
    if value < least || value > most {
        return None;
    }
    Some(value)
}

// Whether the text is one to ten decimal digits.
fn is_numeral(text: &[u8]) -> bool
    ensures { result ≡ is_numeral text.now }
{
    !text.is_empty() && text.len() <= 10 && are_digits(text)
}

fn are_digits(text: &[u8]) -> bool
    ensures { result ≡ list_all is_ascii_digit text.now }
{
    text.iter().all(|byte| byte.is_ascii_digit())
}

// The number that decimal digits are, where 32 bits hold it.
fn value_of(digits: &str) -> Option<u32>
    requires { is_numeral digits.now ≡ true }
    ensures { result ≡ as_u32 (digits_value 10 digits.now) }
{
    digits.parse::<u32>().ok()
}
