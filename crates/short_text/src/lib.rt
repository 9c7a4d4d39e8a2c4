//! Text of a bounded length, put together on the stack.
#![tactic(auto)]

ghost use Rattle.std.specs.Prelude.{◌≡◌, ◌+◌, ◌*◌, ◌++◌, ◌<◌, ◌≤◌, decimal, length, slice_index, IfSome};
ghost use Rattle.std.specs.Int.{to_be_bytes, w32};
ghost use Rattle.arrayvec.specs.ArrayVec.{array_vec_len};
ghost use Rattle.hex.specs.Hex.{encode_upper, hex_digit_value, upper_digits};
ghost use Rattle.short_text.specs.Name.{flag, name_of};
ghost use Rattle.short_text.specs.Shown.{hex_byte, shown_text, stands_for_itself};

use arrayvec::ArrayVec;
use itoa::Buffer;

#[cfg(test)]
mod tests;

/// Puts bytes at the end of a line that has room for them.
pub fn put<const N: usize>(line: &mut ArrayVec<u8, N>, text: &[u8])
    requires { array_vec_len line.old + length text.now ≤ N }
    ensures items { line.new.items ≡ line.old.items ++ text.now }
    ensures len { array_vec_len line.new ≡ array_vec_len line.old + length text.now }
{
    line.try_extend_from_slice(text).unwrap();
}

/// Puts a word where its bit is set, at the end of a line that has room for it.
pub fn put_flag<const N: usize>(line: &mut ArrayVec<u8, N>, bit: bool, word: &[u8])
    requires { array_vec_len line.old + length word.now ≤ N }
    ensures items { line.new.items ≡ line.old.items ++ flag bit word.now }
    ensures len { array_vec_len line.new ≤ array_vec_len line.old + length word.now }
{
    if bit {
        put(line, word);
    }
}

/// Puts a number in decimal digits at the end of a line that has room for 20 of them.
pub fn put_number<const N: usize>(line: &mut ArrayVec<u8, N>, number: u64)
    requires { array_vec_len line.old + 20 ≤ N }
    ensures items { line.new.items ≡ line.old.items ++ decimal number }
    ensures len { array_vec_len line.new ≤ array_vec_len line.old + 20 }
{
    if number < 10 {
        line.push(b'0' + number as u8);
        return;
    }
    let mut buffer = Buffer::new();
    put(line, buffer.format(number).as_bytes());
}

/// Puts a message's name at the end of a line that has room for 44 bytes more.
pub fn put_name<const N: usize>(line: &mut ArrayVec<u8, N>, stream: u8, function: u8, wait: bool)
    requires { array_vec_len line.old + 44 ≤ N }
    ensures items { line.new.items ≡ line.old.items ++ name_of stream function wait }
    ensures len { array_vec_len line.new ≤ array_vec_len line.old + 44 }
{
    put(line, b"S");
    put_number(line, u64::from(stream));
    put(line, b"F");
    put_number(line, u64::from(function));
    put_flag(line, wait, b" W");
}

/// Puts each byte as two upper-case hex digits at the end of a line that has room for them.
pub fn put_hex<const N: usize>(line: &mut ArrayVec<u8, N>, bytes: &[u8])
    requires { array_vec_len line.old + 2 * length bytes.now ≤ N }
    ensures items { line.new.items ≡ line.old.items ++ encode_upper bytes.now }
    ensures len { array_vec_len line.new ≡ array_vec_len line.old + 2 * length bytes.now }
{
    for byte in bytes {
        line.push(hex_digit(byte / 16));
        line.push(hex_digit(byte % 16));
    }
}

/// A number of four bytes as eight upper-case hex digits.
pub fn hex_word(word: u32) -> [u8; 8]
    ensures { result ≡ encode_upper (to_be_bytes w32 word) }
{
    let [a, b, c, d] = word.to_be_bytes();
    [
        hex_digit(a / 16),
        hex_digit(a % 16),
        hex_digit(b / 16),
        hex_digit(b % 16),
        hex_digit(c / 16),
        hex_digit(c % 16),
        hex_digit(d / 16),
        hex_digit(d % 16),
    ]
}

/// A byte as two upper-case hex digits.
pub fn hex_byte(byte: u8) -> [u8; 2]
    ensures { result ≡ hex_byte byte }
{
    [hex_digit(byte / 16), hex_digit(byte % 16)]
}

// Whether a byte stands for itself where a text is shown: printable ASCII but the quote and the backslash.
fn stands_for_itself(byte: u8) -> bool
    ensures { result ≡ stands_for_itself byte }
{
    matches!(byte, b' '..=b'~') && byte != b'"' && byte != b'\\'
}

/// Puts a byte of a text as it is, or a backslash, x and two hex digits, at the end of a line that has room for 4
/// bytes.
pub fn put_shown<const N: usize>(line: &mut ArrayVec<u8, N>, byte: u8)
    requires { array_vec_len line.old + 4 ≤ N }
    ensures items { line.new.items ≡ line.old.items ++ shown_text byte }
    ensures len { array_vec_len line.new ≤ array_vec_len line.old + 4 }
{
    if stands_for_itself(byte) {
        line.push(byte);
    } else {
        put(line, b"\\x");
        put(line, &hex_byte(byte));
    }
}

// An upper-case hex digit.
fn hex_digit(value: u8) -> u8
    requires { value < 16 }
    ensures { result ≡ slice_index upper_digits value }
{
    b"0123456789ABCDEF"[value as usize]
}

/// The value of a hex digit, in either case; `None` for every other byte.
pub fn digit_of(byte: u8) -> Option<u8>
    ensures value { result ≡ hex_digit_value byte }
    ensures small { IfSome result (λ digit. digit < 16) }
{
    match byte {
        b'0'..=b'9' => Some(byte - b'0'),
        b'A'..=b'F' => Some(byte - b'A' + 10),
        b'a'..=b'f' => Some(byte - b'a' + 10),
        _ => None,
    }
}
