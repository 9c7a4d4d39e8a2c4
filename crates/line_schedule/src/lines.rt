//! The lines of a text.

ghost use Rattle.std.specs.Prelude.{◌≡◌, ◌≢◌, ◌∷◌, ◌<◌, [], length};
ghost use Rattle.line_schedule.specs.Lines.{lines_of};
ghost use Rattle.line_schedule.specs.Reading.{is_passed_over};

use crate::words::place_of;

/// The first line, and what stands behind its end.
pub fn split_line(text: &[u8]) -> (&[u8], &[u8])
    requires { text.now ≢ [] }
    ensures lines { lines_of text.now ≡ result.0.now ∷ lines_of result.1.now }
    ensures shorter { length result.1.now < length text.now }
{
    match place_of(b'\n', text) {
        Some(at) => (&text[..at], &text[at + 1..]),
        None => (text, &[]),
    }
}

/// Whether the line is empty or a comment.
pub fn is_passed_over(line: &[u8]) -> bool
    ensures { result ≡ is_passed_over line.now }
{
    match line.split_first() {
        Some((byte, _)) => *byte == b'#',
        None => true,
    }
}
