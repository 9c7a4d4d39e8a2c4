//! The summary of made rounds.

ghost use Rattle.std.specs.Prelude.{◌≡◌, ◌+◌, ◌++◌, ◌≤◌, length};
ghost use Rattle.arrayvec.specs.ArrayVec.{array_vec_len};
ghost use Rattle.line_world.specs.Make.{counted};
ghost use Rattle.line_world.specs.Making.{summary_text};

use crate::counting::Counts;
use arrayvec::ArrayVec;
use short_text::{put, put_number};

/// The summary of so many rounds with these counts.
pub(crate) fn summary_of(rounds: u32, counts: &Counts) -> ArrayVec<u8, 200>
    ensures { result.items ≡ summary_text rounds counts.now }
{
    let mut text = ArrayVec::new();
    put_count(&mut text, b"rounds ", u64::from(rounds));
    put_count(&mut text, b"\nrx E ", counts.equipment_received);
    put_count(&mut text, b" H ", counts.host_received);
    put_count(&mut text, b"\nreports ", counts.reports);
    put_count(&mut text, b"\nstored ", counts.stored);
    put_count(&mut text, b"\ngone ", counts.gone);
    put_count(&mut text, b"\nstarts ", counts.starts);
    put(&mut text, b"\n");
    text
}

// Puts a word, and a number behind it.
fn put_count<const N: usize>(text: &mut ArrayVec<u8, N>, word: &[u8], number: u64)
    requires { array_vec_len text.old + length word.now + 20 ≤ N }
    ensures items { text.new.items ≡ text.old.items ++ counted word.now number }
    ensures len { array_vec_len text.new ≤ array_vec_len text.old + length word.now + 20 }
{
    put(text, word);
    put_number(text, number);
}
