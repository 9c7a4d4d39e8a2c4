//! The lines about a spool file: its head, a message in pieces, and a new file.

ghost use Rattle.std.specs.Prelude.{◌≡◌, ◌+◌, ◌*◌, ◌++◌, ◌≤◌, length};
ghost use Rattle.arrayvec.specs.ArrayVec.{array_vec_len};
ghost use Rattle.hex.specs.Hex.{encode_upper};
ghost use Rattle.spool_show.specs.Text.{count_text, formatted_line, head_line, piece_in as piece_of, start_text};
ghost use Rattle.trace_log.specs.Text.{body_text};

use arrayvec::ArrayVec;
use short_text::{put, put_hex, put_name, put_number};
use spool_file::{SLOT_SIZE, SlotHead, area_end};

/// How much of a line is put at once, at most.
pub const LINE: usize = 8300;

/// The line of a new file.
pub type Short = ArrayVec<u8, 100>;

// Where the body stands in a slot.
const BODY: usize = 15;

/// Puts the first line, behind what stands in a page with room for a line.
pub fn put_head_line<const N: usize>(line: &mut ArrayVec<u8, N>, slots: u32, mark: u64, len: u32)
    requires { array_vec_len line.old + 8300 ≤ N }
    ensures { line.new.items ≡ line.old.items ++ head_line slots mark len }
{
    put_count(line, b"spool slots=", u64::from(slots));
    put_count(line, b" mark=", mark);
    put_count(line, b" len=", u64::from(len));
    put(line, b"\n");
}

/// The line of a new file of so many slots.
pub fn formatted_line(slots: u32) -> Short
    requires { slots ≤ 65535 }
    ensures { result.items ≡ formatted_line slots }
{
    let mut line = Short::new();
    put_count(&mut line, b"formatted slots=", u64::from(slots));
    put_count(&mut line, b" bytes=", area_end(slots));
    put(&mut line, b"\n");
    line
}

// Puts a word, and a number behind it.
fn put_count<const N: usize>(line: &mut ArrayVec<u8, N>, word: &[u8], number: u64)
    requires { array_vec_len line.old + length word.now + 20 ≤ N }
    ensures items { line.new.items ≡ line.old.items ++ count_text word.now number }
    ensures len { array_vec_len line.new ≤ array_vec_len line.old + length word.now + 20 }
{
    put(line, word);
    put_number(line, number);
}

/// Puts the line of a message up to where its body goes on in further slots, by the bytes of its first slot.
pub fn put_start<const N: usize>(
    line: &mut ArrayVec<u8, N>,
    head: &SlotHead,
    slot: &[u8; SLOT_SIZE],
)
    requires { array_vec_len line.old + 8300 ≤ N }
    ensures { line.new.items ≡ line.old.items ++ start_text head.now slot.now }
{
    put_number(line, head.number);
    put(line, b" ");
    put_name(line, head.stream, head.function, true);
    put(line, b" ");
    put_body(line, piece_in(head.len, slot));
}

/// Puts a further piece of a body, of which so many bytes are left, by the bytes of its slot.
pub fn put_piece<const N: usize>(line: &mut ArrayVec<u8, N>, left: u32, slot: &[u8; SLOT_SIZE])
    requires { array_vec_len line.old + 8300 ≤ N }
    ensures { line.new.items ≡ line.old.items ++ encode_upper (piece_of left slot.now) }
{
    put_hex(line, piece_in(left, slot));
}

// Of a slot's bytes, those of a body of which so many bytes are left.
fn piece_in(left: u32, slot: &[u8; SLOT_SIZE]) -> &[u8]
    ensures piece { result.now ≡ piece_of left slot.now }
    ensures short { length result.now ≤ 4081 }
{
    let (_, area) = slot.split_at(BODY);
    if (left as usize) < area.len() {
        &area[..left as usize]
    } else {
        area
    }
}

// Puts a body as a trace shows it.
fn put_body<const N: usize>(line: &mut ArrayVec<u8, N>, body: &[u8])
    requires short { length body.now ≤ 4081 }
    requires room { array_vec_len line.old + 8200 ≤ N }
    ensures items { line.new.items ≡ line.old.items ++ body_text body.now }
    ensures len { array_vec_len line.new ≤ array_vec_len line.old + 8162 }
{
    if body.is_empty() {
        put(line, b"-");
    } else {
        put_hex(line, body);
    }
}
