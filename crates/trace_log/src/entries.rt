//! The lines of a log.

ghost use Rattle.std.specs.Prelude.{◌≡◌, ◌++◌, ◌≤◌, ◌+◌, length, OnErr, OnOk};
ghost use Rattle.arrayvec.specs.ArrayVec.{array_vec_len};
ghost use Rattle.gl_base.specs.Rows.{Grows};
ghost use Rattle.gl_base.specs.Side.{side_letter};
ghost use Rattle.trace_log.specs.Log.Entry.{Ended, Slipped};
ghost use Rattle.trace_log.specs.Text.{entry_text, frame_text, head_text, note_line};

use crate::putting::put_bytes;
use arrayvec::ArrayVec;
use gl_base::{NoMemory, Row, Side};
use message_flow::Note;
use short_text::{put, put_number};

/// Puts the line of a note at the end. Where memory runs out the lines stay as they were.
pub fn put_note(moment: u64, side: Side, note: &Note, lines: &mut Row<u8>) -> Result<(), NoMemory>
    ensures ok { OnOk result (lines.new ≡ lines.old ++ note_line moment side note.now) }
    ensures err { OnErr result (lines.new ≡ lines.old) }
{
    let start = lines.len();
    let done = add_note(moment, side, note, lines);
    if done.is_err() {
        lines.truncate(start);
    }
    done
}

/// Puts the line of a block whose characters are no frame's: the first of them is of this frame, or of none. Where
/// memory runs out the lines stay as they were.
pub fn put_slip(
    moment: u64,
    side: Side,
    frame: Option<u64>,
    characters: &[u8],
    lines: &mut Row<u8>,
) -> Result<(), NoMemory>
    ensures ok { OnOk result (lines.new ≡ lines.old ++ entry_text (Slipped moment side frame characters.now)) }
    ensures err { OnErr result (lines.new ≡ lines.old) }
{
    let before = lines.len();
    let done = add_slip(moment, side, frame, characters, lines);
    if done.is_err() {
        lines.truncate(before);
    }
    done
}

/// Puts the line of the end of a run. Where memory runs out the lines stay as they were.
pub fn put_end(moment: u64, lines: &mut Row<u8>) -> Result<(), NoMemory>
    ensures ok { OnOk result (lines.new ≡ lines.old ++ entry_text (Ended moment)) }
    ensures err { OnErr result (lines.new ≡ lines.old) }
{
    let mut line = ArrayVec::<u8, 32>::new();
    put_number(&mut line, moment);
    put(&mut line, b" end\n");
    lines.extend(&line)
}

fn add_note(moment: u64, side: Side, note: &Note, lines: &mut Row<u8>) -> Result<(), NoMemory>
    ensures ok { OnOk result (lines.new ≡ lines.old ++ note_line moment side note.now) }
    ensures err { OnErr result (Grows lines.old lines.new) }
{
    let mut head = ArrayVec::<u8, 32>::new();
    put_head(&mut head, moment, side);
    lines.extend(&head)?;
    lines.extend(note.text.as_slice())?;
    lines.push(b'\n')
}

fn add_slip(
    moment: u64,
    side: Side,
    frame: Option<u64>,
    characters: &[u8],
    lines: &mut Row<u8>,
) -> Result<(), NoMemory>
    ensures ok { OnOk result (lines.new ≡ lines.old ++ entry_text (Slipped moment side frame characters.now)) }
    ensures err { OnErr result (Grows lines.old lines.new) }
{
    let mut head = ArrayVec::<u8, 64>::new();
    put_head(&mut head, moment, side);
    put(&mut head, b"slip ");
    put_frame(&mut head, frame);
    put(&mut head, b" ");
    lines.extend(&head)?;
    put_bytes(characters, lines)?;
    lines.push(b'\n')
}

// Puts the moment and the end, in at most 23 bytes.
fn put_head<const N: usize>(line: &mut ArrayVec<u8, N>, moment: u64, side: Side)
    requires { array_vec_len line.old + 23 ≤ N }
    ensures items { line.new.items ≡ line.old.items ++ head_text moment side }
    ensures len { array_vec_len line.new ≤ array_vec_len line.old + 23 }
{
    put_number(line, moment);
    put(line, b" ");
    line.push(side_letter(side));
    put(line, b" ");
}

fn side_letter(side: Side) -> u8
    ensures { result ≡ side_letter side }
{
    match side {
        Side::Equipment => b'E',
        Side::Host => b'H',
    }
}

// Puts the number of a frame, or what stands for none.
fn put_frame<const N: usize>(line: &mut ArrayVec<u8, N>, frame: Option<u64>)
    requires { array_vec_len line.old + 20 ≤ N }
    ensures items { line.new.items ≡ line.old.items ++ frame_text frame }
    ensures len { array_vec_len line.new ≤ array_vec_len line.old + 20 }
{
    match frame {
        None => put(line, b"-"),
        Some(frame) => put_number(line, frame),
    }
}
