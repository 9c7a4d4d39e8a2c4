//! What is noted of a setup: what a start finds, and that a primary is kept.

ghost use Rattle.std.specs.Prelude.{◌≡◌, ◌≤◌, ◌++◌, true, false, codes, length, decimal, IfOk};
ghost use Rattle.arrayvec.specs.ArrayVec.{array_vec_len};
ghost use Rattle.trace_log.specs.Names.{name_text};

use arrayvec::ArrayVec;
use gl_base::{NoMemory, Row};
use message_flow::Note;
use short_text::{put, put_name, put_number};
use std::alloc::Global;
use trace_log::Name;

// Room for a word, and a name or a number.
type Line = ArrayVec<u8, 72>;

/// A start finds that so many primaries are kept.
pub(crate) fn setup_note(alloc: Global, count: u64) -> Result<Note, NoMemory>
    ensures { IfOk result (λ note. note
        ≡ record { text = codes "setup " ++ decimal count; before_change = false }) }
{
    let mut line = Line::new();
    put(&mut line, b"setup ");
    put_number(&mut line, count);
    note_with(alloc, &line, false)
}

/// Before a primary of this name is kept.
pub(crate) fn keeping_note(alloc: Global, name: Name) -> Result<Note, NoMemory>
    ensures { IfOk result (λ note. note
        ≡ record { text = codes "keeping " ++ name_text name; before_change = true }) }
{
    let mut line = Line::new();
    put(&mut line, b"keeping ");
    put_name(&mut line, name.stream, name.function, name.wait);
    note_with(alloc, &line, true)
}

/// One of this name is kept.
pub(crate) fn kept_note(alloc: Global, name: Name) -> Result<Note, NoMemory>
    ensures { IfOk result (λ note. note
        ≡ record { text = codes "kept " ++ name_text name; before_change = false }) }
{
    let mut line = Line::new();
    put(&mut line, b"kept ");
    put_name(&mut line, name.stream, name.function, name.wait);
    note_with(alloc, &line, false)
}

// A note with this text.
fn note_with(alloc: Global, text: &[u8], before_change: bool) -> Result<Note, NoMemory>
    ensures { IfOk result (λ note. note ≡ record { text = text.now; before_change = before_change }) }
{
    Ok(Note {
        text: Row::of(alloc, text)?,
        before_change,
    })
}
