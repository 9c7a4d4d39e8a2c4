//! What a host notes of its journal.

ghost use Rattle.std.specs.Prelude.{◌≡◌, ℕ, List, IfOk};
ghost use Rattle.trace_log.specs.Log.Happening.{Listed, Listing};
ghost use Rattle.trace_log.specs.Names.{Record};
ghost use Rattle.trace_log.specs.Text.{note_of};

use arrayvec::ArrayVec;
use gl_base::{NoMemory, Row};
use message_flow::Note;
use short_text::{put, put_name, put_number};
use std::alloc::Global;

// Room for what stands in one of them.
type Line = ArrayVec<u8, 128>;

/// Before a message of this stream and function is put into the journal. It is named as one whose reply is awaited.
pub(crate) fn listing_note(
    alloc: Global,
    number: u64,
    stream: u8,
    function: u8,
) -> Result<Note, NoMemory>
    ensures { IfOk result (λ note. (system : ℕ) → (body : List ℕ) → note
        ≡ note_of (Listing number (record { stream = stream; function = function; system = system; body = body }))) }
{
    let mut line = Line::new();
    put(&mut line, b"listing ");
    put_number(&mut line, number);
    put(&mut line, b" ");
    put_name(&mut line, stream, function, true);
    Ok(Note {
        text: Row::of(alloc, &line)?,
        before_change: true,
    })
}

/// A message is in the journal.
pub(crate) fn listed_note(alloc: Global, number: u64) -> Result<Note, NoMemory>
    ensures { IfOk result (λ note. (listed : Record) → note ≡ note_of (Listed number listed)) }
{
    let mut line = Line::new();
    put(&mut line, b"listed ");
    put_number(&mut line, number);
    Ok(Note {
        text: Row::of(alloc, &line)?,
        before_change: false,
    })
}
