//! The lines of a step.

ghost use Rattle.std.specs.Prelude.{◌≡◌, ◌++◌, OnErr, OnOk};
ghost use Rattle.std.specs.List.{flat_map};
ghost use Rattle.message_end.specs.Ends.{printed, wrote};
ghost use Rattle.trace_log.specs.Text.{note_line};
ghost use Rattle.end_pair.specs.Kept.{PutPart};

use gl_base::{NoMemory, Row, Side};
use message_end::put_wrote;
use message_flow::{Note, StepOut};
use std::alloc::Global;
use trace_log::put_note;

/// Puts the lines of a step's notes, and that of the characters that it has written.
pub(crate) fn put_step(
    alloc: Global,
    now: u64,
    side: Side,
    out: &StepOut,
    lines: &mut Row<u8>,
) -> Result<(), NoMemory>
    ensures ok { OnOk result (lines.new
        ≡ lines.old
        ++ (flat_map (note_line now side) out.now.notes
        ++ flat_map (note_line now side) (printed (wrote out.now.line.items)))) }
    ensures err { OnErr result (PutPart
        (flat_map (note_line now side) out.now.notes
        ++ flat_map (note_line now side) (printed (wrote out.now.line.items)))
        lines.old
        lines.new) }
{
    put_notes(now, side, out.notes.as_slice(), lines)?;
    put_wrote(alloc, now, side, out.line.as_slice(), lines)
}

/// Puts the lines of notes.
pub(crate) fn put_notes(
    now: u64,
    side: Side,
    notes: &[Note],
    lines: &mut Row<u8>,
) -> Result<(), NoMemory>
    ensures ok { OnOk result (lines.new ≡ lines.old ++ flat_map (note_line now side) notes.now) }
    ensures err { OnErr result (PutPart (flat_map (note_line now side) notes.now) lines.old lines.new) }
{
    'notes: for note in notes {
        put_note(now, side, note, lines)?;
    }
    Ok(())
}
