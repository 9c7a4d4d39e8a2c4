//! The lines of a step.

ghost use Rattle.std.specs.Prelude.{◌≡◌, ◌++◌, IfOk};
ghost use Rattle.std.specs.List.{flat_map};
ghost use Rattle.message_end.specs.Ends.{printed, wrote};
ghost use Rattle.trace_log.specs.Text.{note_line};

use gl_base::{NoMemory, Row, Side};
use message_end::put_wrote;
use message_flow::{Note, StepOut};
use std::alloc::Global;
use trace_log::put_note;

/// The lines of a step's notes, behind them that of the characters that it has written, and behind all a reply.
pub(crate) fn lines_of_step(
    alloc: Global,
    now: u64,
    side: Side,
    out: &StepOut,
    reply: &[u8],
) -> Result<Row<u8>, NoMemory>
    ensures { IfOk result (λ lines. lines
        ≡ (flat_map (note_line now side) out.now.notes
        ++ flat_map (note_line now side) (printed (wrote out.now.line.items)))
        ++ reply.now) }
{
    let mut lines = lines_of_notes(alloc, now, side, out.notes.as_slice())?;
    put_wrote(alloc, now, side, out.line.as_slice(), &mut lines)?;
    lines.extend(reply)?;
    Ok(lines)
}

/// The lines of notes.
pub(crate) fn lines_of_notes(
    alloc: Global,
    now: u64,
    side: Side,
    notes: &[Note],
) -> Result<Row<u8>, NoMemory>
    ensures { IfOk result (λ lines. lines ≡ flat_map (note_line now side) notes.now) }
{
    let mut lines = Row::new(alloc);
    'notes: for note in notes {
        put_note(now, side, note, &mut lines)?;
    }
    Ok(lines)
}
