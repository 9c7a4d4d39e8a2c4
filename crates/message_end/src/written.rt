//! The line of the characters that a step has written.

ghost use Rattle.std.specs.Prelude.{◌≡◌, ◌++◌, OnErr, OnOk};
ghost use Rattle.std.specs.List.{flat_map};
ghost use Rattle.trace_log.specs.Text.{note_line};
ghost use Rattle.message_end.specs.Ends.{printed, wrote};

use gl_base::{NoMemory, Row, Side};
use std::alloc::Global;
use trace_log::{put_note, wrote_note};

/// Puts the line of the characters that a step has written, where there are any.
pub fn put_wrote(
    alloc: Global,
    now: u64,
    side: Side,
    written: &[u8],
    lines: &mut Row<u8>,
) -> Result<(), NoMemory>
    ensures ok { OnOk result (lines.new ≡ lines.old ++ flat_map (note_line now side) (printed (wrote written.now))) }
    ensures err { OnErr result (lines.new ≡ lines.old) }
{
    if written.is_empty() {
        return Ok(());
    }
    let note = wrote_note(alloc, written)?;
    put_note(now, side, &note, lines)
}
