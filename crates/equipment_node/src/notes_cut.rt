//! The notes of a step up to a work of the disk that failed.

ghost use Rattle.std.specs.Prelude.{◌≡◌, take};
ghost use Rattle.equipment_node.specs.Cut.{cut_at};

use gl_base::Row;
use message_flow::Note;

/// Keeps the notes up to the line before the change with this place among those of the step.
pub(crate) fn cut_notes(notes: &mut Row<Note>, at: usize)
    ensures { notes.new ≡ cut_at at notes.old }
{
    let kept = cut_place(notes.as_slice(), at);
    notes.truncate(kept);
}

// How many notes there are up to that line.
fn cut_place(notes: &[Note], at: usize) -> usize
    ensures { take result notes.now ≡ cut_at at notes.now }
{
    let mut left = at;
    'notes: for i in 0..notes.len() {
        if notes[i].before_change {
            if left == 0 {
                return i + 1;
            }
            left -= 1;
        }
    }
    notes.len()
}
