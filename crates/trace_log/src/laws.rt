//! What holds of all logs.

ghost use Rattle.trace_log.specs.Laws.{NotesAreLines};

/// The lines that a log gains when an end notes something are those of the end's notes.
pub fn notes_are_lines()
    ensures { NotesAreLines }
{}
