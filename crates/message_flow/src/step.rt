//! What an end is given in one step, and what it gives. The log and both ends need it, and stand on this crate.

use arrayvec::ArrayVec;
use gl_base::Row;

/// What an end of the link is given in one step.
#[derive(Debug, Drop)]
pub enum NodeInput<'a, C> {
    /// A character came over the line.
    Char(u8),
    /// Time has passed, perhaps up to the moment that the end waits for. A start is followed by one, too.
    Time,
    /// A command of the end's own side.
    Command(&'a C),
}

/// One line of what an end tells of itself, without the moment and the letter of the end.
#[derive(Debug, Drop)]
pub struct Note {
    /// The line's bytes.
    pub text: Row<u8>,
    /// Whether it stands before a change of what its end's file keeps. Where that fails nothing behind this is told.
    pub before_change: bool,
}

/// What an end gives in one step: the characters that it writes, and its notes.
#[derive(Debug, Drop)]
pub struct StepOut {
    /// The characters, in the order in which they go out. Empty as a step begins.
    pub line: ArrayVec<u8, 1024>,
    /// What was noted, the oldest first. Empty as a step begins.
    pub notes: Row<Note>,
}
