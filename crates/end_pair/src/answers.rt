//! How a run ends, and how a world answers each event of its schedule.

use gl_base::Side;

/// How a run ended.
#[derive(Clone, Copy, Debug, PartialEq, Eq)]
pub enum RunEnd {
    /// The schedule was carried out, and the whole trace was written.
    Whole,
    /// The trace was written up to the first block whose characters are no frame's.
    Slip,
    /// The trace was written up to the last of 4,000,000 steps, and a step was left; or up to a call of an end's disk
    /// that would be more than 65,536 since that was made or lost its power, or would pass 64 MiB that are written.
    Turns,
    /// The trace was written up to the step in which an end was to draw a number and had none.
    NumbersSpent,
    /// The trace was written up to the step in which an end was to list a message in its journal, and that had no room.
    JournalFull,
    /// Memory ran out. A part of the trace from the front was written.
    NoMemory,
    /// The output failed. A part of the trace from the front was written.
    WriteFailed,
}

/// How a world has carried out an event.
#[derive(Clone, Copy, Debug, PartialEq, Eq)]
pub enum WorldStep {
    /// It goes on.
    Went,
    /// A block arrived whose characters are no frame's.
    Slip,
    /// A step was left after the last of 4,000,000, or the disk of an end has no room for a call.
    Turns,
    /// An end was to draw a number, and had none.
    NumbersSpent,
    /// An end was to list a message in its journal, and that had no room.
    JournalFull,
    /// An end has lost its power at a call of its disk. No event ends so.
    PowerLost(Side),
    /// Memory ran out.
    NoMemory,
}
