//! How a run over a link ends, and what was written and sent by then.

/// How the run of an end over a link ended.
#[derive(Clone, Copy, Debug, PartialEq, Eq)]
pub enum Ending {
    /// The script stopped it: no line behind that one was given, and no character of the same answer.
    Stopped,
    /// The peer closed the connection. That has a line, and no line of the script was given upon it.
    Closed,
    /// As many polls were made as it may make, and none of them ended it.
    Turns,
    /// The end needed a number, and had none. The lines of its step were written, and nothing of it was sent.
    NumbersSpent,
    /// The end had no room in its own store for what a step must put there. The lines of that step were written, and
    /// nothing of it was sent.
    Full,
    /// A call of the end's disk failed in a step. The lines of the steps before were written, and of this one what it
    /// had noted by then, as far as memory and the output let it; nothing of it was sent.
    DiskFailed,
    /// A call of the link failed. All lines before it were written; where it was a sending, among them the line of its
    /// characters, of which only a part from the front went out.
    LinkFailed,
    /// The output failed. The lines of the start and of the steps before were written, and a part of those that failed
    /// from the front; nothing of that step was sent.
    WriteFailed,
    /// Memory ran out. What was written and sent till then is a part of the run from the front.
    NoMemory,
}
