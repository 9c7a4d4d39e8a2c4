//! The law of two lawful ends on one line, with runs that meet what it starts from and one that shows what the silence
//! is for.

ghost use Rattle.delivery.specs.Laws.{EndsDeliver};
ghost use Rattle.delivery.specs.Worked.{ComesTwice, NeedsSilence, OutlivesLoss};

use message_flow::{blocks_make_messages, messages_go_in_blocks};

/// Two ends of which each keeps the law of an end over its own doings deliver over one line, up to the first slip,
/// whatever becomes of characters, of time and of the power of either end. Each message received was sent by the other
/// end, whole; within a start of the receiver none has the system bytes and parity of another; the system bytes of the
/// primaries of an end are new over all its starts; and messages are received in the order of their last blocks.
pub fn ends_deliver()
    ensures { EndsDeliver }
{
    blocks_make_messages();
}

/// Runs that can be followed by hand. Two meet what the law above starts from: one with contention and a yield, a
/// report and a reply of two blocks by turns, and a power loss in the middle of that reply; and one in which two starts
/// of the equipment receive the same question. In the third a primary is written again after a block of its reply was
/// heard, and its sender receives two replies to it: each other law is kept, so it shows what the silence is for.
pub fn worked_runs()
    ensures loss { OutlivesLoss }
    ensures twice { ComesTwice }
    ensures silence { NeedsSilence }
{
    messages_go_in_blocks();
}
