//! The law of an end, also where a step stops early, and a run that can be followed by hand.

ghost use Rattle.message_end.specs.Fronts.{StopsAreLawful};
ghost use Rattle.message_end.specs.Laws.{EndsAreLawful, NotesAreRead};
ghost use Rattle.message_end.specs.Worked.{IsSilent};
ghost use Rattle.message_end.specs.WorkedStarts.{StartsNoteSetups};
ghost use Rattle.message_end.specs.WorkedSteps.{StepsOfReplies};

use crate::ends::End;
use line_end::{states_are_kept, steps_are_small};
use message_flow::{messages_go_in_blocks, standing_goes_on, whole_messages_fit};

/// Whatever an end is told to do, in whatever order, what it has done since its start keeps the law of an end: its
/// numbers are fresh; it gives its line the blocks of messages that it has sent, in their order, each once; it writes
/// no frame of a primary to which a block of a reply has come; it replies once to the newest primary with W delivered;
/// what it delivers are the whole messages of the blocks that arrived, each before it does anything else; it drops a
/// message only where T4 has run out. Its line, its notes and its characters are those of what it has done, also where
/// the numbers are spent on the way, and its calls of the line are those of its commands. A primary with a new number
/// is refused a transaction only where there is no room.
pub fn ends_are_lawful<K: Copy>()
    ensures { EndsAreLawful K }
{
    steps_are_small();
    states_are_kept();
    standing_goes_on();
    whole_messages_fit();
    messages_go_in_blocks();
}

/// Wherever a step of an end stops early, what was noted by then is what the end has done by then, lawfully, and its
/// calls of the line are the first ones of the step.
pub fn stops_are_lawful<E: End>()
    ensures { (plan : E.Plan) → (store : E.Store) → E.fits plan → E.holds store
        → StopsAreLawful (E.plan_of plan) (E.did plan) E.takes E.machine }
{}

/// An end that notes lines does and notes the same as one that notes what happens, read line by line.
pub fn notes_are_read<K: Copy, N>()
    ensures { NotesAreRead K N }
{}

/// A host's question whose acknowledgement is lost, and its answer, which can be followed by hand: the question is
/// taken back.
pub fn worked_run()
    ensures { IsSilent }
{}

/// Examples of replies: one goes in the step of its primary, one in the next step, and one twice.
pub fn worked_steps()
    ensures { StepsOfReplies }
{}

/// Examples of starts: two note themselves alone, or their setup and their end behind that; one leaves its end out, one
/// notes something else, and one leaves itself out.
pub fn worked_starts()
    ensures { StartsNoteSetups }
{}
