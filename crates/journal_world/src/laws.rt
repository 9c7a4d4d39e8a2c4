//! What the claims of a log rest on, what a safe log says at each of its entries, and logs that can be followed by
//! hand.

ghost use Rattle.journal_world.specs.Below.{LawsHold};
ghost use Rattle.journal_world.specs.FewCalls.{FewCallsFindRoom};
ghost use Rattle.journal_world.specs.Safe.{HoldsAtEachEntry, SafeLogsHaveSteps, SafeLogsReplyInSteps};
ghost use Rattle.journal_world.specs.Worked.{UnsafeJournals};

use journal_delivery::journal_is_taken_in_order;
use journal_law::{journals_are_kept, journals_write_in_turn};
use line_world::laws_hold;
use setup_law::kept_setup_holds;

/// What the crates below promise of a tool, of a host with a journal, and of a line: all that the claims of a log rest
/// on.
pub(crate) fn journal_laws_hold()
    ensures { LawsHold }
{
    laws_hold();
    journal_is_taken_in_order();
    journals_are_kept();
    journals_write_in_turn();
}

/// What is said of a safe log holds at each of its entries, by all entries up to that one.
pub fn holds_at_each_entry()
    ensures { HoldsAtEachEntry }
{
    kept_setup_holds();
}

/// No step of an end goes on past its moment: between two notes of an end in a safe log that are of two moments, the
/// end has noted that a step has ended, or that it has started.
pub fn steps_are_noted()
    ensures { SafeLogsHaveSteps }
{}

/// Each reply in a safe log goes in the step in which its end has received the primary, and once; so both are noted at
/// the same moment.
pub fn replies_go_in_steps()
    ensures { SafeLogsReplyInSteps }
{}

/// While the disk of the journal makes fewer than 32,768 calls behind a start, and these write less than 32 MiB, those
/// of the step that is asked for among them, a run has a turn left for all that is that disk's.
pub fn few_calls_find_room<E>()
    ensures { FewCallsFindRoom E }
{}

/// Logs that aren't safe: a report leaves the spool as confirmed, and the host hasn't listed it; the host lists the
/// second of two reports alone; and its next start doesn't find what it has listed.
pub fn worked_journals()
    ensures { UnsafeJournals }
{}
