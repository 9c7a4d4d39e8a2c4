//! The law that a host's journal lists the spool in order, and runs that meet it or break it.

ghost use Rattle.journal_delivery.specs.Laws.{JournalIsTakenInOrder};
ghost use Rattle.journal_delivery.specs.Worked.{ListsAgain, ListsInItsStep, ListsInTurn, ListsNoneEarly, ListsWhatComes, NeedsListing};
ghost use Rattle.journal_delivery.specs.WorkedNotes.{FindsNothingElse, FindsWhatIsListed};

use delivery::ends_deliver;
use message_flow::messages_go_in_blocks;

/// Where two ends keep their laws, the equipment those of its spool and the host that of its journal, what leaves the
/// spool as confirmed is listed in the journal, and the journal lists what was put into the spool in order: a message
/// that it lists twice counts once, and it skips none that wasn't purged or overwritten. What was being listed as the
/// host lost its power counts where the host finds its number at its next start. That holds whatever becomes of
/// characters, of time and of the power of either end, up to the first slip.
pub fn journal_is_taken_in_order()
    ensures { JournalIsTakenInOrder }
{
    ends_deliver();
}

/// Runs that can be followed by hand. In the first the host loses its power as it lists a report, receives the report
/// again and lists it: all that the law above starts from holds, and the report counts once, whether the host found its
/// record or not. In the second the host answers before it lists: all holds but its own law, and the report is lost. In
/// the third it receives two reports before it lists one, and lists them in the wrong order. In two more it lists
/// another message than it has received, and has listed what it never began to list; in two, it lists one behind the
/// step in which it was received, or behind the characters of that; and a step that ends early is listing none.
pub fn worked_journals()
    ensures again { ListsAgain }
    ensures first { NeedsListing }
    ensures turn { ListsInTurn }
    ensures comes { ListsWhatComes }
    ensures step { ListsInItsStep }
    ensures early { ListsNoneEarly }
{
    messages_go_in_blocks();
}

/// Notes of a host that can be followed by hand. Its power goes as it lists a second report: its next start finds the
/// first, and the second behind it or not, and goes on with its numbers; so it does over a file that held something
/// else before. A start that finds less, more or another order breaks the law, as do numbers that begin anew.
pub fn worked_notes()
    ensures finds { FindsWhatIsListed }
    ensures nothing { FindsNothingElse }
{}
