//! The law that the host takes the spool in order, and logs that meet it or break it.

ghost use Rattle.spool_delivery.specs.Laws.{SpoolIsTakenInOrder};
ghost use Rattle.spool_delivery.specs.Worked.{AreNotKept, BreakOrder, CountsWhatComes, CountsWhatStands, NumbersAgain, PutsWhatIsFound, TakesTwice, UnloadsAfterLoss};

use delivery::ends_deliver;
use message_flow::messages_go_in_blocks;

/// Where two ends keep their laws, and the equipment those of its spool (among them that the first start finds nothing,
/// that a later one finds what stood, and that what leaves as purged or overwritten may), what leaves as confirmed was
/// taken by the host, what goes out with the system bytes of a try, in whichever start, is what was put, and the host
/// takes what was put in order: a message that it may take twice counts once, and it skips none that wasn't purged or
/// overwritten. That holds whatever becomes of characters, of time and of the power of either end, up to the first
/// slip.
pub fn spool_is_taken_in_order()
    ensures { SpoolIsTakenInOrder }
{
    ends_deliver();
}

/// Logs that can be followed by hand: a report goes out twice and counts once; power is lost as a report is put in,
/// which is then lost or found; power is lost in the middle of a purge, which takes the first report and leaves the
/// second; a report is overwritten on its way, and counts once it comes; and a number is given again. Two logs break
/// the order: in one a report comes behind a later one, in the other one is skipped. Four are of a spool that isn't
/// kept: a report is tried with system bytes that have gone out, one is put in before another is stored, one under a
/// number that stands, and one is gone that wasn't leaving. And a run of two ends meets all that the law above starts
/// from: power is lost as a report is put in, and then the first one goes out, is confirmed and leaves.
pub fn worked_logs()
    ensures twice { TakesTwice }
    ensures found { PutsWhatIsFound }
    ensures purge { CountsWhatStands }
    ensures late { CountsWhatComes }
    ensures again { NumbersAgain }
    ensures not_kept { AreNotKept }
    ensures broken { BreakOrder }
    ensures run { UnloadsAfterLoss }
{
    messages_go_in_blocks();
}
