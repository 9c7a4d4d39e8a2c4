//! What holds of the spool of the equipment, and of the setup that it keeps.

ghost use Rattle.tool_spool.specs.InPairs.{WorksAreInPairs};
ghost use Rattle.tool_spool.specs.LeavesInStep.{MessagesLeaveInStep};
ghost use Rattle.tool_spool.specs.MadeRoom.{OverwritesForPuts};
ghost use Rattle.tool_spool.specs.SetupKept.{SetupIsKept};
ghost use Rattle.tool_spool.specs.SpoolKept.{SpoolIsKept, SpoolIsKeptFrom};
ghost use Rattle.tool_spool.specs.TriedRuns.{RunsTryInTurn};
ghost use Rattle.tool_spool.specs.WorkedHeld.{KeepsWhatIsHeld};
ghost use Rattle.tool_spool.specs.WorkedPairs.{TellsEachWork};
ghost use Rattle.tool_spool.specs.WorkedRoom.{RoomIsMadeForPuts};
ghost use Rattle.tool_spool.specs.WorkedSteps.{StepsOfCauses};

use equipment_tables::tables_are_looked_back_for;
use setup_store::lists_are_read_as_spelled;
use tool_law::equipment_keeps_the_law;

/// Over all its starts, from an empty spool on, and from whatever a file holds that it is started over, what is stored
/// has room and goes behind all others; what leaves is the oldest, and it leaves once the host has taken it, as the
/// host empties the spool, or as it is overwritten for one that has no room; what is tried is the oldest, and goes out
/// as it was put; and each start finds what stood.
pub fn spool_is_kept()
    ensures notes { SpoolIsKept }
    ensures held { SpoolIsKeptFrom }
{
    tables_are_looked_back_for();
}

/// Over all its starts, from whatever its file holds, each start finds what the start before it found, with each
/// primary that was kept since; the one that was being kept as power was lost may count, and no other. It carries out
/// all of that in order, before anything else. Each change of the setup that is accepted is kept in its step, before
/// its answer.
pub fn setup_is_kept()
    ensures { SetupIsKept }
{
    tables_are_looked_back_for();
    lists_are_read_as_spelled();
}

/// In every run, over all starts: what the equipment notes in a start is of doings that keep the law of an end; in
/// these each try of a message of the spool has new system bytes, and behind a try no block of an earlier one is given
/// to the line.
pub fn runs_try_in_turn()
    ensures { RunsTryInTurn }
{
    equipment_keeps_the_law();
}

/// Examples of a file of an earlier run that holds one message: it is found and purged. An equipment that finds nothing
/// there, or gives its number again, doesn't keep the law.
pub fn worked_held()
    ensures { KeepsWhatIsHeld }
{}

/// In each step there are as many pairs of lines of changes as works of the spool's list, and the n-th pair names the
/// number and the message of the n-th work: a put stands between its `storing` and its `stored`, the removal of the
/// oldest, and that of all, between a `leaving` and a `gone` of the message that stood first. Behind the works no such
/// line is noted any more.
pub fn works_are_in_pairs()
    ensures { WorksAreInPairs }
{
    tables_are_looked_back_for();
}

/// Examples of works with their lines: a put in a full spool that takes the place of the oldest. A purge without its
/// lines, lines without a work, a put under another number or of another message, and a removal that is never done
/// don't go in pairs.
pub fn worked_pairs()
    ensures { TellsEachWork }
{}

/// A message that is overwritten leaves for one that is named and put right behind it, in the same step, or for which
/// one more leaves.
pub fn overwrites_for_puts()
    ensures { OverwritesForPuts }
{
    tables_are_looked_back_for();
}

/// Examples of a full spool: the oldest is overwritten by a report that is put, and two leave for one. Where the report
/// is discarded then, or another is put, or the step ends, the law doesn't hold.
pub fn worked_room()
    ensures { RoomIsMadeForPuts }
{}

/// A message leaves the spool as confirmed in the step that has received its reply, and as purged in the step that has
/// received the request.
pub fn messages_leave_in_step()
    ensures { MessagesLeaveInStep }
{
    tables_are_looked_back_for();
}

/// Examples of messages that leave in the step of their cause, as the law of steps asks for it: a reply confirms, and a
/// request empties the spool. An abort confirms nothing, and neither does a secondary with the W bit, or what came in
/// an earlier step.
pub fn worked_steps()
    ensures { StepsOfCauses }
{}
