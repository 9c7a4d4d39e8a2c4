//! That the equipment keeps the law of an end, and what its steps draw.

ghost use Rattle.tool_law.specs.Laws.{EquipmentKeepsItsLaw};
ghost use Rattle.tool_law.specs.SpentSteps.{DrawsFew, SpentByCause};
ghost use Rattle.tool_law.specs.WorkedSpent.{NumbersEnd};

/// Whatever the equipment is told in its steps, it keeps the law of an end, as the host does: what a world of two such
/// ends delivers is what was sent. Its first step has numbers to draw.
pub fn equipment_keeps_the_law()
    ensures { EquipmentKeepsItsLaw }
{}

/// A step draws fewer than 128 system bytes, whatever it is given. So its numbers are spent exactly where it needs more
/// and the mark of the file is at its end, or where it puts a message and `room` answers that the numbers of the spool
/// are at their end.
pub fn steps_are_spent_by_cause()
    ensures draws { DrawsFew }
    ensures cause { SpentByCause }
{}

/// Examples of steps whose numbers are spent, and of one that has as many as it may need.
pub fn worked_spent_steps()
    ensures { NumbersEnd }
{}
