//! The laws of the order of blocks over a line, and runs that meet what they start from.

ghost use Rattle.line_order.specs.Laws.{BlocksArriveInOrder, TellsArrivals};
ghost use Rattle.line_order.specs.Slips.{ArrivalsAreJudged};
ghost use Rattle.line_order.specs.Worked.{ArrivesTwice, OutlivesPowerLoss, SlipsAreFound};

/// The blocks of each direction arrive in the order in which they were given to `send`, over all starts of the ends: of
/// two arrivals the newer one never has a lower place among them, and each block is, unchanged, the one at its place.
///
/// This holds for any layer above (its calls are a part of what happens), with contention and retries, whatever
/// characters are lost, changed or added, and whenever an end loses its power. It asks only that the times fit, that
/// the calls of an end are made on their conditions, and that what is given is a block. It speaks of the blocks that
/// arrive in whole frames; up to the first slip these are all blocks that an end tells as arrived.
pub fn blocks_arrive_in_order()
    ensures order { BlocksArriveInOrder }
    ensures told { TellsArrivals }
{}

/// A block that arrives is noted with the frame of the other end that was taken whole for it. Where there is no such
/// frame, since a character is missing, changed or out of its place, or another stands among them, the block is a slip.
pub fn arrivals_are_judged()
    ensures { ArrivalsAreJudged }
{}

/// Runs that can be followed by hand, and that meet what the laws above start from: a lost ENQ and a lost ACK, with a
/// block that arrives twice; both ends that ask at once, and a power loss while a frame is under way; and slips by one
/// changed, one lost and one added character.
pub fn worked_runs()
    ensures twice { ArrivesTwice }
    ensures power { OutlivesPowerLoss }
    ensures slips { SlipsAreFound }
{}
