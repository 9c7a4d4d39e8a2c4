//! What holds of messages and their blocks, cut and joined, after all histories.

ghost use Rattle.message_flow.specs.Laws.{BlocksAreNumbered, BlocksCarryText, BlocksMakeMessages, KeptIsLookedBackFor, LeftOutIsMissed, MessagesComeWhole, MessagesGoInBlocks, StandingGoesOn, WholeIsNumbered, WholeMessagesFit};
ghost use Rattle.message_flow.specs.Worked.{ComesInThree, LacksOne};

/// The blocks of a message are as many as it has 244 bytes of text, and one where it has none, and the block in each
/// place is the one of the next number.
pub fn blocks_are_numbered()
    ensures { BlocksAreNumbered }
{}

/// The texts of a message's blocks, joined in order, are its text. Each block has 244 bytes but the last one, which
/// has at most so many, and at least one unless the message has no text. The last one alone has the E bit.
pub fn blocks_carry_text()
    ensures { BlocksCarryText }
{}

/// What an assembly keeps of each key is what the look-back over all entries finds: the header and the text of the
/// key's open blocks, the check of that text, T4 after the newest of them, and one message for each first block whose
/// key has had no cut since, in their order. So the deadline is the earliest moment at which T4 runs out on an open
/// block, and what is dropped is the message opened first among those on which it has run out.
pub fn kept_is_looked_back_for()
    ensures { KeptIsLookedBackFor }
{}

/// A message's blocks that come in order, where it can begin, with immediate repeats and entries of other keys
/// between: each is a part, the last one the whole message, and each immediate repeat a duplicate.
pub fn messages_come_whole()
    ensures { MessagesComeWhole }
{}

/// The open blocks of a message are numbered from 1 in their order, and the block that makes it whole has the next
/// number; or it is the only one, with number 0.
pub fn whole_is_numbered()
    ensures { WholeIsNumbered }
{}

/// As long as a block of a message is left out, no block of it makes it whole before its number 1 is given again.
pub fn left_out_is_missed()
    ensures { LeftOutIsMissed }
{}

/// What an assembly stands for, it stands for after each call with the call's entry more; its answers are those of
/// the look-back.
pub fn standing_goes_on()
    ensures { StandingGoesOn }
{}

/// A whole message has parts as the blocks of a message have them, and no more text than the receiver takes.
pub fn whole_messages_fit()
    ensures { WholeMessagesFit }
{}

/// Each block of a message whose parts are in their ranges is a block.
pub fn messages_go_in_blocks()
    ensures { MessagesGoInBlocks }
{}

/// Where all blocks of a key are of one message, whatever else comes, the open ones are its first ones, and a message
/// that is whole is that message, with the check of its text.
pub fn blocks_make_messages()
    ensures { BlocksMakeMessages }
{}

/// Runs that can be followed by hand and meet what the two laws above start from.
pub fn worked_runs()
    ensures comes { ComesInThree }
    ensures lacks { LacksOne }
{}
