//! What holds of all runs of the table: what a clean exchange takes, how often is tried, and which frames go out and
//! arrive.

ghost use Rattle.line_end.specs.Laws.{
  ArrivedFramesCame,
  CleanExchange,
  FramesAreOwn,
  StatesAreKept,
  StepsAreSmall,
  TriesAreLimited,
};
ghost use Rattle.line_end.specs.Worked.{
  CarriesOneBlock,
  ComesWhole,
  GivesUp,
  SendsAgain,
  YieldsOnce,
};

/// Where no character is lost or late, N + 6 characters, those of both directions together, bring over a block whose
/// header and body are N bytes. It arrives unchanged. Both ends are idle then, and what the receiver held it still
/// holds.
pub fn clean_exchange()
    ensures { CleanExchange }
{}

/// From `send` to `Sent`, `Failed` or `cancel` the frame is written at most RTY + 1 times, and `Failed` comes at the
/// failed try of that number and at no other call. A slave's yield is no try.
pub fn tries_are_limited()
    ensures { TriesAreLimited }
{}

/// An end never writes a frame but of the block that it holds.
pub fn frames_are_own()
    ensures { FramesAreOwn }
{}

/// The frame of a block that arrives is exactly what the line gave last, all of it after the EOT that asked for it.
pub fn arrived_frames_came()
    ensures { ArrivedFramesCame }
{}

/// A new end is in a state, and each call that may be made leads from a state to a state.
pub fn states_are_kept()
    ensures { StatesAreKept }
{}

/// Any one call keeps the gathered characters, drops them, begins with the character that it takes or goes on with it;
/// a block that arrives is what was gathered with that character; a held block stays, is dropped, or is the one given;
/// what is written is the frame of the held block or at most one character; the side and the times stay.
pub fn steps_are_small()
    ensures { StepsAreSmall }
{}

/// Runs of the table that can be followed by hand, and that meet what the laws above start from: one block over the
/// line, RTY 0 and 3 without any answer and with NAK to each frame, a slave that yields and sends its own block
/// afterwards, and a block that arrives.
pub fn worked_runs()
    ensures carries { CarriesOneBlock }
    ensures gives_up { GivesUp }
    ensures sends_again { SendsAgain }
    ensures yields { YieldsOnce }
    ensures comes { ComesWhole }
{}
