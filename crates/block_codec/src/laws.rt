//! What holds of all frames and headers: none is the front of another one, and bytes without a fault are the frame of a
//! block.

ghost use Rattle.block_codec.specs.Laws.{
  FaultlessBytesAreFrames,
  FramesAreDistinct,
  FramesAreLonger,
  FramesHaveNoFault,
  HeadersAreDistinct,
  LengthByteTells,
};

/// The frame of each block has no fault.
pub fn frames_have_no_fault()
    ensures { FramesHaveNoFault }
{}

/// No frame is the front of another one, and a frame is of one block.
pub fn frames_are_distinct()
    ensures { FramesAreDistinct }
{}

/// Headers that fit and differ have different bytes.
pub fn headers_are_distinct()
    ensures { HeadersAreDistinct }
{}

/// A frame is 13 bytes longer than its body.
pub fn frames_are_longer()
    ensures { FramesAreLonger }
{}

/// Where a frame is in front of more bytes, its first byte plus 3 is how many bytes it has.
pub fn length_byte_tells()
    ensures { LengthByteTells }
{}

/// Bytes with no fault are the frame of a block.
pub fn faultless_bytes_are_frames()
    ensures { FaultlessBytesAreFrames }
{}
