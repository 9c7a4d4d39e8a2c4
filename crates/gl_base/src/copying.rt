//! All bytes to a sink, by as many writes as it wants.

ghost use Rattle.gl_base.specs.Sending.{Sends};
ghost use Rattle.gl_base.specs.Told.{sink_told};

use crate::sink::{Sink, WriteAnswer};

/// Whether all bytes went to a sink.
#[derive(Clone, Copy, Debug, PartialEq, Eq)]
pub enum SinkAnswer {
    Done,
    /// A fault, which the sink has counted.
    Failed,
}

/// Appends all bytes, by as many writes as the sink wants, or a part from the front where a write
/// fails: `Failed` comes only with bytes that were not appended. Takes no memory.
pub fn copy_out<W: Sink>(out: &mut W, bytes: &[u8]) -> SinkAnswer
    ensures { Sends (sink_told W.Sink out.old out.new) bytes.now result }
{
    let mut at = 0;
    while at < bytes.len() {
        match out.write(&bytes[at..]) {
            WriteAnswer::Took(n) => at += n,
            WriteAnswer::Failed => return SinkAnswer::Failed,
        }
    }
    SinkAnswer::Done
}
