//! Bytes gathered on their way to a sink, so that not every line is a write.

ghost use Rattle.std.specs.Prelude.{◌≡◌, ◌+◌, ◌++◌, ◌≤◌, [], length};
ghost use Rattle.arrayvec.specs.ArrayVec.{array_vec_len};
ghost use Rattle.gl_base.specs.Sending.{Passes, Sends, page_size};
ghost use Rattle.gl_base.specs.Told.{sink_told};

use crate::copying::{SinkAnswer, copy_out};
use crate::sink::Sink;
use arrayvec::ArrayVec;

/// How many bytes a page has room for.
pub const PAGE: usize = 65536;

/// Bytes on their way to a sink, gathered so that they go out many at a time. It takes no memory. Text of a bounded
/// length may be put straight into `bytes`, behind a call of `make_room`.
#[derive(Drop)]
pub struct Page {
    /// What is gathered and hasn't gone out.
    pub bytes: ArrayVec<u8, PAGE>,
}

impl Page {
    /// An empty page.
    pub fn new() -> Page
        ensures { result.bytes.items ≡ [] }
    {
        Page {
            bytes: ArrayVec::new(),
        }
    }

    /// Sends what the page holds, and leaves it empty. Where a write fails the page stays as it was.
    pub fn send<W: Sink>(&mut self, out: &mut W) -> SinkAnswer
        ensures sent { Sends (sink_told W.Sink out.old out.new) self.old.bytes.items result }
        ensures empty { result ≡ SinkAnswer.Done → self.new.bytes.items ≡ [] }
        ensures failed { result ≡ SinkAnswer.Failed → self.new ≡ self.old }
    {
        let answer = copy_out(out, &self.bytes);
        if answer == SinkAnswer::Done {
            self.bytes.clear();
        }
        answer
    }

    /// Makes room for so many bytes, where a page has it at all: one that has less goes out, and one that has as
    /// many stays. Where a write fails the page stays as it was.
    pub fn make_room<W: Sink>(&mut self, out: &mut W, size: usize) -> SinkAnswer
        ensures passes { Passes (sink_told W.Sink out.old out.new) self.old.bytes.items self.new.bytes.items result }
        ensures room { result ≡ SinkAnswer.Done → size ≤ page_size → array_vec_len self.new.bytes + size ≤ page_size }
        ensures stays { array_vec_len self.old.bytes + size ≤ page_size
            → (result ≡ SinkAnswer.Done) × (self.new ≡ self.old) × (out.new ≡ out.old) }
        ensures failed { result ≡ SinkAnswer.Failed → self.new ≡ self.old }
    {
        if size > self.bytes.remaining_capacity() {
            return self.send(out);
        }
        SinkAnswer::Done
    }

    /// Puts bytes behind what the page holds. Where the page has no room for them it goes out first, and with it go
    /// bytes for which an empty page has no room. Where a write fails the page stays as it was.
    pub fn put<W: Sink>(&mut self, out: &mut W, bytes: &[u8]) -> SinkAnswer
        ensures passes { Passes
            (sink_told W.Sink out.old out.new)
            (self.old.bytes.items ++ bytes.now)
            self.new.bytes.items
            result }
        ensures stays { array_vec_len self.old.bytes + length bytes.now ≤ page_size
            → (result ≡ SinkAnswer.Done) × (out.new ≡ out.old) }
        ensures failed { result ≡ SinkAnswer.Failed → self.new ≡ self.old }
    {
        if bytes.len() > PAGE {
            return self.send_with(out, bytes);
        }
        match self.make_room(out, bytes.len()) {
            SinkAnswer::Done => {
                self.bytes.try_extend_from_slice(bytes).unwrap();
                SinkAnswer::Done
            }
            SinkAnswer::Failed => SinkAnswer::Failed,
        }
    }

    // Sends what the page holds and these bytes behind it.
    fn send_with<W: Sink>(&mut self, out: &mut W, bytes: &[u8]) -> SinkAnswer
        ensures sent { Sends (sink_told W.Sink out.old out.new) (self.old.bytes.items ++ bytes.now) result }
        ensures empty { result ≡ SinkAnswer.Done → self.new.bytes.items ≡ [] }
        ensures failed { result ≡ SinkAnswer.Failed → self.new ≡ self.old }
    {
        let answer = copy_both(out, &self.bytes, bytes);
        if answer == SinkAnswer::Done {
            self.bytes.clear();
        }
        answer
    }
}

// Sends bytes and others behind them.
fn copy_both<W: Sink>(out: &mut W, first: &[u8], second: &[u8]) -> SinkAnswer
    ensures { Sends (sink_told W.Sink out.old out.new) (first.now ++ second.now) result }
{
    match copy_out(out, first) {
        SinkAnswer::Done => copy_out(out, second),
        SinkAnswer::Failed => SinkAnswer::Failed,
    }
}
