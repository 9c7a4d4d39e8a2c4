//! How open messages end together.

ghost use Rattle.std.specs.Prelude.{◌≡◌, IfOk};
ghost use Rattle.message_end.specs.Endings.{EndsFirst, ends_failed, ends_waiting};
ghost use Rattle.message_end.specs.Parts.{AreCarried};

use crate::MessageEnd;
use block_codec::Header;
use gl_base::NoMemory;
use message_flow::StepOut;
use std::alloc::Global;
use trace_log::{Title, failed_note};

impl<K: Copy> MessageEnd<K> {
    /// Ends the transaction that began first, and lets its primary wait no longer. The answer is the header and the
    /// kind of that primary, of which nothing is noted yet; `None` exactly where none is open.
    pub fn end_first(&mut self) -> Option<(Header, K)>
        ensures { EndsFirst result self.old self.new }
    {
        let Some(primary) = self.first() else {
            return None;
        };
        self.end(primary.0.system);
        self.remove(true, primary.0.system);
        Some(primary)
    }

    /// Ends the message whose block with this header failed, with its note, unless it has ended with its transaction.
    pub fn end_failed(
        &mut self,
        alloc: Global,
        was_open: bool,
        header: &Header,
        out: &mut StepOut,
    ) -> Result<(), NoMemory>
        ensures carries { IfOk result
            (λ done. AreCarried (ends_failed was_open header.now self.old) self.old out.old self.new out.new) }
        ensures line { out.new.line ≡ out.old.line }
    {
        if was_open {
            return Ok(());
        }
        self.recall(header);
        out.notes
            .push(failed_note(alloc, Title::of_block(header))?)?;
        Ok(())
    }

    /// Ends the messages that wait, in their order, each with its note.
    pub fn end_waiting(&mut self, alloc: Global, out: &mut StepOut) -> Result<(), NoMemory>
        ensures carries { IfOk result
            (λ done. AreCarried (ends_waiting self.old) self.old out.old self.new out.new) }
        ensures line { out.new.line ≡ out.old.line }
    {
        'messages: while let Some(header) = self.drop_front() {
            out.notes
                .push(failed_note(alloc, Title::of_block(&header))?)?;
        }
        Ok(())
    }
}
