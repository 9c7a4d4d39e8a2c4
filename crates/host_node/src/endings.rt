//! All open messages end.

ghost use Rattle.std.specs.Prelude.{◌≡◌, IfOk};
ghost use Rattle.host_node.specs.Host.{ends_all, fails};
ghost use Rattle.message_end.specs.Endings.{ends_begun};
ghost use Rattle.message_end.specs.Parts.{AreCarried, AreDone};

use block_codec::Header;
use gl_base::NoMemory;
use message_end::MessageEnd;
use message_flow::StepOut;
use std::alloc::Global;
use trace_log::{Title, failed_note};

/// Ends all open messages, each with its note: those with a transaction first, then the one whose block failed, then
/// those that wait still.
pub(crate) fn end_all(
    alloc: Global,
    core: &mut MessageEnd<()>,
    failed: Option<Header>,
    out: &mut StepOut,
) -> Result<(), NoMemory>
    ensures does { IfOk result (λ done. AreDone (ends_all core.old failed) core.old out.old core.new out.new) }
    ensures line { out.new.line ≡ out.old.line }
{
    let Some(header) = failed else {
        end_begun(alloc, core, out)?;
        return core.end_waiting(alloc, out);
    };
    let was_open = core.is_of_open(&header);
    end_begun(alloc, core, out)?;
    core.end_failed(alloc, was_open, &header, out)?;
    core.end_waiting(alloc, out)
}

// Ends the messages whose transactions are open, in the order in which these began.
fn end_begun(alloc: Global, core: &mut MessageEnd<()>, out: &mut StepOut) -> Result<(), NoMemory>
    ensures does { IfOk result
        (λ done. AreCarried (ends_begun fails core.old) core.old out.old core.new out.new) }
    ensures line { out.new.line ≡ out.old.line }
{
    'transactions: while let Some(primary) = core.end_first() {
        out.notes
            .push(failed_note(alloc, Title::of_block(&primary.0))?)?;
    }
    Ok(())
}
