//! What comes too late.

ghost use Rattle.std.specs.Prelude.{◌≡◌, replicate, false, IfOk};
ghost use Rattle.host_node.specs.Host.{drops, expires, late_duties};
ghost use Rattle.message_end.specs.Parts.{AreCarried, CarriesAll, DoesAll};

use message_end::{MessageEnd, Stop};
use message_flow::StepOut;
use std::alloc::Global;

/// How many messages T4 drops in a step, and how many transactions T3 ends: as many as there can be.
const MOST_DROPPED: u32 = 16;

const MOST_EXPIRED: u32 = 64;

/// Ends what comes too late.
pub(crate) fn end_late(
    alloc: Global,
    core: &mut MessageEnd<()>,
    now: u64,
    out: &mut StepOut,
) -> Result<(), Stop>
    ensures does { DoesAll (late_duties now) core.old out.old core.new out.new result }
    ensures line { out.new.line ≡ out.old.line }
{
    match drop_all(alloc, core, now, out) {
        Ok(()) => expire_all(alloc, core, now, out),
        Err(stop) => Err(stop),
    }
}

// Drops the messages on which T4 has run out.
fn drop_all(
    alloc: Global,
    core: &mut MessageEnd<()>,
    now: u64,
    out: &mut StepOut,
) -> Result<(), Stop>
    ensures does { DoesAll (replicate 16 (drops now)) core.old out.old core.new out.new result }
    ensures line { out.new.line ≡ out.old.line }
{
    let mut left = MOST_DROPPED;
    'messages: while left > 0 {
        if !drop_one(alloc, core, now, out)? {
            return Ok(());
        }
        left -= 1;
    }
    Ok(())
}

// Drops a message on which T4 has run out; `false` where there is none. A reply is given up.
#[tactic(auto, using(crate::proofs::Overdue::drops_none))]
fn drop_one(
    alloc: Global,
    core: &mut MessageEnd<()>,
    now: u64,
    out: &mut StepOut,
) -> Result<bool, Stop>
    ensures carries { CarriesAll (drops now core.old) core.old out.old core.new out.new result }
    ensures none { IfOk result
        (λ some. some ≡ false → AreCarried (drops now core.old) core.old out.old core.old out.old) }
    ensures line { out.new.line ≡ out.old.line }
{
    let Some(header) = core.drop_due(alloc, now, out)? else {
        return Ok(false);
    };
    core.give_up(alloc, &header, out)?;
    Ok(true)
}

// Ends the transactions on which T3 has run out.
fn expire_all(
    alloc: Global,
    core: &mut MessageEnd<()>,
    now: u64,
    out: &mut StepOut,
) -> Result<(), Stop>
    ensures does { DoesAll (replicate 64 (expires now)) core.old out.old core.new out.new result }
    ensures line { out.new.line ≡ out.old.line }
{
    let mut left = MOST_EXPIRED;
    'transactions: while left > 0 {
        if !expire_one(alloc, core, now, out)? {
            return Ok(());
        }
        left -= 1;
    }
    Ok(())
}

// Ends a transaction on which T3 has run out; `false` where there is none.
#[tactic(auto, using(crate::proofs::Overdue::expires_none))]
fn expire_one(
    alloc: Global,
    core: &mut MessageEnd<()>,
    now: u64,
    out: &mut StepOut,
) -> Result<bool, Stop>
    ensures carries { CarriesAll (expires now core.old) core.old out.old core.new out.new result }
    ensures none { IfOk result
        (λ some. some ≡ false → AreCarried (expires now core.old) core.old out.old core.old out.old) }
    ensures line { out.new.line ≡ out.old.line }
{
    match core.expire(alloc, now, out)? {
        Some(_) => Ok(true),
        None => Ok(false),
    }
}
