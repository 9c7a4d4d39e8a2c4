//! What comes of the transactions that the equipment has begun.

ghost use Rattle.std.specs.Prelude.{◌≡◌, ◌<◌, ◌^◌, false, replicate, if◌then◌else◌, IfOk, Some};
ghost use Rattle.block_codec.specs.Header.{Fits};
ghost use Rattle.secs_items.specs.Checking.{check_of};
ghost use Rattle.equipment_tables.specs.Requests.{item_in};
ghost use Rattle.gem_states.specs.declared.control.ControlIn.TheVariants.{AttemptDone, AttemptFailed};
ghost use Rattle.tool_step.specs.declared.kind.Kind.TheVariants as kind;
ghost use Rattle.tool_step.specs.Own.{waiting_report, without_grant};
ghost use Rattle.tool_step.specs.Spooling.{grant_given_turn, unloaded_own};
ghost use Rattle.tool_core.specs.Carried.{IsTaken};
ghost use Rattle.tool_step.specs.Codes.{is_accepted_in, is_accepting, is_granted_in, is_granting, is_zero_in};
ghost use Rattle.tool_core.specs.Node.{node_of, own_of};
ghost use Rattle.tool_step.specs.Replies.{block_timer, denied_turn, given_up_turn, granted_turn, loss_turn, reply_timer, reply_turn, secondary_turn, timeout_turn};
ghost use Rattle.tool_step.specs.States.{control_turn};
ghost use Rattle.tool_step.specs.Step.{late_parts};
ghost use Rattle.tool_core.specs.Late.{late_part};
ghost use Rattle.tool_core.specs.Turns.{ReachesParts, TakesPart, TakesParts, TakesTurn};

use crate::awaiting::take_awaiting;
use crate::own::Tool;
use crate::routing::EVENT_NAME;
use block_codec::Header;
use gem_states::{CommsIn, ControlIn};
use gl_base::NoMemory;
use message_end::Stop;
use message_flow::{Message, StepOut};
use secs_items::{BodyCheck, Item, Verdict, view};
use std::alloc::Global;
use tool_step::Kind;
use trace_log::denied_note;
use transact::Match;

// How many messages T4 drops in a step, and how many transactions T3 ends: as many as there can be.
const MOST_DROPPED: u32 = 16;

const MOST_EXPIRED: u32 = 64;

/// What comes too late.
#[derive(Clone, Copy, Debug)]
pub(crate) enum Late {
    /// The next block of a message: T4 drops what came of it.
    Block,
    /// The reply to a primary: T3 ends its transaction.
    Reply,
}

impl Tool {
    /// Ends what comes too late: messages, and then transactions.
    pub(crate) fn end_late(
        &mut self,
        alloc: Global,
        now: u64,
        out: &mut StepOut,
    ) -> Result<(), Stop>
        requires { now < 2 ^ 62 }
        ensures does { ReachesParts (late_parts now) self.old out.old self.new out.new result }
        ensures line { out.new.line ≡ out.old.line }
    {
        match self.end_some_late(alloc, Late::Block, MOST_DROPPED, now, out) {
            Ok(()) => self.end_some_late(alloc, Late::Reply, MOST_EXPIRED, now, out),
            Err(stop) => Err(stop),
        }
    }

    // Ends so many that come too late, or all of them.
    fn end_some_late(
        &mut self,
        alloc: Global,
        late: Late,
        most: u32,
        now: u64,
        out: &mut StepOut,
    ) -> Result<(), Stop>
        requires { now < 2 ^ 62 }
        ensures does { TakesParts (replicate most (late_part late now)) self.old out.old self.new out.new result }
        ensures line { out.new.line ≡ out.old.line }
    {
        let mut left = most;
        'overdue: while left > 0 {
            if !self.end_one_late(alloc, late, now, out)? {
                return Ok(());
            }
            left -= 1;
        }
        Ok(())
    }

    // Ends one that comes too late; `false` where there is none.
    fn end_one_late(
        &mut self,
        alloc: Global,
        late: Late,
        now: u64,
        out: &mut StepOut,
    ) -> Result<bool, Stop>
        requires { now < 2 ^ 62 }
        ensures does { TakesPart (late_part late now) self.old out.old self.new out.new result }
        ensures none { IfOk result (λ some. some ≡ false → IsTaken
            (late_part late now (own_of self.old.own) self.old.core)
            (node_of self.old) out.old (node_of self.old) out.old) }
        ensures line { out.new.line ≡ out.old.line }
    {
        match late {
            Late::Block => self.drop_one(alloc, now, out),
            Late::Reply => self.expire_one(alloc, now, out),
        }
    }

    // Ends a transaction on which T3 has run out; `false` where there is none.
    fn expire_one(&mut self, alloc: Global, now: u64, out: &mut StepOut) -> Result<bool, Stop>
        requires { now < 2 ^ 62 }
        ensures does { TakesPart (reply_timer now) self.old out.old self.new out.new result }
        ensures none { IfOk result (λ some. some ≡ false → IsTaken
            (reply_timer now (own_of self.old.own) self.old.core)
            (node_of self.old) out.old (node_of self.old) out.old) }
        ensures line { out.new.line ≡ out.old.line }
    {
        match self.core.expire(alloc, now, out) {
            Ok(Some((header, kind))) => match self.time_out(alloc, &header, kind, now, out) {
                Ok(()) => Ok(true),
                Err(stop) => Err(stop),
            },
            Ok(None) => Ok(false),
            Err(stop) => Err(stop),
        }
    }

    // Drops a message on which T4 has run out; `false` where there is none. A reply is given up.
    fn drop_one(&mut self, alloc: Global, now: u64, out: &mut StepOut) -> Result<bool, Stop>
        requires { now < 2 ^ 62 }
        ensures does { TakesPart (block_timer now) self.old out.old self.new out.new result }
        ensures none { IfOk result (λ some. some ≡ false → IsTaken
            (block_timer now (own_of self.old.own) self.old.core)
            (node_of self.old) out.old (node_of self.old) out.old) }
        ensures line { out.new.line ≡ out.old.line }
    {
        match self.core.drop_due(alloc, now, out) {
            Ok(Some(header)) => match self.give_up(alloc, &header, now, out) {
                Ok(()) => Ok(true),
                Err(stop) => Err(stop),
            },
            Ok(None) => Ok(false),
            Err(stop) => Err(stop),
        }
    }

    /// A reply whose block has this header is no good: its transaction ends as by T3.
    pub(crate) fn give_up(
        &mut self,
        alloc: Global,
        header: &Header,
        now: u64,
        out: &mut StepOut,
    ) -> Result<(), Stop>
        requires { now < 2 ^ 62 }
        ensures does { TakesPart (given_up_turn now header.now) self.old out.old self.new out.new result }
        ensures line { out.new.line ≡ out.old.line }
    {
        match self.core.give_up(alloc, header, out) {
            Ok(Some((primary, kind))) => self.time_out(alloc, &primary, kind, now, out),
            Ok(None) => Ok(()),
            Err(stop) => Err(stop),
        }
    }

    // No reply came to the primary whose last block has this header.
    fn time_out(
        &mut self,
        alloc: Global,
        header: &Header,
        kind: Kind,
        now: u64,
        out: &mut StepOut,
    ) -> Result<(), Stop>
        requires now { now < 2 ^ 62 }
        requires header { Fits header.now }
        ensures does { TakesPart (timeout_turn now (Some (header.now, kind))) self.old out.old self.new out.new result }
        ensures line { out.new.line ≡ out.old.line }
    {
        match self.lose_reply(alloc, kind, header.system, now, out) {
            Ok(()) => self.tell_error(alloc, 9, header, out),
            Err(stop) => Err(stop),
        }
    }

    // What is lost with a transaction that ended alone.
    fn lose_reply(
        &mut self,
        alloc: Global,
        kind: Kind,
        system: u32,
        now: u64,
        out: &mut StepOut,
    ) -> Result<(), Stop>
        requires { now < 2 ^ 62 }
        ensures does { TakesPart (loss_turn now kind system) self.old out.old self.new out.new result }
        ensures line { out.new.line ≡ out.old.line }
    {
        match kind {
            Kind::Establish => self.end_talk(alloc, CommsIn::Denied, None, now, out),
            Kind::Attempt => self.fail_attempt(alloc, out),
            Kind::Grant => self.deny(alloc, system, out),
            Kind::Report => {
                let _ = take_awaiting(&mut self.own.reports, system);
                Ok(())
            }
            Kind::Unload => {
                self.own.ledger.end_unload();
                Ok(())
            }
            Kind::UnloadGrant => {
                self.deny_unload(alloc, out)?;
                Ok(())
            }
            Kind::Trace => Ok(()),
            Kind::TraceGrant => self.deny_trace(alloc, system, out),
        }
    }

    /// An attempt to be on-line has failed.
    pub(crate) fn fail_attempt(&mut self, alloc: Global, out: &mut StepOut) -> Result<(), Stop>
        ensures does { TakesTurn (control_turn AttemptFailed) self.old out.old self.new out.new result }
        ensures line { out.new.line ≡ out.old.line }
    {
        match self.control(alloc, ControlIn::AttemptFailed, out) {
            Ok(_) => Ok(()),
            Err(stop) => Err(stop),
        }
    }

    // An attempt to be on-line has succeeded.
    fn end_attempt(&mut self, alloc: Global, out: &mut StepOut) -> Result<(), Stop>
        ensures does { TakesTurn (control_turn AttemptDone) self.old out.old self.new out.new result }
        ensures line { out.new.line ≡ out.old.line }
    {
        match self.control(alloc, ControlIn::AttemptDone, out) {
            Ok(_) => Ok(()),
            Err(stop) => Err(stop),
        }
    }

    // The report whose S6F5 has these system bytes gets no grant.
    fn deny(&mut self, alloc: Global, system: u32, out: &mut StepOut) -> Result<(), Stop>
        ensures does { TakesTurn (λ own. denied_turn (without_grant system own))
            self.old out.old self.new out.new result }
        ensures line { out.new.line ≡ out.old.line }
    {
        let _ = take_awaiting(&mut self.own.for_grant, system);
        out.notes.push(denied_note(alloc, EVENT_NAME)?)?;
        Ok(())
    }

    // The report whose S6F5 has these system bytes goes.
    fn grant(&mut self, alloc: Global, system: u32, out: &mut StepOut) -> Result<(), Stop>
        ensures does { TakesPart (λ own core. granted_turn (waiting_report system own) (without_grant system own) core)
            self.old out.old self.new out.new result }
        ensures line { out.new.line ≡ out.old.line }
    {
        match take_awaiting(&mut self.own.for_grant, system) {
            Some(report) => self.send_report(alloc, report, out),
            None => Ok(()),
        }
    }

    /// A whole secondary came, the last block of which has this header.
    pub(crate) fn take_reply(
        &mut self,
        alloc: Global,
        header: &Header,
        message: &Message,
        check: &BodyCheck,
        now: u64,
        out: &mut StepOut,
    ) -> Result<(), Stop>
        requires now { now < 2 ^ 62 }
        requires checked { check.now ≡ check_of message.now.body }
        ensures does { TakesPart (secondary_turn now header.now message.now) self.old out.old self.new out.new result }
        ensures line { out.new.line ≡ out.old.line }
    {
        match self.core.answer(alloc, header, out) {
            Ok(Match::Reply(kind)) => self.heed_reply(alloc, kind, message, check, now, out),
            Ok(Match::Abort(kind)) => self.lose_reply(alloc, kind, message.system, now, out),
            Ok(Match::Stranger) => Ok(()),
            Err(stop) => Err(stop),
        }
    }

    // The reply to a primary of this kind has come.
    fn heed_reply(
        &mut self,
        alloc: Global,
        kind: Kind,
        message: &Message,
        check: &BodyCheck,
        now: u64,
        out: &mut StepOut,
    ) -> Result<(), Stop>
        requires now { now < 2 ^ 62 }
        requires checked { check.now ≡ check_of message.now.body }
        ensures does { TakesPart (reply_turn now kind message.now.system message.now.body)
            self.old out.old self.new out.new result }
        ensures line { out.new.line ≡ out.old.line }
    {
        match kind {
            Kind::Establish => self.heed_establishing(alloc, message, check, now, out),
            Kind::Attempt => self.end_attempt(alloc, out),
            Kind::Grant => self.heed_grant(alloc, message, check, out),
            Kind::Report => {
                let _ = take_awaiting(&mut self.own.reports, message.system);
                Ok(())
            }
            Kind::Unload => {
                self.own.ledger.confirm(alloc, out)?;
                Ok(())
            }
            Kind::UnloadGrant => self.heed_unload_grant(alloc, message, check, out),
            Kind::Trace => Ok(()),
            Kind::TraceGrant => self.heed_trace_grant(alloc, message, check, out),
        }
    }

    // The reply to S1F13 has come.
    fn heed_establishing(
        &mut self,
        alloc: Global,
        message: &Message,
        check: &BodyCheck,
        now: u64,
        out: &mut StepOut,
    ) -> Result<(), Stop>
        requires now { now < 2 ^ 62 }
        requires checked { check.now ≡ check_of message.now.body }
        ensures does { TakesPart (reply_turn now kind.Establish message.now.system message.now.body)
            self.old out.old self.new out.new result }
        ensures line { out.new.line ≡ out.old.line }
    {
        if is_accepted(alloc, message.body.as_slice(), check)? {
            return self.meet(alloc, CommsIn::Accepted, now, out);
        }
        self.end_talk(alloc, CommsIn::Denied, None, now, out)
    }

    // The reply to S6F5 has come.
    fn heed_grant(
        &mut self,
        alloc: Global,
        message: &Message,
        check: &BodyCheck,
        out: &mut StepOut,
    ) -> Result<(), Stop>
        requires { check.now ≡ check_of message.now.body }
        ensures does { TakesPart
            (λ own core. if is_granted_in message.now.body
            then granted_turn (waiting_report message.now.system own) (without_grant message.now.system own) core
            else denied_turn (without_grant message.now.system own))
            self.old out.old self.new out.new result }
        ensures line { out.new.line ≡ out.old.line }
    {
        if is_granted(alloc, message.body.as_slice(), check)? {
            return self.grant(alloc, message.system, out);
        }
        self.deny(alloc, message.system, out)
    }

    // The reply to the S6F5 for a message of the spool has come.
    fn heed_unload_grant(
        &mut self,
        alloc: Global,
        message: &Message,
        check: &BodyCheck,
        out: &mut StepOut,
    ) -> Result<(), Stop>
        requires { check.now ≡ check_of message.now.body }
        ensures does { TakesPart
            (λ own core. if is_granted_in message.now.body then grant_given_turn own core
            else denied_turn (unloaded_own own))
            self.old out.old self.new out.new result }
        ensures line { out.new.line ≡ out.old.line }
    {
        if is_granted(alloc, message.body.as_slice(), check)? {
            return self.let_go(alloc, out);
        }
        self.deny_unload(alloc, out)?;
        Ok(())
    }
}

// The item that a text is, by the check that came with it.
fn item_of(alloc: Global, body: &[u8], check: &BodyCheck) -> Result<Option<Item>, NoMemory>
    requires { check.now ≡ check_of body.now }
    ensures { IfOk result (λ item. item ≡ item_in body.now) }
{
    match check.verdict() {
        Verdict::Whole => Ok(Some(view(body, check).item(alloc)?)),
        _ => Ok(None),
    }
}

// Whether a text is L,2 of COMMACK 0 and anything.
fn is_accepted(alloc: Global, body: &[u8], check: &BodyCheck) -> Result<bool, NoMemory>
    requires { check.now ≡ check_of body.now }
    ensures { IfOk result (λ is. is ≡ is_accepted_in body.now) }
{
    match item_of(alloc, body, check)? {
        Some(item) => Ok(accepts(&item)),
        None => Ok(false),
    }
}

// Whether an item is L,2 of COMMACK 0 and anything.
fn accepts(item: &Item) -> bool
    ensures { result ≡ is_accepting item.now }
{
    match item {
        Item::L(items) => is_zero_in(items.as_slice()),
        _ => false,
    }
}

// Whether they are B of one byte 00 and anything.
fn is_zero_in(items: &[Item]) -> bool
    ensures { result ≡ is_zero_in items.now }
{
    match items {
        [Item::B(code), _] => code.as_slice() == [0].as_slice(),
        _ => false,
    }
}

/// Whether a text is GRANT6 0.
pub(crate) fn is_granted(alloc: Global, body: &[u8], check: &BodyCheck) -> Result<bool, NoMemory>
    requires { check.now ≡ check_of body.now }
    ensures { IfOk result (λ is. is ≡ is_granted_in body.now) }
{
    match item_of(alloc, body, check)? {
        Some(item) => Ok(grants(&item)),
        None => Ok(false),
    }
}

// Whether an item is B of one byte 00.
fn grants(item: &Item) -> bool
    ensures { result ≡ is_granting item.now }
{
    match item {
        Item::B(code) => code.as_slice() == [0].as_slice(),
        _ => false,
    }
}
