//! The core that both ends share: line, queue, assembly, transactions and numbers behind calls that keep the law of an
//! end.

ghost use Rattle.std.specs.Prelude.{◌≡◌, ◌+◌, ◌-◌, ◌^◌, ◌<◌, ◌≤◌, ◌&&◌, Some, IfOk, IfSome, is_some, length, not, slice_get};
ghost use Rattle.std.specs.List.{count_by, find, list_any};
ghost use Rattle.std.specs.Option.{option_map};
ghost use Rattle.arrayvec.specs.ArrayVec.{array_vec_len};
ghost use Rattle.block_codec.specs.Header.{Fits};
ghost use Rattle.block_codec.specs.Protocol.{longest_text};
ghost use Rattle.line_end.specs.Plan.{LinePlanFits};
ghost use Rattle.message_end.specs.Calls.{Carries, FitsLine, HasHeader, IsCarried, IsChecked, IsGood, IsNew, answered_by, deadline_of_end, dropped_now, due_now, failed_as, failed_at, is_sent, least, took_at};
ghost use Rattle.message_end.specs.Core.{Command, held_header};
ghost use Rattle.message_end.specs.Endings.{is_of_open};
ghost use Rattle.message_end.specs.Laws.{new_end};
ghost use Rattle.message_flow.specs.Outgoing.{is_source_of, last_header};
ghost use Rattle.message_flow.specs.Waiting.{is_named};
ghost use Rattle.transact.specs.Numbers.{numbers_from};
ghost use Rattle.transact.specs.Transactions.{IsTransactions, PrimaryFits, has_system, kind_of, match_of, primary_of};

use crate::Unsent;
use crate::sending::note_full;
use block_codec::Header;
use gl_base::{NoMemory, Row, Side};
use line_end::{LineEnd, LineEvent, LinePlan, Phase};
use message_flow::{Assembly, Flow, Outgoing, StepOut};
use std::alloc::Global;
use std::marker::Model;
use trace_log::{Title, dropped_by_t4_note, stranger_note, timed_out_note};
use transact::{Match, Numbers, Transactions};

/// Why an end can't go on.
#[derive(Clone, Copy, Debug, PartialEq, Eq)]
pub enum Stop {
    /// Memory ran out.
    NoMemory,
    /// A number must be drawn, and all are drawn.
    NumbersSpent,
    /// The end's own store has no room for what a step must put there. A core has none.
    Full,
    /// A call of its disk failed. A core has none.
    DiskFailed,
}

impl From<NoMemory> for Stop {
    ghost use Rattle.message_end.specs.declared.end.Stop.TheVariants as stop;

    ghost from_gives = { λ _ e. e ≡ stop.NoMemory };

    fn from(_: NoMemory) -> Stop {
        Stop::NoMemory
    }
}

/// What a character has brought.
#[derive(Debug, Drop)]
pub enum Took {
    /// Nothing that a layer above wants to know.
    Nothing,
    /// The block with this header failed.
    Failed(Header),
    /// A block with this header came, and was this.
    Came(Header, Flow),
}

/// The core of an end: its line, the messages that wait to go out, those that come in, its transactions and numbers. It
/// keeps the law of an end: see `ends_are_lawful`. Its parts are on the heap, so that it is cheap to move.
#[derive(Debug, Drop)]
pub struct MessageEnd<K> {
    pub(crate) parts: Box<Parts<K>>,
}

#[derive(Debug, Drop)]
pub(crate) struct Parts<K> {
    pub(crate) line: LineEnd,
    pub(crate) outgoing: Outgoing,
    pub(crate) assembly: Assembly,
    pub(crate) transactions: Transactions<K>,
    pub(crate) numbers: Numbers,
    pub(crate) drawn: Option<u32>,
    pub(crate) asked: Option<Title>,
}

impl<K> Model for MessageEnd<K> {
    ghost use Rattle.message_end.specs.Core.{EndView};
    ghost use Rattle.message_end.specs.Calls.{IsEnd};

    ghost Value = { EndView K };

    ghost view = { λ inside. record {
      line = inside.parts.value.line;
      outgoing = inside.parts.value.outgoing;
      assembly = inside.parts.value.assembly;
      transactions = inside.parts.value.transactions;
      numbers = inside.parts.value.numbers;
      drawn = inside.parts.value.drawn;
      asked = inside.parts.value.asked;
    } };

    ghost invariant = { λ inside. IsEnd {K = K} (record {
      line = inside.parts.value.line;
      outgoing = inside.parts.value.outgoing;
      assembly = inside.parts.value.assembly;
      transactions = inside.parts.value.transactions;
      numbers = inside.parts.value.numbers;
      drawn = inside.parts.value.drawn;
      asked = inside.parts.value.asked;
    }) };
}

impl<K: Copy> MessageEnd<K> {
    /// An end at its start, with this many numbers from the first on.
    pub fn new(
        alloc: Global,
        side: Side,
        plan: &LinePlan,
        first: u32,
        count: u64,
    ) -> Result<MessageEnd<K>, NoMemory>
        requires plan { LinePlanFits plan.now }
        requires numbers { first + count ≤ 2 ^ 32 }
        ensures { IfOk result (IsNew side plan.now (numbers_from first count)) }
    {
        let parts = Parts {
            line: LineEnd::new(side, plan.times),
            outgoing: Outgoing::new(alloc, side, plan.device),
            assembly: Assembly::new(alloc, side, Some(plan.device), plan.t4, plan.max_body),
            transactions: Transactions::new(alloc, plan.t3),
            numbers: Numbers::new(first, count),
            drawn: None,
            asked: None,
        };
        match Box::new(alloc, parts) {
            Ok(parts) => Ok(MessageEnd { parts }),
            Err(_failed) => Err(NoMemory),
        }
    }

    /// A start anew, with the numbers that are left. The plan must fit.
    pub fn restart(&mut self, alloc: Global, side: Side, plan: &LinePlan)
        requires { LinePlanFits plan.now }
        ensures { self.new ≡ new_end (record { side = side; line = plan.now }) self.old.numbers }
    {
        let parts = &mut *self.parts;
        parts.line = LineEnd::new(side, plan.times);
        parts.outgoing = Outgoing::new(alloc, side, plan.device);
        parts.assembly = Assembly::new(alloc, side, Some(plan.device), plan.t4, plan.max_body);
        parts.transactions = Transactions::new(alloc, plan.t3);
        parts.drawn = None;
        parts.asked = None;
    }

    /// The number that is drawn next, where one is left.
    pub fn next(&self) -> u64
        ensures { result ≡ self.now.numbers.next }
    {
        self.parts.numbers.next()
    }

    /// Sends a primary under the next number, in a transaction where it has a kind. `false`: 64 transactions are open,
    /// or 128 messages wait; it is noted so, and draws no number.
    pub fn primary(
        &mut self,
        alloc: Global,
        unsent: Unsent<K>,
        out: &mut StepOut,
    ) -> Result<bool, Stop>
        requires { FitsLine unsent }
        ensures carries { Carries (Command.Primary unsent) self.old out.old self.new out.new result }
        ensures sent { IfOk result (λ sent. sent ≡ is_sent unsent self.old) }
        ensures line { out.new.line ≡ out.old.line }
    {
        if self.is_crowded_out(unsent.kind.is_some()) {
            note_full(alloc, &unsent, out)?;
            return Ok(false);
        }
        let Some(system) = self.parts.numbers.draw() else {
            return Err(Stop::NumbersSpent);
        };
        self.send(alloc, unsent, system, out)?;
        Ok(true)
    }

    /// Draws a number by itself, for a primary to come.
    pub fn draw(&mut self, out: &mut StepOut) -> Result<u32, Stop>
        ensures carries { Carries Command.Draw self.old out.old self.new out.new result }
        ensures number { IfOk result (λ number. self.new.drawn ≡ Some number) }
        ensures line { out.new.line ≡ out.old.line }
    {
        let Some(number) = self.parts.numbers.draw() else {
            return Err(Stop::NumbersSpent);
        };
        self.parts.drawn = Some(number);
        Ok(number)
    }

    /// Adds this many numbers behind those that are left.
    pub fn more(&mut self, count: u32, out: &mut StepOut)
        ensures { IsCarried (Command.More count) self.old out.old self.new out.new }
    {
        self.parts.numbers.more(count);
    }

    /// Sends a primary under the number that was drawn by itself; nothing where there is none. `false`: 64 transactions
    /// are open, or 128 messages wait; it is noted so, and the number stays.
    pub fn drawn_primary(
        &mut self,
        alloc: Global,
        unsent: Unsent<K>,
        out: &mut StepOut,
    ) -> Result<bool, Stop>
        requires { FitsLine unsent }
        ensures carries { Carries (Command.DrawnPrimary unsent) self.old out.old self.new out.new result }
        ensures sent { IfOk result (λ sent. sent ≡ is_some self.old.drawn && is_sent unsent self.old) }
        ensures line { out.new.line ≡ out.old.line }
    {
        let Some(system) = self.parts.drawn else {
            return Ok(false);
        };
        if self.is_crowded_out(unsent.kind.is_some()) {
            note_full(alloc, &unsent, out)?;
            return Ok(false);
        }
        self.parts.drawn = None;
        self.send(alloc, unsent, system, out)?;
        Ok(true)
    }

    /// Replies with this body to the primary that asks, and with function 0 and no body where its function is the last;
    /// nothing where none asks. Where 128 messages wait it is noted so, and the reply is lost.
    pub fn reply(&mut self, alloc: Global, body: Row<u8>, out: &mut StepOut) -> Result<(), Stop>
        requires { length body ≤ longest_text }
        ensures carries { Carries (Command.Reply body) self.old out.old self.new out.new result }
        ensures line { out.new.line ≡ out.old.line }
    {
        let Some(asked) = self.parts.asked else {
            return Ok(());
        };
        self.answer_with(alloc, asked, asked.name.function.wrapping_add(1), body, out)
    }

    /// Replies to the primary that asks with function 0 and no body.
    pub fn abort(&mut self, alloc: Global, out: &mut StepOut) -> Result<(), Stop>
        ensures carries { Carries Command.Abort self.old out.old self.new out.new result }
        ensures line { out.new.line ≡ out.old.line }
    {
        let Some(asked) = self.parts.asked else {
            return Ok(());
        };
        self.answer_with(alloc, asked, 0, Row::new(alloc), out)
    }

    /// The step has come to its end: the newest primary asks no more. That is noted, and has no line.
    pub fn close_step(&mut self, out: &mut StepOut)
        ensures carries { IsCarried Command.CloseStep self.old out.old self.new out.new }
    {
        self.parts.asked = None;
    }

    /// Lets the line's timer act. The answer is the header of a block that failed.
    pub fn tick(&mut self, now: u64, out: &mut StepOut) -> Option<Header>
        requires now { now < 2 ^ 62 }
        requires room { array_vec_len out.old.line + 257 ≤ 1024 }
        ensures carries { IsCarried (Command.Tick now) self.old out.old self.new out.new }
        ensures failed { result ≡ failed_at self.old now }
        ensures at_most { array_vec_len out.new.line ≤ array_vec_len out.old.line + 257 }
    {
        let held = self.parts.line.held();
        match self.parts.line.tick(now, &mut out.line) {
            LineEvent::Failed => held,
            _ => None,
        }
    }

    /// Takes a character. A block that comes with it is judged, and noted unless it is a part of a message; a message
    /// that is whole is delivered.
    pub fn take(
        &mut self,
        alloc: Global,
        byte: u8,
        now: u64,
        out: &mut StepOut,
    ) -> Result<Took, Stop>
        requires now { now < 2 ^ 62 }
        requires room { array_vec_len out.old.line + 257 ≤ 1024 }
        ensures carries { Carries (Command.Take byte now) self.old out.old self.new out.new result }
        ensures took { IfOk result (λ brought. brought ≡ took_at self.old byte now) }
        ensures at_most { array_vec_len out.new.line ≤ array_vec_len out.old.line + 257 }
        ensures whole { IfOk result (λ brought. IsGood brought) }
        ensures checked { IfOk result (λ brought. IsChecked brought) }
        ensures header { IfOk result (λ brought. HasHeader brought) }
    {
        let held = self.parts.line.held();
        match self.parts.line.take(byte, now, &mut out.line) {
            LineEvent::Arrived(block) => self.hear(alloc, &block, now, out),
            LineEvent::Sent => {
                self.acknowledge(held, now);
                Ok(Took::Nothing)
            }
            LineEvent::Failed => Ok(failed(held)),
            LineEvent::Nothing | LineEvent::Refused(_) => Ok(Took::Nothing),
        }
    }

    /// Lets an idle line go on with the block that it holds, or gives it the next one.
    pub fn offer(&mut self, now: u64, out: &mut StepOut)
        requires now { now < 2 ^ 62 }
        requires room { array_vec_len out.old.line + 257 ≤ 1024 }
        ensures carries { IsCarried (Command.Offer now) self.old out.old self.new out.new }
        ensures at_most { array_vec_len out.new.line ≤ array_vec_len out.old.line + 257 }
    {
        if self.parts.line.phase() != Phase::Idle {
            return;
        }
        if self.parts.line.holds() {
            self.parts.line.resume(now, &mut out.line);
        } else if let Some(block) = self.parts.outgoing.next_block() {
            self.parts.line.send(block, now, &mut out.line);
        }
    }

    /// Drops one message on which T4 has run out. The answer is the header of its last block; `None` exactly where T4
    /// has run out on none.
    pub fn drop_due(
        &mut self,
        alloc: Global,
        now: u64,
        out: &mut StepOut,
    ) -> Result<Option<Header>, Stop>
        ensures carries { Carries (Command.DropDue now) self.old out.old self.new out.new result }
        ensures dropped { IfOk result (λ dropped. dropped ≡ dropped_now self.old now) }
        ensures fits { IfOk result (λ dropped. IfSome dropped Fits) }
        ensures line { out.new.line ≡ out.old.line }
    {
        let Some(header) = self.parts.assembly.tick(now) else {
            return Ok(None);
        };
        out.notes.push(dropped_by_t4_note(alloc, &header)?)?;
        Ok(Some(header))
    }

    /// Ends one transaction on which T3 has run out. The answer is its primary's header and kind; `None` exactly where
    /// T3 has run out on none.
    pub fn expire(
        &mut self,
        alloc: Global,
        now: u64,
        out: &mut StepOut,
    ) -> Result<Option<(Header, K)>, Stop>
        ensures carries { Carries (Command.Expire now) self.old out.old self.new out.new result }
        ensures primary { IfOk result (λ primary. primary ≡ due_now self.old now) }
        ensures fits { IfOk result (λ primary. PrimaryFits primary) }
        ensures line { out.new.line ≡ out.old.line }
    {
        let Some(primary) = self.parts.transactions.tick(now) else {
            return Ok(None);
        };
        out.notes
            .push(timed_out_note(alloc, Title::of_block(&primary.0))?)?;
        Ok(Some(primary))
    }

    /// Ends the transaction that a reply with this header answers. A reply that answers none is noted as a stranger.
    pub fn answer(
        &mut self,
        alloc: Global,
        header: &Header,
        out: &mut StepOut,
    ) -> Result<Match<K>, Stop>
        ensures carries { Carries (Command.Answer header.now) self.old out.old self.new out.new result }
        ensures found { IfOk result (λ found. found ≡ match_of header.now (answered_by self.old header.now)) }
        ensures line { out.new.line ≡ out.old.line }
    {
        match self.parts.transactions.answer(header) {
            Match::Reply(kind) => return Ok(Match::Reply(kind)),
            Match::Abort(kind) => return Ok(Match::Abort(kind)),
            Match::Stranger => {}
        }
        out.notes
            .push(stranger_note(alloc, Title::of_block(header))?)?;
        Ok(Match::Stranger)
    }

    /// Gives up the reply that has begun with this header: its transaction ends as by T3. The answer is its primary's
    /// header and kind, where it answers one.
    pub fn give_up(
        &mut self,
        alloc: Global,
        header: &Header,
        out: &mut StepOut,
    ) -> Result<Option<(Header, K)>, Stop>
        ensures carries { Carries (Command.GiveUp header.now) self.old out.old self.new out.new result }
        ensures primary { IfOk result (λ primary. primary ≡ option_map primary_of (answered_by self.old header.now)) }
        ensures fits { IfOk result (λ primary. PrimaryFits primary) }
        ensures line { out.new.line ≡ out.old.line }
    {
        let Some(primary) = self.parts.transactions.answered(header) else {
            return Ok(None);
        };
        self.parts.transactions.answer(header);
        out.notes
            .push(timed_out_note(alloc, Title::of_block(&primary.0))?)?;
        Ok(Some(primary))
    }

    /// Ends the transaction with these system bytes, and gives its kind.
    pub fn end(&mut self, system: u32) -> Option<K>
        ensures carries { (out : StepOut) → IsCarried (Command.End system) self.old out self.new out }
        ensures kind { result ≡ option_map kind_of (find (has_system system) self.old.transactions.begun) }
    {
        self.parts.transactions.end(system)
    }

    /// Lets the message wait no longer whose block with this header failed. `true` says that there was one.
    pub fn recall(&mut self, header: &Header) -> bool
        ensures carries { (out : StepOut) → IsCarried (Command.Recall header.now) self.old out self.new out }
        ensures found { result ≡ list_any (is_source_of self.old.outgoing header.now) self.old.outgoing.waiting }
    {
        self.parts.outgoing.recall(header)
    }

    /// Lets the first primary, or secondary, with these system bytes wait no longer. `true` says that there was one.
    pub fn remove(&mut self, primary: bool, system: u32) -> bool
        ensures carries { (out : StepOut) → IsCarried (Command.Remove primary system) self.old out self.new out }
        ensures found { result ≡ list_any (is_named primary system) self.old.outgoing.waiting }
    {
        self.parts.outgoing.remove(primary, system)
    }

    /// Lets the message in front wait no longer. The answer is the header of its last block.
    pub fn drop_front(&mut self) -> Option<Header>
        ensures carries { (out : StepOut) → IsCarried Command.DropFront self.old out self.new out }
        ensures header { result ≡ option_map (last_header self.old.outgoing) (slice_get self.old.outgoing.waiting 0) }
    {
        self.parts.outgoing.drop_front()
    }

    /// The phase of the line.
    pub fn phase(&self) -> Phase
        ensures { result ≡ self.now.line.phase }
    {
        self.parts.line.phase()
    }

    /// The header of the block that the line holds.
    pub fn held(&self) -> Option<Header>
        ensures { result ≡ held_header self.now.line.held }
    {
        self.parts.line.held()
    }

    /// When the line next acts by itself: while a frame comes, T1 after its last character.
    pub fn line_deadline(&self) -> Option<u64>
        ensures { result ≡ self.now.line.deadline }
    {
        self.parts.line.deadline()
    }

    /// When the end next acts by itself: the least moment of the line's, of T4 and of T3.
    pub fn deadline(&self) -> Option<u64>
        ensures { result ≡ deadline_of_end self.now }
    {
        least(
            self.parts.line.deadline(),
            least(
                self.parts.assembly.deadline(),
                self.parts.transactions.deadline(),
            ),
        )
    }

    /// The header of the primary whose transaction began first, and its kind.
    pub fn first(&self) -> Option<(Header, K)>
        ensures primary { result ≡ option_map primary_of (slice_get self.now.transactions.begun 0) }
        ensures fits { PrimaryFits result }
    {
        self.parts.transactions.first()
    }

    /// The header of the primary at this place of the order in which the open transactions began, from 0, and its kind;
    /// `None` exactly where no more are open.
    pub fn open_at(&self, place: usize) -> Option<(Header, K)>
        ensures primary { result ≡ option_map primary_of (slice_get self.now.transactions.begun place) }
        ensures is_transactions { IsTransactions self.now.transactions }
    {
        self.parts.transactions.open_at(place)
    }

    /// Whether the message of the block with this header is a primary whose transaction is open.
    pub fn is_of_open(&self, header: &Header) -> bool
        ensures { result ≡ is_of_open self.now header.now }
    {
        header.function % 2 == 1 && self.parts.transactions.is_open(header.system)
    }

    /// How many transactions are open.
    pub fn open(&self) -> usize
        ensures open { result ≡ length self.now.transactions.begun }
        ensures few { result ≤ 64 }
    {
        self.parts.transactions.len()
    }

    /// How many messages wait.
    pub fn len(&self) -> usize
        ensures len { result ≡ length self.now.outgoing.waiting }
        ensures few { result ≤ 128 }
    {
        self.parts.outgoing.len()
    }

    /// How many of the waiting messages are without the W bit.
    pub fn without_wait(&self) -> usize
        ensures { result ≡ count_by (λ waiting. not waiting.message.wait) self.now.outgoing.waiting }
    {
        self.parts.outgoing.without_wait()
    }

    /// How many numbers are left.
    pub fn left(&self) -> u64
        ensures { result ≡ self.now.numbers.end - self.now.numbers.next }
    {
        self.parts.numbers.left()
    }
}

// What the failure of the block with this header has brought.
fn failed(held: Option<Header>) -> Took
    ensures { result ≡ failed_as held }
{
    match held {
        Some(header) => Took::Failed(header),
        None => Took::Nothing,
    }
}

/// The earlier of two moments, where there are any.
pub fn least(one: Option<u64>, other: Option<u64>) -> Option<u64>
    ensures { result ≡ least one other }
{
    match (one, other) {
        (None, _) => other,
        (_, None) => one,
        (Some(one), Some(other)) => Some(one.min(other)),
    }
}
