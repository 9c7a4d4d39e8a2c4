//! One end of the line: each call is a step of the table of the block transfer, and each phase has a function.

ghost use Rattle.std.specs.Prelude.{◌≡◌, ◌<◌, ◌≤◌, ◌+◌, ◌^◌, ◌++◌, ◌↔◌, true, false, IsTrue, IfOk, IfErr, IsSome, IsNone, Some, None, [], ◌∷◌, length, slice_index};
ghost use Rattle.arrayvec.specs.ArrayVec.{array_vec_len};
ghost use Rattle.std.specs.Option.{option_map};
ghost use Rattle.line_end.specs.Frames.{block_in, is_frame, sum_cause};
ghost use Rattle.line_end.specs.Plan.{TimesFit};

use crate::{LineCause, LineEvent, Phase, Times};
use arrayvec::ArrayVec;
use block_codec::{ACK, Block, BlockFault, ENQ, EOT, Frame, Header, NAK, block_of, frame_of};
use gl_base::Side;
use std::marker::Model;

/// Characters to be written to the line.
pub type Chars = ArrayVec<u8, 1024>;

/// One end of a line: it sends the block that it is given, and answers the other end, by the block transfer of SEMI E4.
///
/// Between two calls it is in a state of the table of the block transfer, and each call is one step of that table. To
/// the state belong the phase; a block to send, and which try of it runs; what has come of a frame so far; the
/// reason, where a frame is to be refused; and when the end next acts by itself.
#[derive(Drop, Debug)]
pub struct LineEnd {
    side: Side,
    times: Times,
    phase: Phase,
    held: Option<Block>,
    try_number: u8,
    gathered: Frame,
    cause: Option<LineCause>,
    deadline: Option<u64>,
}

impl Model for LineEnd {
    ghost use Rattle.line_end.specs.State.{LineState};

    ghost Value = { LineState };

    ghost use Rattle.line_end.specs.End.{state_of};
    ghost use Rattle.line_end.specs.State.{IsLineState};

    ghost view = { state_of };

    ghost invariant = { λ inside. IsLineState (state_of inside) };
}

impl LineEnd {
    ghost use Rattle.line_end.specs.State.{AwaitsAnswer, CanSend, HoldsIdle, IsLineState, IsNotReceiving, new_state};
    ghost use Rattle.line_end.specs.Step.{line_step, asks, character_in, fails_try, gathers, grants, refuses, sends_frame, within_t1, without_block};
    ghost use Rattle.line_end.specs.Step.LineCall.{Send, Resume, Cancel, Take, Tick};

    /// An idle end that holds no block. The times must fit.
    pub fn new(side: Side, times: Times) -> LineEnd
        requires { TimesFit times }
        ensures { result ≡ new_state side times }
    {
        LineEnd {
            side,
            times,
            phase: Phase::Idle,
            held: None,
            try_number: 0,
            gathered: Frame::new(),
            cause: None,
            deadline: None,
        }
    }

    /// The phase.
    pub fn phase(&self) -> Phase
        ensures value { result ≡ self.now.phase }
        ensures is_state { IsLineState self.now }
    {
        self.phase
    }

    /// The header of the block that it holds to send. `Sent` and `Failed` don't say of which block they tell.
    pub fn held(&self) -> Option<Header>
        ensures { result ≡ option_map (λ block. block.header) self.now.held }
    {
        self.held.as_ref().map(|block| block.header())
    }

    /// Whether it holds a block to send.
    pub fn holds(&self) -> bool
        ensures { IsTrue result ↔ IsSome self.now.held }
    {
        self.held.is_some()
    }

    /// Whether a block may be given to [`LineEnd::send`]: it is idle and holds none.
    pub fn can_send(&self) -> bool
        ensures value { IsTrue result ↔ CanSend self.now }
        ensures is_state { IsLineState self.now }
    {
        self.phase == Phase::Idle && self.held.is_none()
    }

    /// Holds the block and begins its first try: ENQ is appended to `out`.
    ///
    /// It must be idle and hold no block; `now` must be below 2^62, and `out` must have 257 free places.
    pub fn send(&mut self, block: Block, now: u64, out: &mut Chars)
        requires can_send { CanSend self.old }
        requires now { now < 2 ^ 62 }
        requires room { array_vec_len out.old + 257 ≤ 1024 }
        ensures next { self.new ≡ (line_step self.old (Send block now)).next }
        ensures written { out.new.items ≡ out.old.items ++ (line_step self.old (Send block now)).written }
        ensures at_most { array_vec_len out.new ≤ array_vec_len out.old + 257 }
    {
        self.held = Some(block);
        self.try_number = 1;
        self.resume(now, out);
    }

    /// Begins the present try of the held block again, as after a yield: ENQ is appended to `out`, and no try counted.
    ///
    /// It must be idle and hold a block; `now` must be below 2^62, and `out` must have 257 free places.
    pub fn resume(&mut self, now: u64, out: &mut Chars)
        requires holds { HoldsIdle self.old }
        requires now { now < 2 ^ 62 }
        requires room { array_vec_len out.old + 257 ≤ 1024 }
        ensures next { self.new ≡ (line_step self.old (Resume now)).next }
        ensures written { out.new.items ≡ out.old.items ++ (line_step self.old (Resume now)).written }
        ensures at_most { array_vec_len out.new ≤ array_vec_len out.old + 257 }
    {
        self.ask(now, out);
    }

    /// Drops the held block. It must be idle and hold one.
    pub fn cancel(&mut self)
        requires { HoldsIdle self.old }
        ensures { self.new ≡ (line_step self.old Cancel).next }
    {
        self.let_go(LineEvent::Nothing);
    }

    /// Takes a character from the line, appends to `out` what it answers, and tells what came of it.
    ///
    /// `now` must be below 2^62, and `out` must have 257 free places.
    pub fn take(&mut self, byte: u8, now: u64, out: &mut Chars) -> LineEvent
        requires now { now < 2 ^ 62 }
        requires room { array_vec_len out.old + 257 ≤ 1024 }
        ensures next { self.new ≡ (line_step self.old (Take byte now)).next }
        ensures written { out.new.items ≡ out.old.items ++ (line_step self.old (Take byte now)).written }
        ensures at_most { array_vec_len out.new ≤ array_vec_len out.old + 257 }
        ensures event { result ≡ (line_step self.old (Take byte now)).event }
    {
        match self.phase {
            Phase::Idle => self.take_idle(byte, now, out),
            Phase::AwaitEot => self.take_await_eot(byte, now, out),
            Phase::AwaitAck => self.take_await_ack(byte, now, out),
            Phase::AwaitLength => self.take_await_length(byte, now),
            Phase::Gathering => self.take_gathering(byte, now, out),
            Phase::Settling => self.take_settling(now),
        }
    }

    /// Acts where the deadline has come, appends to `out` what it writes, and tells what came of it. Before the
    /// deadline, and where none runs, nothing changes.
    ///
    /// `now` must be below 2^62, and `out` must have 257 free places.
    pub fn tick(&mut self, now: u64, out: &mut Chars) -> LineEvent
        requires now { now < 2 ^ 62 }
        requires room { array_vec_len out.old + 257 ≤ 1024 }
        ensures next { self.new ≡ (line_step self.old (Tick now)).next }
        ensures written { out.new.items ≡ out.old.items ++ (line_step self.old (Tick now)).written }
        ensures at_most { array_vec_len out.new ≤ array_vec_len out.old + 257 }
        ensures event { result ≡ (line_step self.old (Tick now)).event }
    {
        if !self.deadline.is_some_and(|deadline| deadline <= now) {
            return LineEvent::Nothing;
        }
        match self.phase {
            Phase::Idle => LineEvent::Nothing,
            Phase::AwaitEot | Phase::AwaitAck => self.fail_try(now, out),
            Phase::AwaitLength => self.refuse(LineCause::T2, out),
            Phase::Gathering => self.refuse(LineCause::T1, out),
            Phase::Settling => {
                let cause = self.cause.unwrap();
                self.refuse(cause, out)
            }
        }
    }

    /// The moment at which [`LineEnd::tick`] acts. `None` exactly where it is idle.
    pub fn deadline(&self) -> Option<u64>
        ensures value { result ≡ self.now.deadline }
        ensures none { IsNone result ↔ (self.now.phase ≡ Phase.Idle) }
        ensures is_state { IsLineState self.now }
    {
        self.deadline
    }

    // Idle: the other end may ask to send.
    fn take_idle(&mut self, byte: u8, now: u64, out: &mut Chars) -> LineEvent
        requires phase { self.old.phase ≡ Phase.Idle }
        requires now { now < 2 ^ 62 }
        requires room { array_vec_len out.old < 1024 }
        ensures next { self.new ≡ (character_in Phase.Idle self.old byte now).next }
        ensures written { out.new.items ≡ out.old.items ++ (character_in Phase.Idle self.old byte now).written }
        ensures at_most { array_vec_len out.new ≤ array_vec_len out.old + 1 }
        ensures event { result ≡ (character_in Phase.Idle self.old byte now).event }
    {
        if byte == ENQ {
            self.grant(now, out)
        } else {
            LineEvent::Nothing
        }
    }

    // It has asked to send: the other end grants the line, or has asked too.
    fn take_await_eot(&mut self, byte: u8, now: u64, out: &mut Chars) -> LineEvent
        requires phase { self.old.phase ≡ Phase.AwaitEot }
        requires now { now < 2 ^ 62 }
        requires room { array_vec_len out.old + 257 ≤ 1024 }
        ensures next { self.new ≡ (character_in Phase.AwaitEot self.old byte now).next }
        ensures written { out.new.items ≡ out.old.items ++ (character_in Phase.AwaitEot self.old byte now).written }
        ensures at_most { array_vec_len out.new ≤ array_vec_len out.old + 257 }
        ensures event { result ≡ (character_in Phase.AwaitEot self.old byte now).event }
    {
        match (byte, self.side) {
            (EOT, _) => self.send_frame(now, out),
            (ENQ, Side::Host) => self.grant(now, out),
            _ => LineEvent::Nothing,
        }
    }

    // It has sent its frame: ACK ends the transfer, anything else is a failed try.
    fn take_await_ack(&mut self, byte: u8, now: u64, out: &mut Chars) -> LineEvent
        requires phase { self.old.phase ≡ Phase.AwaitAck }
        requires now { now < 2 ^ 62 }
        requires room { array_vec_len out.old < 1024 }
        ensures next { self.new ≡ (character_in Phase.AwaitAck self.old byte now).next }
        ensures written { out.new.items ≡ out.old.items ++ (character_in Phase.AwaitAck self.old byte now).written }
        ensures at_most { array_vec_len out.new ≤ array_vec_len out.old + 1 }
        ensures event { result ≡ (character_in Phase.AwaitAck self.old byte now).event }
    {
        if byte == ACK {
            self.let_go(LineEvent::Sent)
        } else {
            self.fail_try(now, out)
        }
    }

    // It has granted the line: the length byte says how many characters come.
    fn take_await_length(&mut self, byte: u8, now: u64) -> LineEvent
        requires phase { self.old.phase ≡ Phase.AwaitLength }
        requires now { now < 2 ^ 62 }
        ensures next { self.new ≡ (character_in Phase.AwaitLength self.old byte now).next }
        ensures written { (character_in Phase.AwaitLength self.old byte now).written ≡ [] }
        ensures event { result ≡ (character_in Phase.AwaitLength self.old byte now).event }
    {
        if (10..=254).contains(&byte) {
            self.phase = Phase::Gathering;
            self.gathered.push(byte);
        } else {
            self.phase = Phase::Settling;
            self.cause = Some(LineCause::Length(byte));
        }
        self.deadline = Some(now + u64::from(self.times.t1));
        LineEvent::Nothing
    }

    // It gathers a frame: the last character decides.
    fn take_gathering(&mut self, byte: u8, now: u64, out: &mut Chars) -> LineEvent
        requires phase { self.old.phase ≡ Phase.Gathering }
        requires now { now < 2 ^ 62 }
        requires room { array_vec_len out.old < 1024 }
        ensures next { self.new ≡ (character_in Phase.Gathering self.old byte now).next }
        ensures written { out.new.items ≡ out.old.items ++ (character_in Phase.Gathering self.old byte now).written }
        ensures at_most { array_vec_len out.new ≤ array_vec_len out.old + 1 }
        ensures event { result ≡ (character_in Phase.Gathering self.old byte now).event }
    {
        self.gathered.push(byte);
        let frame = self.gathered.as_slice();
        if frame.len() < usize::from(frame[0]) + 3 {
            self.deadline = Some(now + u64::from(self.times.t1));
            return LineEvent::Nothing;
        }
        let read = read_frame(frame);
        self.gathered.clear();
        match read {
            Ok(block) => {
                self.phase = Phase::Idle;
                self.deadline = None;
                out.push(ACK);
                LineEvent::Arrived(block)
            }
            Err(cause) => {
                self.phase = Phase::Settling;
                self.cause = Some(cause);
                self.deadline = Some(now + u64::from(self.times.t1));
                LineEvent::Nothing
            }
        }
    }

    // It lets a bad frame pass: each character puts off the answer.
    fn take_settling(&mut self, now: u64) -> LineEvent
        requires phase { self.old.phase ≡ Phase.Settling }
        requires now { now < 2 ^ 62 }
        ensures next { self.new ≡ record self.old { deadline = within_t1 self.old now } }
        ensures event { result ≡ LineEvent.Nothing }
    {
        self.deadline = Some(now + u64::from(self.times.t1));
        LineEvent::Nothing
    }

    // Asks to send the held block: ENQ.
    fn ask(&mut self, now: u64, out: &mut Chars) -> LineEvent
        requires held { IsSome self.old.held }
        requires phase { IsNotReceiving self.old.phase }
        requires now { now < 2 ^ 62 }
        requires room { array_vec_len out.old < 1024 }
        ensures next { self.new ≡ (asks self.old now).next }
        ensures written { out.new.items ≡ out.old.items ++ (asks self.old now).written }
        ensures at_most { array_vec_len out.new ≤ array_vec_len out.old + 1 }
        ensures event { result ≡ (asks self.old now).event }
    {
        self.phase = Phase::AwaitEot;
        self.deadline = Some(now + u64::from(self.times.t2));
        out.push(ENQ);
        LineEvent::Nothing
    }

    // Lets the other end send: EOT.
    fn grant(&mut self, now: u64, out: &mut Chars) -> LineEvent
        requires phase { IsNotReceiving self.old.phase }
        requires now { now < 2 ^ 62 }
        requires room { array_vec_len out.old < 1024 }
        ensures next { self.new ≡ (grants self.old now).next }
        ensures written { out.new.items ≡ out.old.items ++ (grants self.old now).written }
        ensures at_most { array_vec_len out.new ≤ array_vec_len out.old + 1 }
        ensures event { result ≡ (grants self.old now).event }
    {
        self.phase = Phase::AwaitLength;
        self.deadline = Some(now + u64::from(self.times.t2));
        out.push(EOT);
        LineEvent::Nothing
    }

    // Sends the frame of the held block.
    fn send_frame(&mut self, now: u64, out: &mut Chars) -> LineEvent
        requires phase { self.old.phase ≡ Phase.AwaitEot }
        requires now { now < 2 ^ 62 }
        requires room { array_vec_len out.old + 257 ≤ 1024 }
        ensures next { self.new ≡ (sends_frame self.old now).next }
        ensures written { out.new.items ≡ out.old.items ++ (sends_frame self.old now).written }
        ensures at_most { array_vec_len out.new ≤ array_vec_len out.old + 257 }
        ensures event { result ≡ (sends_frame self.old now).event }
    {
        let frame = frame_of(self.held.as_ref().unwrap());
        out.try_extend_from_slice(frame.as_slice()).unwrap();
        self.phase = Phase::AwaitAck;
        self.deadline = Some(now + u64::from(self.times.t2));
        LineEvent::Nothing
    }

    // A try has failed: the block is tried again, or dropped after the last try.
    fn fail_try(&mut self, now: u64, out: &mut Chars) -> LineEvent
        requires phase { AwaitsAnswer self.old.phase }
        requires now { now < 2 ^ 62 }
        requires room { array_vec_len out.old < 1024 }
        ensures next { self.new ≡ (fails_try self.old now).next }
        ensures written { out.new.items ≡ out.old.items ++ (fails_try self.old now).written }
        ensures at_most { array_vec_len out.new ≤ array_vec_len out.old + 1 }
        ensures event { result ≡ (fails_try self.old now).event }
    {
        if self.try_number == self.times.rty + 1 {
            return self.let_go(LineEvent::Failed);
        }
        self.try_number += 1;
        self.ask(now, out)
    }

    // Is idle again, drops the held block and tells this.
    fn let_go(&mut self, event: LineEvent) -> LineEvent
        requires { IsNotReceiving self.old.phase }
        ensures next { self.new ≡ without_block self.old }
        ensures event { result ≡ event }
    {
        self.phase = Phase::Idle;
        self.held = None;
        self.try_number = 0;
        self.deadline = None;
        event
    }

    // Refuses a frame: NAK.
    fn refuse(&mut self, cause: LineCause, out: &mut Chars) -> LineEvent
        requires room { array_vec_len out.old < 1024 }
        ensures next { self.new ≡ (refuses cause self.old).next }
        ensures written { out.new.items ≡ out.old.items ++ (refuses cause self.old).written }
        ensures at_most { array_vec_len out.new ≤ array_vec_len out.old + 1 }
        ensures event { result ≡ (refuses cause self.old).event }
    {
        self.phase = Phase::Idle;
        self.gathered.clear();
        self.cause = None;
        self.deadline = None;
        out.push(NAK);
        LineEvent::Refused(cause)
    }
}

// The block of a frame of which all announced characters came, or its two sums where they differ.
fn read_frame(frame: &[u8]) -> Result<Block, LineCause>
    requires at_least_10 { 10 ≤ slice_index frame.now 0 }
    requires at_most_254 { slice_index frame.now 0 ≤ 254 }
    requires whole { length frame.now ≡ slice_index frame.now 0 + 3 }
    ensures ok { IfOk result (λ block. (is_frame frame.now ≡ true) × (block ≡ block_in frame.now)) }
    ensures err { IfErr result (λ cause. (is_frame frame.now ≡ false) × (cause ≡ sum_cause frame.now)) }
{
    match block_of(frame) {
        Ok(block) => Ok(block),
        Err(BlockFault::Sum { got, want }) => Err(LineCause::Sum { got, want }),
        Err(_) => unreachable!("as many characters came as were announced"),
    }
}
