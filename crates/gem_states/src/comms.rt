//! The communications state model: its states, what it meets and sends, and its table, a function a state.

ghost use Rattle.std.specs.Prelude.{◌≡◌, ◌<◌, ◌^◌, ◌↔◌, ◌++◌, [], ◌∷◌, List, IsSome};
ghost use Rattle.gem_states.specs.declared.comms.CommsOut.TheVariants.{Answer, Nothing, SendRequest};
ghost use Rattle.gem_states.specs.declared.comms.CommsState.TheVariants.{Disabled, WaitCra, WaitDelay, Communicating};
ghost use Rattle.gem_states.specs.Comms.{CommsEntry, IsComms, answers, asks, comms_after, comms_row, comms_step, free_in, is_due};

use std::marker::Model;

/// A state of the communication with the host.
#[derive(Clone, Copy, Debug, PartialEq, Eq)]
pub enum CommsState {
    /// DISABLED: no new message is sent, and none that comes is looked at.
    Disabled,
    /// WAIT CRA: S1F13 was sent, and S1F14 is awaited.
    WaitCra,
    /// WAIT DELAY: the next S1F13 waits for its deadline.
    WaitDelay,
    /// COMMUNICATING.
    Communicating,
}

/// What the communication meets.
#[derive(Clone, Copy, Debug, PartialEq, Eq)]
pub enum CommsIn {
    /// The operator enables it.
    Enable,
    /// The operator disables it.
    Disable,
    /// S1F14 came with COMMACK 0.
    Accepted,
    /// Another S1F14 or S1F0 came, or T3 ran out on S1F13.
    Denied,
    /// A block could not be sent.
    SendFailed,
    /// S1F13 came.
    HostRequest,
    /// Another message came.
    OtherMessage,
    /// Time has passed.
    Time,
}

/// What the communication sends.
#[derive(Clone, Copy, Debug, PartialEq, Eq)]
pub enum CommsOut {
    /// Nothing.
    Nothing,
    /// S1F13.
    SendRequest,
    /// S1F14 with COMMACK 0.
    Answer,
}

/// The communications state model.
#[derive(Debug, Drop)]
pub struct Comms {
    state: CommsState,
    deadline: Option<u64>,
}

impl Model for Comms {
    ghost use Rattle.gem_states.specs.Comms.{CommsView, IsComms};

    ghost Value = { CommsView };

    ghost view = { λ inside. record { state = inside.state; deadline = inside.deadline } };

    ghost invariant = { λ inside. IsComms (record { state = inside.state; deadline = inside.deadline }) };
}

impl Comms {
    /// The start: DISABLED, after no input.
    pub fn new() -> Comms
        ensures { result ≡ comms_after [] }
    {
        Comms {
            state: CommsState::Disabled,
            deadline: None,
        }
    }

    pub fn state(&self) -> CommsState
        ensures { result ≡ self.now.state }
    {
        self.state
    }

    /// When WAIT DELAY ends, in milliseconds. `None` exactly in every other state.
    pub fn deadline(&self) -> Option<u64>
        ensures deadline { result ≡ self.now.deadline }
        ensures waits { IsSome result ↔ (self.now.state ≡ WaitDelay) }
        ensures is_comms { IsComms self.now }
    {
        self.deadline
    }

    /// Takes one input at a moment, and answers what is to be sent, by the table of the states. A denied or failed
    /// S1F13 waits for `delay` from `now` on. Both are in milliseconds.
    #[tactic(auto, using(crate::proofs::Pushes::comms_push))]
    pub fn step(&mut self, input: CommsIn, delay: u64, now: u64) -> CommsOut
        requires delay { delay < 2 ^ 62 }
        requires now { now < 2 ^ 62 }
        ensures next { self.new ≡ (comms_step self.old (record { input = input; delay = delay; now = now })).next }
        ensures output { result ≡ (comms_step self.old (record { input = input; delay = delay; now = now })).output }
        ensures after { (past : List CommsEntry) → self.old ≡ comms_after past
            → self.new ≡ comms_after (past ++ record { input = input; delay = delay; now = now } ∷ []) }
    {
        match self.state {
            CommsState::Disabled => self.disabled(input),
            CommsState::WaitCra => self.wait_cra(input, delay, now),
            CommsState::WaitDelay => self.wait_delay(input, now),
            CommsState::Communicating => self.communicating(input),
        }
    }

    fn disabled(&mut self, input: CommsIn) -> CommsOut
        requires { self.old.state ≡ Disabled }
        ensures next { self.new ≡ (comms_row Disabled input self.old 0 0).next }
        ensures output { result ≡ (comms_row Disabled input self.old 0 0).output }
    {
        match input {
            CommsIn::Enable => self.ask(),
            _ => CommsOut::Nothing,
        }
    }

    fn wait_cra(&mut self, input: CommsIn, delay: u64, now: u64) -> CommsOut
        requires state { self.old.state ≡ WaitCra }
        requires delay { delay < 2 ^ 62 }
        requires now { now < 2 ^ 62 }
        ensures next { self.new ≡ (comms_row WaitCra input self.old delay now).next }
        ensures output { result ≡ (comms_row WaitCra input self.old delay now).output }
    {
        match input {
            CommsIn::Disable => self.disable(),
            CommsIn::Accepted => {
                self.state = CommsState::Communicating;
                CommsOut::Nothing
            }
            CommsIn::Denied | CommsIn::SendFailed => {
                self.state = CommsState::WaitDelay;
                self.deadline = Some(now + delay);
                CommsOut::Nothing
            }
            CommsIn::HostRequest => self.answer(),
            _ => CommsOut::Nothing,
        }
    }

    fn wait_delay(&mut self, input: CommsIn, now: u64) -> CommsOut
        requires { self.old.state ≡ WaitDelay }
        ensures next { self.new ≡ (comms_row WaitDelay input self.old 0 now).next }
        ensures output { result ≡ (comms_row WaitDelay input self.old 0 now).output }
    {
        match input {
            CommsIn::Disable => self.disable(),
            CommsIn::HostRequest => self.answer(),
            CommsIn::OtherMessage => self.ask(),
            CommsIn::Time if self.is_due(now) => self.ask(),
            _ => CommsOut::Nothing,
        }
    }

    fn communicating(&mut self, input: CommsIn) -> CommsOut
        requires { self.old.state ≡ Communicating }
        ensures next { self.new ≡ (comms_row Communicating input self.old 0 0).next }
        ensures output { result ≡ (comms_row Communicating input self.old 0 0).output }
    {
        match input {
            CommsIn::Disable => self.disable(),
            CommsIn::SendFailed => self.ask(),
            CommsIn::HostRequest => self.answer(),
            _ => CommsOut::Nothing,
        }
    }

    fn is_due(&self, now: u64) -> bool
        ensures { result ≡ is_due self.now.deadline now }
    {
        match self.deadline {
            Some(deadline) => deadline <= now,
            None => false,
        }
    }

    fn ask(&mut self) -> CommsOut
        ensures next { self.new ≡ asks.next }
        ensures output { result ≡ SendRequest }
    {
        self.state = CommsState::WaitCra;
        self.deadline = None;
        CommsOut::SendRequest
    }

    fn answer(&mut self) -> CommsOut
        ensures next { self.new ≡ answers.next }
        ensures output { result ≡ Answer }
    {
        self.state = CommsState::Communicating;
        self.deadline = None;
        CommsOut::Answer
    }

    fn disable(&mut self) -> CommsOut
        ensures next { self.new ≡ free_in Disabled }
        ensures output { result ≡ Nothing }
    {
        self.state = CommsState::Disabled;
        self.deadline = None;
        CommsOut::Nothing
    }
}
