//! The control state model with the operator's switch: its states, what it meets and sends, and its table.

ghost use Rattle.std.specs.Prelude.{◌≡◌, ◌++◌, [], ◌∷◌, List};
ghost use Rattle.gem_states.specs.declared.control.ControlOut.TheVariants.{Nothing};
ghost use Rattle.gem_states.specs.declared.control.ControlState.TheVariants.{Attempt, EquipmentOffline, HostOffline};
ghost use Rattle.gem_states.specs.Control.{IsControl, IsOffline, control_after, control_row, control_step, new_control, online_row, online_state, switches};

use std::marker::Model;

/// A state of the control of the equipment.
#[derive(Clone, Copy, Debug, PartialEq, Eq)]
pub enum ControlState {
    /// EQUIPMENT OFF-LINE.
    EquipmentOffline,
    /// ATTEMPT ON-LINE: S1F1 was sent, and S1F2 is awaited.
    Attempt,
    /// HOST OFF-LINE.
    HostOffline,
    /// ON-LINE, LOCAL.
    Local,
    /// ON-LINE, REMOTE.
    Remote,
}

/// What the control meets.
#[derive(Clone, Copy, Debug, PartialEq, Eq)]
pub enum ControlIn {
    /// The operator wants to be on-line, and the communication is established or not.
    Online { communicating: bool },
    /// The operator wants to be off-line.
    Offline,
    /// The operator sets the switch to local.
    ToLocal,
    /// The operator sets the switch to remote.
    ToRemote,
    /// S1F2 came.
    AttemptDone,
    /// S1F1 got no S1F2, or was not sent.
    AttemptFailed,
    /// S1F15 came.
    RequestOffline,
    /// S1F17 came.
    RequestOnline,
}

/// What the control sends.
#[derive(Clone, Copy, Debug, PartialEq, Eq)]
pub enum ControlOut {
    /// Nothing.
    Nothing,
    /// S1F1.
    SendAttempt,
    /// The answer with this code, OFLACK of S1F16 or ONLACK of S1F18.
    Ack(u8),
    /// S1F0, which aborts the host's request.
    Abort,
}

/// The control state model, with the operator's switch between local and remote.
#[derive(Debug, Drop)]
pub struct Control {
    state: ControlState,
    is_local: bool,
}

impl Model for Control {
    ghost use Rattle.gem_states.specs.Control.{ControlView, IsControl};

    ghost Value = { ControlView };

    ghost view = { λ inside. record { state = inside.state; is_local = inside.is_local } };

    ghost invariant = { λ inside. IsControl (record { state = inside.state; is_local = inside.is_local }) };
}

impl Control {
    /// The start in the planned state, after no input. The switch stands at local where that state is LOCAL, else at
    /// remote.
    pub fn new(state: ControlState) -> Control
        ensures { result ≡ control_after state [] }
    {
        Control {
            state,
            is_local: state == ControlState::Local,
        }
    }

    pub fn state(&self) -> ControlState
        ensures state { result ≡ self.now.state }
        ensures is_control { IsControl self.now }
    {
        self.state
    }

    /// Takes one input, and answers what is to be sent, by the table of the states.
    #[tactic(auto, using(crate::proofs::Pushes::control_push))]
    pub fn step(&mut self, input: ControlIn) -> ControlOut
        ensures next { self.new ≡ (control_step self.old input).next }
        ensures output { result ≡ (control_step self.old input).output }
        ensures after { (planned : ControlState) (past : List ControlIn) → self.old ≡ control_after planned past
            → self.new ≡ control_after planned (past ++ input ∷ []) }
    {
        match self.state {
            ControlState::EquipmentOffline => self.equipment_offline(input),
            ControlState::Attempt => self.attempt(input),
            ControlState::HostOffline => self.host_offline(input),
            ControlState::Local | ControlState::Remote => self.online(input),
        }
    }

    fn equipment_offline(&mut self, input: ControlIn) -> ControlOut
        requires { self.old.state ≡ EquipmentOffline }
        ensures next { self.new ≡ (control_row EquipmentOffline input self.old).next }
        ensures output { result ≡ (control_row EquipmentOffline input self.old).output }
    {
        match input {
            ControlIn::Online {
                communicating: true,
            } => {
                self.state = ControlState::Attempt;
                ControlOut::SendAttempt
            }
            ControlIn::ToLocal => self.switch(true),
            ControlIn::ToRemote => self.switch(false),
            ControlIn::RequestOnline => ControlOut::Abort,
            _ => ControlOut::Nothing,
        }
    }

    fn attempt(&mut self, input: ControlIn) -> ControlOut
        requires { self.old.state ≡ Attempt }
        ensures next { self.new ≡ (control_row Attempt input self.old).next }
        ensures output { result ≡ (control_row Attempt input self.old).output }
    {
        match input {
            ControlIn::ToLocal => self.switch(true),
            ControlIn::ToRemote => self.switch(false),
            ControlIn::AttemptDone => {
                self.state = self.online_state();
                ControlOut::Nothing
            }
            ControlIn::AttemptFailed => {
                self.state = ControlState::EquipmentOffline;
                ControlOut::Nothing
            }
            ControlIn::RequestOnline => ControlOut::Abort,
            _ => ControlOut::Nothing,
        }
    }

    fn host_offline(&mut self, input: ControlIn) -> ControlOut
        requires { self.old.state ≡ HostOffline }
        ensures next { self.new ≡ (control_row HostOffline input self.old).next }
        ensures output { result ≡ (control_row HostOffline input self.old).output }
    {
        match input {
            ControlIn::Offline => {
                self.state = ControlState::EquipmentOffline;
                ControlOut::Nothing
            }
            ControlIn::ToLocal => self.switch(true),
            ControlIn::ToRemote => self.switch(false),
            ControlIn::RequestOnline => {
                self.state = self.online_state();
                ControlOut::Ack(0)
            }
            _ => ControlOut::Nothing,
        }
    }

    // In LOCAL and REMOTE, where the state goes with the switch.
    fn online(&mut self, input: ControlIn) -> ControlOut
        ensures next { self.new ≡ (online_row input self.old).next }
        ensures output { result ≡ (online_row input self.old).output }
    {
        match input {
            ControlIn::Offline => {
                self.state = ControlState::EquipmentOffline;
                ControlOut::Nothing
            }
            ControlIn::ToLocal => {
                self.state = ControlState::Local;
                self.is_local = true;
                ControlOut::Nothing
            }
            ControlIn::ToRemote => {
                self.state = ControlState::Remote;
                self.is_local = false;
                ControlOut::Nothing
            }
            ControlIn::RequestOffline => {
                self.state = ControlState::HostOffline;
                ControlOut::Ack(0)
            }
            ControlIn::RequestOnline => ControlOut::Ack(2),
            _ => ControlOut::Nothing,
        }
    }

    fn online_state(&self) -> ControlState
        ensures { result ≡ online_state self.now.is_local }
    {
        if self.is_local {
            ControlState::Local
        } else {
            ControlState::Remote
        }
    }

    // Sets the switch alone: the state must be off-line.
    fn switch(&mut self, is_local: bool) -> ControlOut
        requires { IsOffline self.old.state }
        ensures next { self.new ≡ (switches is_local self.old).next }
        ensures output { result ≡ Nothing }
    {
        self.is_local = is_local;
        ControlOut::Nothing
    }
}
