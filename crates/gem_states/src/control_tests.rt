use super::ControlIn::*;
use super::ControlOut::*;
use super::ControlState::*;
use super::*;

// The state before, the input, the state after, and what is sent.
type Row = (ControlState, ControlIn, ControlState, ControlOut);

const ON: ControlIn = Online {
    communicating: true,
};

const ALONE: ControlIn = Online {
    communicating: false,
};

// Off-line, the switch stands at remote.
const ROWS: [Row; 45] = [
    (EquipmentOffline, ON, Attempt, SendAttempt),
    (EquipmentOffline, ALONE, EquipmentOffline, Nothing),
    (EquipmentOffline, Offline, EquipmentOffline, Nothing),
    (EquipmentOffline, ToLocal, EquipmentOffline, Nothing),
    (EquipmentOffline, ToRemote, EquipmentOffline, Nothing),
    (EquipmentOffline, AttemptDone, EquipmentOffline, Nothing),
    (EquipmentOffline, AttemptFailed, EquipmentOffline, Nothing),
    (EquipmentOffline, RequestOffline, EquipmentOffline, Nothing),
    (EquipmentOffline, RequestOnline, EquipmentOffline, Abort),
    (Attempt, ON, Attempt, Nothing),
    (Attempt, ALONE, Attempt, Nothing),
    (Attempt, Offline, Attempt, Nothing),
    (Attempt, ToLocal, Attempt, Nothing),
    (Attempt, ToRemote, Attempt, Nothing),
    (Attempt, AttemptDone, Remote, Nothing),
    (Attempt, AttemptFailed, EquipmentOffline, Nothing),
    (Attempt, RequestOffline, Attempt, Nothing),
    (Attempt, RequestOnline, Attempt, Abort),
    (HostOffline, ON, HostOffline, Nothing),
    (HostOffline, ALONE, HostOffline, Nothing),
    (HostOffline, Offline, EquipmentOffline, Nothing),
    (HostOffline, ToLocal, HostOffline, Nothing),
    (HostOffline, ToRemote, HostOffline, Nothing),
    (HostOffline, AttemptDone, HostOffline, Nothing),
    (HostOffline, AttemptFailed, HostOffline, Nothing),
    (HostOffline, RequestOffline, HostOffline, Nothing),
    (HostOffline, RequestOnline, Remote, Ack(0)),
    (Local, ON, Local, Nothing),
    (Local, ALONE, Local, Nothing),
    (Local, Offline, EquipmentOffline, Nothing),
    (Local, ToLocal, Local, Nothing),
    (Local, ToRemote, Remote, Nothing),
    (Local, AttemptDone, Local, Nothing),
    (Local, AttemptFailed, Local, Nothing),
    (Local, RequestOffline, HostOffline, Ack(0)),
    (Local, RequestOnline, Local, Ack(2)),
    (Remote, ON, Remote, Nothing),
    (Remote, ALONE, Remote, Nothing),
    (Remote, Offline, EquipmentOffline, Nothing),
    (Remote, ToLocal, Local, Nothing),
    (Remote, ToRemote, Remote, Nothing),
    (Remote, AttemptDone, Remote, Nothing),
    (Remote, AttemptFailed, Remote, Nothing),
    (Remote, RequestOffline, HostOffline, Ack(0)),
    (Remote, RequestOnline, Remote, Ack(2)),
];

fn follows(row: &Row) -> bool {
    let (state, input, next, output) = *row;
    let mut control = Control::new(state);
    control.state() == state && control.step(input) == output && control.state() == next
}

#[test]
fn each_input_in_each_state(rt: HostRuntime) {
    for row in &ROWS {
        assert!(rt; follows(row), "{row:?}");
    }
}

fn state_after(planned: ControlState, inputs: &[ControlIn]) -> ControlState {
    let mut control = Control::new(planned);
    for input in inputs {
        let _output = control.step(*input);
    }
    control.state()
}

// The switch is kept off-line, and set there too.
#[test]
fn on_line_goes_by_the_switch(rt: HostRuntime) {
    let runs = [
        (Local, [RequestOffline, RequestOnline, RequestOnline], Local),
        (
            Remote,
            [RequestOffline, RequestOnline, RequestOnline],
            Remote,
        ),
        (Remote, [RequestOffline, ToLocal, RequestOnline], Local),
        (Local, [Offline, ToRemote, RequestOnline], EquipmentOffline),
        (HostOffline, [ToLocal, ToRemote, RequestOnline], Remote),
        (
            HostOffline,
            [ToLocal, RequestOnline, RequestOffline],
            HostOffline,
        ),
        (Attempt, [ToLocal, AttemptDone, RequestOnline], Local),
        (Attempt, [ToLocal, ToRemote, AttemptDone], Remote),
        (EquipmentOffline, [ToLocal, ON, AttemptDone], Local),
        (Local, [Offline, ON, AttemptDone], Local),
        (Local, [ToRemote, Offline, ON], Attempt),
    ];
    for (planned, inputs, state) in runs {
        assert!(rt; state_after(planned, &inputs) == state, "{inputs:?}");
    }
}
