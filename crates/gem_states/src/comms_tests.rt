use super::CommsIn::*;
use super::CommsOut::*;
use super::CommsState::*;
use super::*;

// The state before, the input, its moment, the state after, what is sent, and the deadline, or 0 for none.
type Row = (CommsState, CommsIn, u64, CommsState, CommsOut, u64);

// WAIT DELAY was entered at 1,000 with a delay of 10,000; the delay is now 20,000.
const ROWS: [Row; 35] = [
    (Disabled, Enable, 10_999, WaitCra, SendRequest, 0),
    (Disabled, Disable, 10_999, Disabled, Nothing, 0),
    (Disabled, Accepted, 10_999, Disabled, Nothing, 0),
    (Disabled, Denied, 10_999, Disabled, Nothing, 0),
    (Disabled, SendFailed, 10_999, Disabled, Nothing, 0),
    (Disabled, HostRequest, 10_999, Disabled, Nothing, 0),
    (Disabled, OtherMessage, 10_999, Disabled, Nothing, 0),
    (Disabled, Time, 99_999, Disabled, Nothing, 0),
    (WaitCra, Enable, 10_999, WaitCra, Nothing, 0),
    (WaitCra, Disable, 10_999, Disabled, Nothing, 0),
    (WaitCra, Accepted, 10_999, Communicating, Nothing, 0),
    (WaitCra, Denied, 10_999, WaitDelay, Nothing, 30_999),
    (WaitCra, SendFailed, 10_999, WaitDelay, Nothing, 30_999),
    (WaitCra, HostRequest, 10_999, Communicating, Answer, 0),
    (WaitCra, OtherMessage, 10_999, WaitCra, Nothing, 0),
    (WaitCra, Time, 99_999, WaitCra, Nothing, 0),
    (WaitDelay, Enable, 10_999, WaitDelay, Nothing, 11_000),
    (WaitDelay, Disable, 10_999, Disabled, Nothing, 0),
    (WaitDelay, Accepted, 10_999, WaitDelay, Nothing, 11_000),
    (WaitDelay, Denied, 10_999, WaitDelay, Nothing, 11_000),
    (WaitDelay, SendFailed, 10_999, WaitDelay, Nothing, 11_000),
    (WaitDelay, HostRequest, 10_999, Communicating, Answer, 0),
    (WaitDelay, OtherMessage, 10_999, WaitCra, SendRequest, 0),
    (WaitDelay, Time, 10_999, WaitDelay, Nothing, 11_000),
    (WaitDelay, Time, 11_000, WaitCra, SendRequest, 0),
    (WaitDelay, Time, 99_999, WaitCra, SendRequest, 0),
    (Communicating, Enable, 10_999, Communicating, Nothing, 0),
    (Communicating, Disable, 10_999, Disabled, Nothing, 0),
    (Communicating, Accepted, 10_999, Communicating, Nothing, 0),
    (Communicating, Denied, 10_999, Communicating, Nothing, 0),
    (Communicating, SendFailed, 10_999, WaitCra, SendRequest, 0),
    (Communicating, HostRequest, 10_999, Communicating, Answer, 0),
    (
        Communicating,
        OtherMessage,
        10_999,
        Communicating,
        Nothing,
        0,
    ),
    (Communicating, Time, 99_999, Communicating, Nothing, 0),
    (Communicating, Time, 0, Communicating, Nothing, 0),
];

// The communication after these inputs at 1,000.
fn comms_after(inputs: &[CommsIn]) -> Comms {
    let mut comms = Comms::new();
    for input in inputs {
        let _output = comms.step(*input, 10_000, 1_000);
    }
    comms
}

fn comms_in(state: CommsState) -> Comms {
    match state {
        Disabled => comms_after(&[]),
        WaitCra => comms_after(&[Enable]),
        WaitDelay => comms_after(&[Enable, Denied]),
        Communicating => comms_after(&[Enable, Accepted]),
    }
}

fn follows(row: &Row) -> bool {
    let (state, input, now, next, output, deadline) = *row;
    let mut comms = comms_in(state);
    comms.state() == state
        && now < 1_000_000
        && comms.step(input, 20_000, now) == output
        && comms.state() == next
        && comms.deadline().unwrap_or(0) == deadline
}

#[test]
fn each_input_in_each_state(rt: HostRuntime) {
    for row in &ROWS {
        assert!(rt; follows(row), "{row:?}");
    }
}
