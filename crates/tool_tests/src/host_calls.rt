//! `host_node`: the calls of a host by itself.

use crate::host_cases::{ENQ, PLAN, is_out, nothing_yet};
use crate::host_comms::GREETING;
use gl_base::Row;
use host_node::{Host, HostCommand};
use message_flow::NodeInput;
use std::alloc::Global;
use std::test::Fail;

// The host behind these characters.
fn after(alloc: Global, host: Host, characters: &[u8]) -> Option<Host> {
    let mut host = host;
    for &character in characters {
        let mut out = nothing_yet(alloc);
        match host.step(alloc, NodeInput::Char(character), 0, &mut out) {
            Ok(next) => host = next,
            Err(_) => return None,
        }
    }
    Some(host)
}

// Whether it tells a message of this stream and function.
fn has_delivered(host: &Host, stream: u8, function: u8) -> bool {
    match host.delivered() {
        Some(message) => message.stream == stream && message.function == function,
        None => false,
    }
}

// The message that came whole is told behind that step, and behind no other.
fn tells_what_was_delivered(alloc: Global) -> bool {
    if !PLAN.fits() {
        return false;
    }
    let mut out = nothing_yet(alloc);
    let Ok(host) = Host::start(alloc, PLAN, 0, &mut out) else {
        return false;
    };
    if host.delivered().is_some() {
        return false;
    }
    let Some(host) = after(alloc, host, ENQ) else {
        return false;
    };
    if host.delivered().is_some() {
        return false;
    }
    let Some(host) = after(alloc, host, GREETING) else {
        return false;
    };
    if !has_delivered(&host, 1, 13) {
        return false;
    }
    let mut out = nothing_yet(alloc);
    match host.step(alloc, NodeInput::Time, 0, &mut out) {
        Ok(host) => host.delivered().is_none(),
        Err(_) => false,
    }
}

// Numbers are drawn from the first one that it was given, and more go behind them.
fn counts_its_numbers(alloc: Global) -> bool {
    if !PLAN.fits() {
        return false;
    }
    let mut out = nothing_yet(alloc);
    let Ok(mut host) = Host::start_from(alloc, PLAN, 8, 0, &mut out) else {
        return false;
    };
    if host.left() != 4096 {
        return false;
    }
    host.refill(alloc, 4104);
    if host.left() != 8192 {
        return false;
    }
    let command = HostCommand::Send {
        stream: 1,
        function: 1,
        wait: true,
        body: Row::new(alloc),
    };
    let mut out = nothing_yet(alloc);
    if !command.fits() {
        return false;
    }
    match host.step(alloc, NodeInput::Command(&command), 0, &mut out) {
        Ok(host) => host.left() == 8191 && is_out(&out, ENQ, &[b"sent S1F1 W 00000008 -"]),
        Err(_) => false,
    }
}

#[test]
fn the_message_of_a_step_is_told_behind_it(rt: HostRuntime) -> Result<(), Fail> {
    assert!(rt; tells_what_was_delivered(rt.alloc()));
    Ok(())
}

#[test]
fn numbers_are_counted_from_the_first_given(rt: HostRuntime) -> Result<(), Fail> {
    assert!(rt; counts_its_numbers(rt.alloc()));
    Ok(())
}
